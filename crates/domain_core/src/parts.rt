//! Looks into the words of a file by their accessors.
ghost use Rattle.std.specs.Prelude.{◌≡◌, ℕ, [], ◌+◌, ◌*◌, ◌<◌, ◌≤◌, ◌^◌, length, slice_get, slice_index_or, Some};
ghost use Rattle.std.specs.Option.{option_copied};
ghost use Rattle.btree_index.specs.Levels.{levels};
ghost use Rattle.hashed_words.specs.Hashed.{form_of};
ghost use Rattle.agg_model.specs.Pairs.{word_in};
ghost use Rattle.domain_core.specs.KvFile.{pairs_in, ArePairWords, IsHeld, IsFirstNotBelow};

use agg_outside::Steps;
use btree_index::BTreeFile;
use hashed_words::HashedWords;
use std::sync::ledger::Ledger;

// The place of the first key that isn't below this one, or the number of pairs.
pub(crate) fn first_place<L: Ledger>(
    words: &HashedWords,
    index: &BTreeFile,
    key: &[u8],
    steps: &mut Steps<L>,
) -> u64
    requires { IsHeld words.now index.now }
    ensures place { IsFirstNotBelow (pairs_in words.now.words) key.now result }
    ensures steps { steps.new ≤ steps.old + (8 * levels (length (pairs_in words.now.words)) + 2) }
{
    index.seek(words.words(), key, steps)
}

// The key and the value at a place.
pub(crate) fn pair_in<'a, L: Ledger>(
    words: &'a HashedWords,
    index: &BTreeFile,
    place: u64,
    steps: &mut Steps<L>,
) -> (&'a [u8], &'a [u8])
    requires held { IsHeld words.now index.now }
    requires within { place < length (pairs_in words.now.words) }
    ensures pair { slice_get (pairs_in words.now.words) place
        ≡ Some (record { key = result.0.now; value = result.1.now }) }
    ensures steps { steps.new ≡ steps.old + 2 }
{
    words.read_pair(index.offset_of(place), steps)
}

// The value of a key.
pub(crate) fn look_up<'a, L: Ledger>(
    words: &'a HashedWords,
    key: &[u8],
    steps: &mut Steps<L>,
) -> Option<&'a [u8]>
    requires { ArePairWords words.now.words }
    ensures value { option_copied result ≡ word_in (pairs_in words.now.words) key.now }
    ensures split_steps { form_of words.now.words ≡ 1 → steps.new ≤ steps.old + 2 }
    ensures plain_steps { (digits : ℕ) → length (pairs_in words.now.words) < 2 ^ digits →
        steps.new ≤ steps.old + (digits + 2) }
    ensures steps { steps.new ≤ steps.old + (8 * levels (length (pairs_in words.now.words)) + 4) }
{
    // That there are fewer than 2^64 words comes with their number.
    let _count = words.words().count();
    words.value(key, steps)
}
