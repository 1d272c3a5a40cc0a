ghost use Rattle.std.specs.Prelude.{◌≡◌, ℕ, ◌+◌, ◌-◌, ◌*◌, ◌/◌, ◌<◌, ◌≤◌, ◌↔◌, [], length, slice_index_or, min, IsTrue};
ghost use Rattle.word_file.specs.Spelling.{StartsAt, IsPlace};
ghost use Rattle.btree_index.specs.Levels.{entries};
ghost use Rattle.word_file.specs.Paired.{key_count, KeysAscend, IsBelow};
ghost use Rattle.btree_index.specs.Keys.{AreBelow, IsNotBelow, IsLevel};

use crate::levels::entries_of;
use agg_outside::Steps;
use file_numbers::u64_at;
use std::sync::ledger::Ledger;
use word_file::WordFile;

/// Whether the word at this offset is below the key.
fn is_below<L: Ledger>(words: &WordFile, at: u64, key: &[u8], steps: &mut Steps<L>) -> bool
    requires { StartsAt words.now.words at }
    ensures value { (i : ℕ) → IsPlace words.now.words at i → IsTrue result ↔ IsBelow (slice_index_or words.now.words i []) key.now }
    ensures steps { steps.new ≡ steps.old + 1 }
{
    words.word_at(at, steps).cmp(&key).is_lt()
}

/// The first entry of the level from `from` on whose key isn't below, or `to` or the number of entries
/// where there is none before.
pub(crate) fn search<L: Ledger>(
    part: &[u8],
    level: u32,
    words: &WordFile,
    key: &[u8],
    from: u64,
    to: u64,
    steps: &mut Steps<L>,
) -> u64
    requires level { level < 16 }
    requires part { IsLevel words.now.words level part.now }
    requires ascending { KeysAscend words.now.words }
    requires order { from ≤ to }
    requires some { from ≤ entries (key_count words.now.words) level }
    requires few { to ≤ from + 16 }
    requires below { AreBelow words.now.words key.now level from }
    requires not_below { IsNotBelow words.now.words key.now level to }
    ensures within { result ≤ entries (key_count words.now.words) level }
    ensures below { AreBelow words.now.words key.now level result }
    ensures not_below { IsNotBelow words.now.words key.now level result }
    ensures steps { steps.new ≤ steps.old + 5 }
{
    let mut low = from;
    let mut high = to.min(entries_of(words.count() / 2, level));
    while low < high {
        let middle = low + (high - low) / 2;
        let at = u64_at(part, 8 * middle as usize);
        if is_below(words, at, key, steps) {
            low = middle + 1;
        } else {
            high = middle;
        }
    }
    low
}
