//! Looks into the words of a file.
ghost use Rattle.std.specs.Prelude.{◌≡◌, ℕ, ◌+◌, ◌<◌, ◌≤◌, ◌^◌, nat_le, List, length, slice_get, find, Some};
ghost use Rattle.agg_model.specs.declared.contents.Times.{Times};
ghost use Rattle.hashed_words.specs.Hashed.{form_of, IsPairAt, StartsPair};
ghost use Rattle.inverted_index.specs.EfFile.{AreNumbers, IsHeld, lists_in, numbers_of, IsTextOf};

use agg_outside::Steps;
use elias_fano::EfList;
use hashed_words::HashedWords;
use std::sync::ledger::Ledger;

// The numbers whose text this is.
fn opened(text: &[u8]) -> EfList<'_>
    requires { (items : List ℕ) × IsTextOf text.now items }
    ensures { (items : List ℕ) → IsTextOf text.now items → result ≡ items }
{
    EfList::of(text)
}

// The numbers of a key.
pub(crate) fn list_in<'a, L: Ledger>(
    held: &'a HashedWords,
    key: &[u8],
    steps: &mut Steps<L>,
) -> Option<EfList<'a>>
    requires { IsHeld held.now }
    ensures numbers { result ≡ numbers_of (lists_in held.now.words) key.now }
    ensures split_steps { form_of held.now.words ≡ 1 → steps.new ≤ steps.old + 2 }
    ensures plain_steps { (digits : ℕ) → length (lists_in held.now.words) < 2 ^ digits →
        steps.new ≤ steps.old + (digits + 2) }
{
    match held.value(key, steps) {
        Some(text) => Some(opened(text)),
        None => None,
    }
}

// The key whose word starts at this offset, and its numbers.
pub(crate) fn pair_in(held: &HashedWords, at: u64) -> (&[u8], EfList<'_>)
    requires held { IsHeld held.now }
    requires starts { StartsPair held.now.words at }
    ensures { (place : ℕ) → IsPairAt held.now.words at place →
        slice_get (lists_in held.now.words) place ≡ Some (record { key = result.0.now; items = result.1 }) }
{
    let (key, text) = held.pair_at(at);
    (key, opened(text))
}

// The first number that isn't below `n`.
pub(crate) fn first_in(list: &EfList<'_>, n: u64) -> Option<u64>
    ensures { result ≡ find (nat_le n) list.now }
{
    match list.seek(n) {
        Some(found) => Some(found.1),
        None => None,
    }
}
