ghost use Rattle.std.specs.Prelude.{◌≡◌, ℕ, ◌+◌, ◌*◌, ◌<◌, ◌≤◌, ◌↔◌, [], slice_index_or, IsTrue, IfOk, IfSome, IfNone};
ghost use Rattle.std.specs.Option.{ForSome};
ghost use Rattle.word_file.specs.Spelling.{StartsAt, IsPlace, offset_of};
ghost use Rattle.word_file.specs.Paired.{IsPaired, IsBelow, KeysAscend, KeysDiffer, key_count, key_offsets};

use crate::file::WordFile;
use agg_outside::{Memory, Steps};
use std::alloc::Global;
use std::sync::ledger::Ledger;

/// Whether the words are pairs: each key has its value behind it.
pub fn is_paired(words: &WordFile) -> bool
    ensures { IsTrue result ↔ IsPaired words.now.words }
{
    2 * (words.count() / 2) == words.count()
}

/// The offset of the key after the one at `at`, and `None` after the last key.
pub fn key_after(words: &WordFile, at: u64) -> Option<u64>
    requires { StartsAt words.now.words at }
    ensures { (i : ℕ) → IsPlace words.now.words at i → result ≡ offset_of words.now.words (i + 2) }
{
    match words.next(at) {
        Some(value) => words.next(value),
        None => None,
    }
}

/// The offsets of all keys in their order.
pub fn key_offsets(alloc: Global, words: &WordFile) -> Result<Vec<u64>, Memory>
    requires { IsPaired words.now.words }
    ensures { IfOk result (λ v. v.items ≡ key_offsets words.now.words) }
{
    let mut out = Vec::with_capacity(alloc, (words.count() / 2) as usize)?;
    let mut next = words.first();
    while let Some(key) = next {
        out.push(key)?;
        next = key_after(words, key);
    }
    Ok(out)
}

/// Whether the word at one offset is below the one at the other.
fn is_less<L: Ledger>(words: &WordFile, key: u64, next: u64, steps: &mut Steps<L>) -> bool
    requires key { StartsAt words.now.words key }
    requires next { StartsAt words.now.words next }
    ensures value { (i j : ℕ) → IsPlace words.now.words key i → IsPlace words.now.words next j → IsTrue result ↔ IsBelow (slice_index_or words.now.words i []) (slice_index_or words.now.words j []) }
    ensures steps { steps.new ≡ steps.old + 2 }
{
    let one = words.word_at(key, steps);
    let other = words.word_at(next, steps);
    one.cmp(&other).is_lt()
}

/// The same, where there is a next word; else there is nothing that it would have to be below.
fn goes_up<L: Ledger>(words: &WordFile, key: u64, next: Option<u64>, steps: &mut Steps<L>) -> bool
    requires key { StartsAt words.now.words key }
    requires next { ForSome next (λ after. StartsAt words.now.words after) }
    ensures value { IfSome next (λ after. (i j : ℕ) → IsPlace words.now.words key i → IsPlace words.now.words after j → IsTrue result ↔ IsBelow (slice_index_or words.now.words i []) (slice_index_or words.now.words j [])) }
    ensures last { IfNone next (IsTrue result) }
    ensures steps { steps.new ≤ steps.old + 2 }
{
    match next {
        None => true,
        Some(after) => is_less(words, key, after, steps),
    }
}

/// Whether each key is below the next, by going over all words once. Accessors want keys that differ, or
/// that ascend: this is the test of both where keys are written in order.
pub fn keys_ascend<L: Ledger>(words: &WordFile, steps: &mut Steps<L>) -> bool
    requires { IsPaired words.now.words }
    ensures ascend { IsTrue result ↔ KeysAscend words.now.words }
    ensures differ { IsTrue result → KeysDiffer words.now.words }
    ensures steps { steps.new ≤ steps.old + 2 * key_count words.now.words }
{
    // That there are fewer than 2^64 words comes with their number.
    let _count = words.count();
    let mut last = words.first();
    let mut place = 0u64;
    while let Some(key) = last {
        let next = key_after(words, key);
        if !goes_up(words, key, next, steps) {
            return false;
        }
        last = next;
        place += 1;
    }
    true
}
