//! Looks into the words of a file.
ghost use Rattle.std.specs.Prelude.{◌≡◌, ℕ, ◌+◌, ◌<◌, ◌≤◌, ◌^◌, length, slice_get, Some};
ghost use Rattle.std.specs.Option.{option_copied};
ghost use Rattle.history_core.specs.Befores.{value_before};
ghost use Rattle.history_core.specs.KeyWord.{befores_in};
ghost use Rattle.history_core.specs.VFile.{tagged_befores, vi_form, IsHeld, IsRowAt, StartsRow};

use crate::key_word::{NUMBER, WORD_MOST, key_of, number_of, put_key_word};
use agg_outside::Steps;
use hashed_words::HashedWords;
use std::sync::ledger::Ledger;

/// The value before the change of a key at a number.
pub(crate) fn look_up<'a, L: Ledger>(
    file: &'a HashedWords,
    key: &[u8],
    tx: u64,
    steps: &mut Steps<L>,
) -> Option<&'a [u8]>
    requires { IsHeld file.now }
    ensures value { option_copied result ≡ value_before (befores_in file.now.words) key.now tx }
    ensures split_steps { vi_form (tagged_befores file.now.tag (befores_in file.now.words)) ≡ 1 →
        steps.new ≤ steps.old + 2 }
    ensures plain_steps { (digits : ℕ) → length (befores_in file.now.words) < 2 ^ digits →
        steps.new ≤ steps.old + (digits + 2) }
{
    let mut word = [0; WORD_MOST];
    if key.len() > WORD_MOST - NUMBER {
        return None;
    }
    put_key_word(&mut word, key, tx);
    let sought = &word[..key.len() + NUMBER];
    file.value(sought, steps)
}

/// What stands at the offset of a key word.
pub(crate) fn row_in(file: &HashedWords, at: u64) -> (&[u8], u64, &[u8])
    requires held { IsHeld file.now }
    requires starts { StartsRow (befores_in file.now.words) at }
    ensures { (place : ℕ) → IsRowAt (befores_in file.now.words) at place →
        slice_get (befores_in file.now.words) place
        ≡ Some (record { key = result.0.now; tx = result.1; value = result.2.now }) }
{
    let (word, value) = file.pair_at(at);
    (key_of(word), number_of(word), value)
}
