//! Looks back through the files of steps.
ghost use Rattle.std.specs.Prelude.{◌≡◌, ◌+◌, ◌≤◌, map};
ghost use Rattle.std.specs.Option.{option_copied};
ghost use Rattle.agg_model.specs.Pairs.{held_value, newest_word};
ghost use Rattle.domain_core.specs.KvFile.{pairs_of_files, words_read};

use crate::kv_file::KvFile;
use agg_outside::Steps;
use std::sync::ledger::Ledger;

// The stored value of a key in the last of the files that has it.
fn newest_word<'a, L: Ledger>(
    files: &'a [KvFile],
    key: &[u8],
    steps: &mut Steps<L>,
) -> Option<&'a [u8]>
    ensures word { option_copied result ≡ newest_word (pairs_of_files files.now) key.now }
    ensures steps { steps.new ≤ steps.old + words_read files.now }
{
    let mut left = files.len();
    while left > 0 {
        left -= 1;
        if let Some(word) = files[left].get(key, steps) {
            return Some(word);
        }
    }
    None
}

/// The value of a key in the last of the files that has it, oldest first; a deleted key has none.
pub fn newest_value<'a, L: Ledger>(
    files: &'a [KvFile],
    key: &[u8],
    steps: &mut Steps<L>,
) -> Option<&'a [u8]>
    ensures value { option_copied result ≡ held_value (newest_word (pairs_of_files files.now) key.now) }
    ensures steps { steps.new ≤ steps.old + words_read files.now }
{
    match newest_word(files, key, steps) {
        Some([]) => None,
        found => found,
    }
}
