//! The order of key words.
ghost use Rattle.std.specs.Prelude.{◌≡◌, ◌≤◌};
ghost use Rattle.agg_model.specs.declared.entity.FileKind.{FileKind};
ghost use Rattle.merge_files.specs.Walks.{IsKeyWord, key_part, number_part, word_order};

use agg_model::FileKind;
use file_numbers::u64_at;
use std::cmp::Ordering;

/// The bytes of the number at the end of a key word of a `.v` file.
const NUMBER: usize = 8;

#[tactic(auto, unfolding(history_core::specs::KeyWord::key_in))]
fn key_part(kind: FileKind, word: &[u8]) -> &[u8]
    requires { IsKeyWord kind word.now }
    ensures { result.now ≡ key_part kind word.now }
{
    match kind {
        FileKind::V => &word[..word.len() - NUMBER],
        _ => word,
    }
}

#[tactic(auto, unfolding(history_core::specs::KeyWord::number_in))]
fn number_part(kind: FileKind, word: &[u8]) -> u64
    requires { IsKeyWord kind word.now }
    ensures { result ≡ number_part kind word.now }
{
    match kind {
        FileKind::V => u64_at(word, word.len() - NUMBER),
        _ => 0,
    }
}

/// How two key words stand: by their bytes, but those of a `.v` file by the key and then by the number.
#[tactic(auto, unfolding(crate::specs::Walks::word_order, history_core::specs::Befores::order_of))]
pub(crate) fn word_order(kind: FileKind, word: &[u8], other: &[u8]) -> Ordering
    requires word { IsKeyWord kind word.now }
    requires other { IsKeyWord kind other.now }
    ensures { result ≡ word_order kind word.now other.now }
{
    let key = key_part(kind, word);
    let next = key_part(kind, other);
    let number = number_part(kind, word);
    key.cmp(&next).then(number.cmp(&number_part(kind, other)))
}
