//! Key words: the key, and then the number in eight bytes, big-endian.
ghost use Rattle.std.specs.Prelude.{◌≡◌, ◌+◌, ◌*◌, ◌≤◌, ◌<◌, ◌↔◌, length, take, IsTrue, nat_lt};
ghost use Rattle.history_core.specs.Befores.{order_of};
ghost use Rattle.history_core.specs.KeyWord.{key_word, key_in, number_in};
ghost use Rattle.history_core.specs.Rules.{is_inside, is_earlier};

use byteorder::{BigEndian, ByteOrder};
use file_numbers::u64_at;
use std::cmp::Ordering;
use word_file::Tag;

/// The bytes of a number.
pub(crate) const NUMBER: usize = 8;

/// The most bytes of a key word.
pub(crate) const WORD_MOST: usize = 72;

/// The key of a key word.
#[tactic(auto, unfolding(crate::specs::KeyWord::key_in))]
pub(crate) fn key_of(word: &[u8]) -> &[u8]
    requires { 8 ≤ length word.now }
    ensures { result.now ≡ key_in word.now }
{
    &word[..word.len() - NUMBER]
}

/// The number of a key word.
#[tactic(auto, unfolding(crate::specs::KeyWord::number_in))]
pub(crate) fn number_of(word: &[u8]) -> u64
    requires { 8 ≤ length word.now }
    ensures { result ≡ number_in word.now }
{
    u64_at(word, word.len() - NUMBER)
}

/// Writes the key word to the front of `out`.
pub(crate) fn put_key_word(out: &mut [u8], key: &[u8], tx: u64)
    requires { length key.now + 8 ≤ length out.old }
    ensures { take (length key.now + 8) out.new ≡ key_word key.now tx }
{
    let end = key.len();
    out[..end].copy_from_slice(key);
    BigEndian::write_u64(&mut out[end..end + NUMBER], tx);
}

/// How two keys at numbers stand: by the bytes of the keys, and then by the numbers. The order of the bytes of
/// whole key words is another one where a key begins a longer one.
#[tactic(auto, unfolding(crate::specs::Befores::order_of))]
pub(crate) fn order(key: &[u8], tx: u64, other: &[u8], number: u64) -> Ordering
    ensures { result ≡ order_of key.now tx other.now number }
{
    key.cmp(&other).then(tx.cmp(&number))
}

/// Whether the first key word stands before the other.
#[tactic(auto, unfolding(crate::specs::Rules::is_earlier))]
pub(crate) fn is_earlier(word: &[u8], other: &[u8]) -> bool
    requires word { 8 ≤ length word.now }
    requires other { 8 ≤ length other.now }
    ensures { result ≡ is_earlier word.now other.now }
{
    let key = key_of(word);
    let next = key_of(other);
    order(key, number_of(word), next, number_of(other)).is_lt()
}

/// Whether the number is in the steps of the tag. A product that has no room in 64 bits is above each number.
#[tactic(auto, unfolding(crate::specs::Rules::is_inside))]
pub(crate) fn is_inside(tag: Tag, tx: u64) -> bool
    ensures { result ≡ is_inside tag tx }
{
    !is_below(tag.from, tag.step, tx) && is_below(tag.to, tag.step, tx)
}

/// Whether the number is below the first one of this step.
fn is_below(to: u64, step: u64, tx: u64) -> bool
    ensures { result ≡ nat_lt tx (to * step) }
{
    match to.checked_mul(step) {
        Some(high) => tx < high,
        None => true,
    }
}
