ghost use Rattle.std.specs.Prelude.{◌≡◌, ℕ, ◌+◌, ◌*◌, ◌<◌, ◌≤◌, ◌^◌, ◌↔◌, List, [], length, take, drop, slice_index_or, IsTrue, IsSomeAnd, IfSome, IfNone};
ghost use Rattle.std.specs.Int.{w64, from_be_bytes};
ghost use Rattle.std.specs.Ordering.{nat_cmp};
ghost use Rattle.std.specs.Cmp.Lexicographic.{slice_cmp};
ghost use Rattle.word_file.specs.Spelling.{StartsAt, IsPlace};
ghost use Rattle.recsplit_index.specs.declared.keys.HashedKey.{HashedKey};
ghost use Rattle.word_file.specs.Paired.{key_count};
ghost use Rattle.recsplit_index.specs.Keys.{IsKeyAt, IsNoKey};
ghost use Rattle.bit_store.specs.Bits.{bits_of};
ghost use Rattle.recsplit_index.specs.Nodes.{Node};
ghost use Rattle.recsplit_index.specs.Walks.{IsNodeAt, HasNode, IsSlotOf, IsSplitOver, IsPlainOver, IsOnly, HasNone};

use crate::hash::scale;
use crate::walk::walk;
use agg_outside::Steps;
use bit_store::{BitView, RiceReader};
use file_numbers::u64_at;
use std::cmp::Ordering;
use std::sync::ledger::Ledger;
use word_file::WordFile;

/// How the word at this offset compares with the key.
fn compare_at<L: Ledger>(words: &WordFile, at: u64, key: &[u8], steps: &mut Steps<L>) -> Ordering
    requires { StartsAt words.now.words at }
    ensures value { (i : ℕ) → IsPlace words.now.words at i → result ≡ slice_cmp nat_cmp (slice_index_or words.now.words i []) key.now }
    ensures steps { steps.new ≡ steps.old + 1 }
{
    words.word_at(at, steps).cmp(&key)
}

/// Whether the word at this offset is the key.
pub(crate) fn is_key<L: Ledger>(words: &WordFile, at: u64, key: &[u8], steps: &mut Steps<L>) -> bool
    requires { StartsAt words.now.words at }
    ensures value { (i : ℕ) → IsPlace words.now.words at i → IsTrue result ↔ (slice_index_or words.now.words i [] ≡ key.now) }
    ensures steps { steps.new ≡ steps.old + 1 }
{
    compare_at(words, at, key, steps).is_eq()
}

/// The number at a place after the header.
fn number_at(bytes: &[u8], place: u64) -> u64
    requires { 24 + 8 * place ≤ length bytes.now }
    ensures { result ≡ from_be_bytes w64 (drop (16 + 8 * place) bytes.now) }
{
    u64_at(bytes, (16 + 8 * place) as usize)
}

/// The slot in a bucket of this size to which the hash leads.
fn slot_in(bytes: &[u8], numbers: u64, bits: u64, bit: u64, size: u64, hash: u64) -> Option<u64>
    requires long { 16 + 8 * numbers ≤ length bytes.now }
    requires bits { bits ≤ 8 * length (drop (16 + 8 * numbers) bytes.now) }
    requires some { 0 < size }
    requires there { HasNode (take bits (bits_of (drop (16 + 8 * numbers) bytes.now))) bit 0 size }
    ensures { (keys : List HashedKey) (n : Node) → size ≡ length keys → IsNodeAt (take bits (bits_of (drop (16 + 8 * numbers) bytes.now))) bit 0 keys n → IsSomeAnd result (λ slot. IsSlotOf hash slot keys n.slots) }
{
    let text = &bytes[(16 + 8 * numbers) as usize..];
    let mut reader = RiceReader::of(BitView::of(text, bits), bit);
    walk(&mut reader, 0, size, hash)
}

/// The offset of the one key that can have this hash, and `None` where its bucket is empty.
pub(crate) fn offset_of(bytes: &[u8], starts: u64, count: u64, bits: u64, hash: u64) -> Option<u64>
    requires { (keys : List HashedKey) × IsSplitOver keys starts count bits bytes.now }
    ensures found { (keys : List HashedKey) → IsSplitOver keys starts count bits bytes.now → IfSome result (λ offset. IsOnly hash offset keys) }
    ensures none { (keys : List HashedKey) → IsSplitOver keys starts count bits bytes.now → IfNone result (HasNone hash keys) }
{
    let buckets = starts / 2 - 1;
    if buckets == 0 {
        return None;
    }
    let bucket = scale(hash, buckets);
    let first = number_at(bytes, 2 * bucket);
    let bit = number_at(bytes, 2 * bucket + 1);
    let size = number_at(bytes, 2 * bucket + 2) - first;
    if size == 0 {
        return None;
    }
    let slot = slot_in(bytes, starts + count, bits, bit, size, hash)?;
    Some(number_at(bytes, starts + first + slot))
}

/// The offset of the key, looked for by halves in the order of the keys.
pub(crate) fn find_sorted<L: Ledger>(
    bytes: &[u8],
    count: u64,
    words: &WordFile,
    key: &[u8],
    steps: &mut Steps<L>,
) -> Option<u64>
    requires { IsPlainOver words.now.words count bytes.now }
    ensures found { IfSome result (λ offset. IsKeyAt words.now.words key.now offset) }
    ensures none { IfNone result (IsNoKey words.now.words key.now) }
    ensures steps { (digits : ℕ) → key_count words.now.words < 2 ^ digits → steps.new ≤ steps.old + digits }
{
    let mut low = 0;
    let mut high = count;
    while low < high {
        let middle = low + (high - low) / 2;
        let offset = number_at(bytes, middle);
        match compare_at(words, offset, key, steps) {
            Ordering::Less => low = middle + 1,
            Ordering::Equal => return Some(offset),
            Ordering::Greater => high = middle,
        }
    }
    None
}
