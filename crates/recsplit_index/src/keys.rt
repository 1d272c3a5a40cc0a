ghost use Rattle.std.specs.Prelude.{◌≡◌, ℕ, ◌+◌, ◌∷◌, [], ◌++◌, ◌<◌, ◌≤◌, length, map, slice_set, slice_index_or, IfOk, OnOk};
ghost use Rattle.std.specs.List.{range_with_len};
ghost use Rattle.std.specs.Ordering.{nat_cmp};
ghost use Rattle.std.specs.Cmp.Lexicographic.{slice_cmp};
ghost use Rattle.std.specs.BTreeMap.{insert_entry};
ghost use Rattle.word_file.specs.Spelling.{StartsAt, IsPlace};
ghost use Rattle.recsplit_index.specs.Hash.{key_hash};
ghost use Rattle.word_file.specs.Paired.{IsPaired, key_count, key_offsets};
ghost use Rattle.recsplit_index.specs.Keys.{hashed_keys, by_key};
ghost use Rattle.recsplit_index.specs.Index.{bucket_keys};

use crate::hash::{key_hash, scale};
use agg_outside::{Bytes, Memory, Steps};
use std::alloc::Global;
use std::collections::BTreeMap;
use std::sync::ledger::Ledger;
use word_file::{WordFile, key_after};

/// A key's hash under a salt, and the offset of its word.
#[derive(Clone, Copy, Debug, PartialEq, Eq)]
pub(crate) struct HashedKey {
    pub(crate) hash: u64,
    pub(crate) offset: u64,
}

/// The hash of the key at this offset.
fn hash_at<L: Ledger>(salt: u64, words: &WordFile, at: u64, steps: &mut Steps<L>) -> u64
    requires { StartsAt words.now.words at }
    ensures { (i : ℕ) → IsPlace words.now.words at i → result ≡ key_hash salt (slice_index_or words.now.words i []) }
{
    key_hash(salt, words.word_at(at, steps))
}

fn put_key<L: Ledger>(
    alloc: Global,
    words: &WordFile,
    at: u64,
    steps: &mut Steps<L>,
    tree: &mut BTreeMap<Bytes, u64>,
) -> Result<(), Memory>
    requires { StartsAt words.now.words at }
    ensures { (i : ℕ) → IsPlace words.now.words at i → OnOk result (tree.new.entries ≡ insert_entry (slice_cmp nat_cmp) tree.old.entries (slice_index_or words.now.words i []) at) }
{
    let key = Bytes::of(alloc, words.word_at(at, steps))?;
    match tree.insert(key, at) {
        Ok(_) => Ok(()),
        Err(_) => Err(Memory),
    }
}

/// All keys in ascending order, each with its offset.
pub(crate) fn by_key<L: Ledger>(
    alloc: Global,
    words: &WordFile,
    offsets: &[u64],
    steps: &mut Steps<L>,
) -> Result<BTreeMap<Bytes, u64>, Memory>
    requires { offsets.now ≡ key_offsets words.now.words }
    ensures { IfOk result (λ tree. tree.entries ≡ by_key words.now.words) }
{
    let mut tree = BTreeMap::new(alloc);
    for offset in offsets {
        put_key(alloc, words, *offset, steps, &mut tree)?;
    }
    Ok(tree)
}

fn put_in_group(groups: &mut Vec<Vec<HashedKey>>, at: usize, key: HashedKey) -> Result<(), Memory>
    requires { at < length groups.old.items }
    ensures { OnOk result (map (λ g. g.items) groups.new.items ≡ slice_set (map (λ g. g.items) groups.old.items) at (slice_index_or (map (λ g. g.items) groups.old.items) at [] ++ key ∷ [])) }
{
    let group = &mut groups[at];
    group.push(key)?;
    Ok(())
}

/// How many keys each bucket has, so that each list of keys is made in one piece.
fn sizes_of<L: Ledger>(
    alloc: Global,
    salt: u64,
    words: &WordFile,
    buckets: u64,
    steps: &mut Steps<L>,
) -> Result<Vec<u64>, Memory> {
    let mut sizes = Vec::with_capacity(alloc, buckets as usize)?;
    for _ in 0..buckets {
        sizes.push(0u64)?;
    }
    let mut next = words.first();
    for _passed in 0..words.count() / 2 {
        if let Some(key) = next {
            let bucket = scale(hash_at(salt, words, key, steps), buckets) as usize;
            if let Some(size) = sizes.get_mut(bucket) {
                *size = size.saturating_add(1);
            }
            next = key_after(words, key);
        }
    }
    Ok(sizes)
}

/// A list for each bucket, with room for its keys.
fn empty_groups(alloc: Global, sizes: &[u64], buckets: u64) -> Result<Vec<Vec<HashedKey>>, Memory>
    ensures { IfOk result (λ v. map (λ g. g.items) v.items ≡ map (bucket_keys buckets []) (range_with_len 0 buckets)) }
{
    let mut groups = Vec::with_capacity(alloc, buckets as usize)?;
    for bucket in 0..buckets {
        let size = sizes.get(bucket as usize).copied().unwrap_or(0);
        let group = Vec::with_capacity(alloc, size as usize)?;
        groups.push(group)?;
    }
    Ok(groups)
}

/// The keys of each bucket, in their order. Each key is hashed twice, and is held once.
pub(crate) fn groups_of<L: Ledger>(
    alloc: Global,
    salt: u64,
    words: &WordFile,
    buckets: u64,
    steps: &mut Steps<L>,
) -> Result<Vec<Vec<HashedKey>>, Memory>
    requires paired { IsPaired words.now.words }
    requires some { 0 < key_count words.now.words → 0 < buckets }
    ensures { IfOk result (λ v. map (λ g. g.items) v.items ≡ map (bucket_keys buckets (hashed_keys salt words.now.words)) (range_with_len 0 buckets)) }
{
    let sizes = sizes_of(alloc, salt, words, buckets, steps)?;
    let mut groups = empty_groups(alloc, sizes.as_slice(), buckets)?;
    // That there are fewer than 2^64 words comes with their number.
    let _count = words.count();
    let mut place = 0u64;
    let mut next = words.first();
    while let Some(offset) = next {
        let hash = hash_at(salt, words, offset, steps);
        let bucket = scale(hash, buckets) as usize;
        put_in_group(&mut groups, bucket, HashedKey { hash, offset })?;
        next = key_after(words, offset);
        place += 1;
    }
    Ok(groups)
}
