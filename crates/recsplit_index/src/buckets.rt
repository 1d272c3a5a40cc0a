ghost use Rattle.std.specs.Prelude.{◌≡◌, ◌∷◌, [], ◌++◌, ◌<◌, ◌≤◌, ◌^◌, length, IfOk, OnOk};
ghost use Rattle.word_file.specs.Paired.{IsPaired};
ghost use Rattle.recsplit_index.specs.Keys.{hashed_keys};
ghost use Rattle.recsplit_index.specs.Index.{bucket_count, nodes_of, HoldsAll};

use crate::keys::groups_of;
use crate::nodes::Parts;
use crate::parts::{all_built, parts_of, parts_side_by_side};
use agg_outside::{Memory, Steps};
use std::alloc::Global;
use std::sync::ledger::Ledger;
use std::thread::Threads;
use word_file::WordFile;

/// All nodes as they are written, with what stands before each bucket.
#[derive(Debug, Drop)]
pub(crate) struct Built {
    pub(crate) starts: Vec<u64>,
    pub(crate) parts: Parts,
}

/// The number of buckets over `keys` keys.
pub(crate) fn bucket_count(keys: u64) -> u64
    ensures value { result ≡ bucket_count keys }
    ensures some { 0 < keys → 0 < result }
{
    keys.div_ceil(100)
}

/// Puts down how many keys and bits there are so far.
pub(crate) fn put_start(parts: &Parts, starts: &mut Vec<u64>) -> Result<(), Memory>
    ensures { OnOk result (starts.new.items ≡ starts.old.items ++ (length parts.now.offsets.items ∷ length parts.now.codes ∷ [])) }
{
    starts.push(parts.offsets.len() as u64)?;
    starts.push(parts.codes.len())?;
    Ok(())
}

/// The nodes of all buckets under a salt, unless a node has no seed below the limit.
pub(crate) fn nodes_of<L: Ledger>(
    alloc: Global,
    salt: u64,
    words: &WordFile,
    tries: u32,
    steps: &mut Steps<L>,
) -> Result<Option<Built>, Memory>
    requires paired { IsPaired words.now.words }
    requires tries { tries ≤ 2 ^ 16 }
    ensures { IfOk result (λ built. HoldsAll built (nodes_of tries (hashed_keys salt words.now.words))) }
{
    let count = words.count() / 2;
    let groups = groups_of(alloc, salt, words, bucket_count(count), steps)?;
    let parts = parts_of(alloc, groups.as_slice(), tries)?;
    all_built(alloc, count, parts)
}

/// The same, where the nodes of many buckets are looked for side by side.
pub(crate) fn nodes_side_by_side<R: Threads + Sync, L: Ledger>(
    rt: &R,
    alloc: Global,
    salt: u64,
    words: &WordFile,
    tries: u32,
    steps: &mut Steps<L>,
) -> Result<Option<Built>, Memory>
    requires paired { IsPaired words.now.words }
    requires tries { tries ≤ 2 ^ 16 }
    ensures { IfOk result (λ built. HoldsAll built (nodes_of tries (hashed_keys salt words.now.words))) }
{
    let count = words.count() / 2;
    let groups = groups_of(alloc, salt, words, bucket_count(count), steps)?;
    let parts = parts_side_by_side(rt, alloc, groups.as_slice(), tries)?;
    all_built(alloc, count, parts)
}
