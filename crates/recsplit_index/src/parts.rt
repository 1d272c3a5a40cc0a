//! The nodes of many buckets: each is found by itself, and then all are put one behind the other.
ghost use Rattle.std.specs.Prelude.{◌≡◌, List, Option, ◌≤◌, ◌<◌, ◌++◌, ◌^◌, length, map, IfOk, OnOk};
ghost use Rattle.std.specs.Option.{option_map};
ghost use Rattle.std.specs.Thread.{IsSync};
ghost use Rattle.recsplit_index.specs.Nodes.{Node, node};
ghost use Rattle.recsplit_index.specs.Index.{HoldsAll, Holds};
ghost use Rattle.recsplit_index.specs.Parts.{IsPart, AreParts, nodes_in, both_nodes, what_are_held, what_are_of};

use crate::buckets::{Built, put_start};
use crate::keys::HashedKey;
use crate::nodes::{Parts, put_node};
use agg_outside::Memory;
use bit_store::RiceWriter;
use std::alloc::Global;
use std::thread::{Threads, join};

/// So many buckets of some hundred keys are worth a second thread.
const MANY: usize = 128;

/// The node of these keys, unless it or a node under it has no seed below the limit.
fn part_of(alloc: Global, keys: &[HashedKey], tries: u32) -> Result<Option<Parts>, Memory>
    requires { tries ≤ 2 ^ 16 }
    ensures { IfOk result (λ part. IsPart part (node (length keys.now) tries 0 keys.now)) }
{
    let mut parts = Parts {
        codes: RiceWriter::new(alloc),
        offsets: Vec::with_capacity(alloc, keys.len())?,
    };
    if !put_node(alloc, keys, 0, tries, &mut parts)? {
        return Ok(None);
    }
    Ok(Some(parts))
}

/// The node of the only group, where there is one.
fn only_part(
    alloc: Global,
    groups: &[Vec<HashedKey>],
    tries: u32,
) -> Result<Option<Vec<Parts>>, Memory>
    requires tries { tries ≤ 2 ^ 16 }
    requires few { length groups.now < 2 }
    ensures { IfOk result (λ parts. AreParts (option_map (λ v. v.items) parts) (nodes_in tries (map (λ g. g.items) groups.now))) }
{
    let mut parts = Vec::new(alloc);
    let Some(group) = groups.first() else {
        return Ok(Some(parts));
    };
    let Some(part) = part_of(alloc, group.as_slice(), tries)? else {
        return Ok(None);
    };
    parts.push(part)?;
    Ok(Some(parts))
}

/// The nodes of the groups before and behind, where both have all.
fn joined(
    front: Option<Vec<Parts>>,
    behind: Option<Vec<Parts>>,
) -> Result<Option<Vec<Parts>>, Memory>
    ensures { (xs ys : Option (List Node)) → AreParts (option_map (λ v. v.items) front) xs → AreParts (option_map (λ v. v.items) behind) ys →
        IfOk result (λ parts. AreParts (option_map (λ v. v.items) parts) (both_nodes xs ys)) }
{
    let Some(mut all) = front else {
        return Ok(None);
    };
    let Some(mut others) = behind else {
        return Ok(None);
    };
    all.append(&mut others)?;
    Ok(Some(all))
}

/// The nodes of these groups of keys, unless one has no seed below the limit.
pub(crate) fn parts_of(
    alloc: Global,
    groups: &[Vec<HashedKey>],
    tries: u32,
) -> Result<Option<Vec<Parts>>, Memory>
    requires { tries ≤ 2 ^ 16 }
    ensures { IfOk result (λ parts. AreParts (option_map (λ v. v.items) parts) (nodes_in tries (map (λ g. g.items) groups.now))) }
{
    if groups.len() < 2 {
        return only_part(alloc, groups, tries);
    }
    let (front, behind) = groups.split_at(groups.len() / 2);
    let first = parts_of(alloc, front, tries)?;
    let others = parts_of(alloc, behind, tries)?;
    joined(first, others)
}

/// The same, looked for side by side where there are many groups; a side for which no thread can be made is done after
/// the other.
pub(crate) fn parts_side_by_side<R: Threads + Sync>(
    rt: &R,
    alloc: Global,
    groups: &[Vec<HashedKey>],
    tries: u32,
) -> Result<Option<Vec<Parts>>, Memory>
    requires { tries ≤ 2 ^ 16 }
    ensures { IfOk result (λ parts. AreParts (option_map (λ v. v.items) parts) (nodes_in tries (map (λ g. g.items) groups.now))) }
{
    if groups.len() < MANY {
        return parts_of(alloc, groups, tries);
    }
    let (front, behind) = groups.split_at(groups.len() / 2);
    let (first, others) = join(
        rt,
        || -> Result<Option<Vec<Parts>>, Memory>
            requires { IsSync R.row × (tries ≤ 2 ^ 16) }
            ensures { IfOk result (λ parts. AreParts (option_map (λ v. v.items) parts) (nodes_in tries (map (λ g. g.items) front.entry.now))) }
        { parts_side_by_side(rt, alloc, front, tries) },
        || -> Result<Option<Vec<Parts>>, Memory>
            requires { IsSync R.row × (tries ≤ 2 ^ 16) }
            ensures { IfOk result (λ parts. AreParts (option_map (λ v. v.items) parts) (nodes_in tries (map (λ g. g.items) behind.entry.now))) }
        { parts_side_by_side(rt, alloc, behind, tries) },
    );
    joined(first?, others?)
}

/// Puts a node down behind others.
fn put_part(part: &Parts, all: &mut Parts) -> Result<(), Memory>
    ensures codes { OnOk result (all.new.codes ≡ all.old.codes ++ part.now.codes) }
    ensures offsets { OnOk result (all.new.offsets.items ≡ all.old.offsets.items ++ part.now.offsets.items) }
{
    all.codes.append(&part.codes)?;
    all.offsets.extend_from_slice(part.offsets.as_slice())?;
    Ok(())
}

/// The nodes one behind the other, of `count` keys in all.
fn built_of(alloc: Global, count: u64, parts: &[Parts]) -> Result<Built, Memory>
    ensures { (nodes : List Node) → what_are_held parts.now ≡ what_are_of nodes → IfOk result (λ built. Holds built nodes) }
{
    let mut starts = Vec::with_capacity(alloc, parts.len().saturating_mul(2).saturating_add(2))?;
    let mut all = Parts {
        codes: RiceWriter::new(alloc),
        offsets: Vec::with_capacity(alloc, count as usize)?,
    };
    for part in parts {
        put_start(&all, &mut starts)?;
        put_part(part, &mut all)?;
    }
    put_start(&all, &mut starts)?;
    Ok(Built { starts, parts: all })
}

/// All nodes, where each was found.
pub(crate) fn all_built(
    alloc: Global,
    count: u64,
    parts: Option<Vec<Parts>>,
) -> Result<Option<Built>, Memory>
    ensures { (nodes : Option (List Node)) → AreParts (option_map (λ v. v.items) parts) nodes → IfOk result (λ built. HoldsAll built nodes) }
{
    let Some(parts) = parts else {
        return Ok(None);
    };
    let built = built_of(alloc, count, parts.as_slice())?;
    Ok(Some(built))
}
