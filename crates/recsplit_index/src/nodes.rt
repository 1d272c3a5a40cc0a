ghost use Rattle.std.specs.Prelude.{◌≡◌, ℕ, ◌+◌, ◌<◌, ◌≤◌, ◌^◌, ◌==◌, ◌++◌, length, true, IfOk, OnOk};
ghost use Rattle.std.specs.List.{filter};
ghost use Rattle.bit_store.specs.Rice.{rice_code};
ghost use Rattle.recsplit_index.specs.Nodes.{node, leaf, by_position, place_under, goes_left, goes_right, parameter, offsets_of, PutsNode};

use crate::hash::position;
use crate::keys::HashedKey;
use crate::seeds::{goes_left, leaf_seed, split_seed};
use agg_outside::Memory;
use bit_store::RiceWriter;
use std::alloc::Global;

/// What is written of the nodes so far: their codes, and the offsets of their keys by slot.
#[derive(Debug, Drop)]
pub(crate) struct Parts {
    pub(crate) codes: RiceWriter,
    pub(crate) offsets: Vec<u64>,
}

/// The parameter of a node's code.
#[tactic(auto, unfolding(crate::specs::Nodes::parameter))]
pub(crate) fn parameter(size: u64) -> u32
    ensures value { result ≡ parameter size }
    ensures few { result ≤ 8 }
{
    match size {
        2 => 0,
        3 => 1,
        4 => 3,
        5 => 4,
        6 => 5,
        7 => 7,
        8 => 8,
        _ => 2,
    }
}

/// Puts the offsets of the keys at one position of a leaf down.
fn put_place(
    keys: &[HashedKey],
    depth: u64,
    seed: u32,
    place: u64,
    offsets: &mut Vec<u64>,
) -> Result<(), Memory>
    ensures { OnOk result (offsets.new.items ≡ offsets.old.items ++ offsets_of (filter (λ key. place_under depth seed (length keys.now) key == place) keys.now)) }
{
    for key in keys {
        if position(depth, seed, keys.len() as u64, key.hash) == place {
            offsets.push(key.offset)?;
        }
    }
    Ok(())
}

/// Puts the offsets of a leaf's keys down by position.
fn put_by_position(
    keys: &[HashedKey],
    depth: u64,
    seed: u32,
    offsets: &mut Vec<u64>,
) -> Result<(), Memory>
    ensures { OnOk result (offsets.new.items ≡ offsets.old.items ++ offsets_of (by_position (place_under depth seed (length keys.now)) keys.now)) }
{
    for place in 0..keys.len() as u64 {
        put_place(keys, depth, seed, place, offsets)?;
    }
    Ok(())
}

fn put_all(keys: &[HashedKey], offsets: &mut Vec<u64>) -> Result<(), Memory>
    ensures { OnOk result (offsets.new.items ≡ offsets.old.items ++ offsets_of keys.now) }
{
    for key in keys {
        offsets.push(key.offset)?;
    }
    Ok(())
}

/// Puts a leaf down, unless it has no seed below the limit.
fn put_leaf(keys: &[HashedKey], depth: u64, tries: u32, out: &mut Parts) -> Result<bool, Memory>
    requires few { length keys.now ≤ 8 }
    requires tries { tries ≤ 2 ^ 16 }
    ensures { IfOk result (λ placed. PutsNode placed (leaf tries depth keys.now) out.old.codes out.old.offsets.items out.new.codes out.new.offsets.items) }
{
    if keys.len() < 2 {
        put_all(keys, &mut out.offsets)?;
        return Ok(true);
    }
    let Some(seed) = leaf_seed(keys, depth, tries) else {
        return Ok(false);
    };
    out.codes
        .push(u64::from(seed), parameter(keys.len() as u64))?;
    put_by_position(keys, depth, seed, &mut out.offsets)?;
    Ok(true)
}

/// The keys on both sides of a split, each side in their order.
fn sides_of(
    alloc: Global,
    keys: &[HashedKey],
    depth: u64,
    seed: u32,
) -> Result<(Vec<HashedKey>, Vec<HashedKey>), Memory>
    ensures left { IfOk result (λ sides. sides.0.items ≡ filter (goes_left depth seed (length keys.now)) keys.now) }
    ensures right { IfOk result (λ sides. sides.1.items ≡ filter (goes_right depth seed (length keys.now)) keys.now) }
{
    let mut left = Vec::new(alloc);
    let mut right = Vec::new(alloc);
    for key in keys {
        if goes_left(depth, seed, keys.len() as u64, key) {
            left.push(*key)?;
        } else {
            right.push(*key)?;
        }
    }
    Ok((left, right))
}

/// Puts the node of these keys down, unless it or a node under it has no seed below the limit.
pub(crate) fn put_node(
    alloc: Global,
    keys: &[HashedKey],
    depth: u64,
    tries: u32,
    out: &mut Parts,
) -> Result<bool, Memory>
    requires tries { tries ≤ 2 ^ 16 }
    requires deep { depth + length keys.now < 2 ^ 64 }
    ensures { (splits : ℕ) → length keys.now ≤ splits → IfOk result (λ placed. PutsNode placed (node splits tries depth keys.now) out.old.codes out.old.offsets.items out.new.codes out.new.offsets.items) }
{
    if keys.len() <= 8 {
        return put_leaf(keys, depth, tries, out);
    }
    let Some(seed) = split_seed(keys, depth, tries) else {
        return Ok(false);
    };
    out.codes
        .push(u64::from(seed), parameter(keys.len() as u64))?;
    let (left, right) = sides_of(alloc, keys, depth, seed)?;
    if !put_node(alloc, left.as_slice(), depth + 1, tries, out)? {
        return Ok(false);
    }
    put_node(alloc, right.as_slice(), depth + 1, tries, out)
}
