//! A step of changes behind groups of earlier steps.
use crate::accessors::accessors_length;
use crate::keys::{key_of, value_of};
use agg_model::{Act, Batch, Change, Entity, FileKind, StepRows};
use agg_outside::{Bytes, Memory};
use collate_step::{EntityFiles, Groups, Inputs, collate};
use std::alloc::Global;
use std::rt::Clock;
use std::sync::{Arc, Wait};
use std::thread::Threads;

/// So many changes, of `more` keys, behind `less` groups of earlier steps.
#[derive(Clone, Copy, Debug)]
pub struct Sizes {
    pub count: u64,
    pub more: u64,
    pub less: u64,
}

// Each eighth change is a deletion.
fn change_of(alloc: Global, key: u64, tx: u64) -> Result<Change, Memory> {
    let act = if tx % 8 == 7 {
        Act::Del
    } else {
        Act::Put(value_of(alloc, tx)?)
    };
    Ok(Change {
        tx,
        entity: Entity::Accounts,
        key: Bytes::of(alloc, &key_of(key))?,
        act,
    })
}

// A put of each key whose turn it is in this earlier step.
fn earlier_changes(alloc: Global, sizes: Sizes, step: u64) -> Result<Batch, Memory> {
    let first = step.wrapping_mul(sizes.count);
    let mut changes = Batch::new(alloc);
    for key in 0..sizes.more {
        if sizes.less > 0 && key % sizes.less == step {
            changes.push(change_of(alloc, key, first.wrapping_add(key))?)?;
        }
    }
    Ok(changes)
}

// The changes of the step, by key and number, as many of each key.
fn last_changes(alloc: Global, sizes: Sizes, step: u64) -> Result<Batch, Memory> {
    let first = step.wrapping_mul(sizes.count);
    let mut changes = Batch::new(alloc);
    for key in 0..sizes.more {
        for number in 0..sizes.count / sizes.more.max(1) {
            let tx = number.wrapping_mul(sizes.more).wrapping_add(key);
            changes.push(change_of(alloc, key, first.wrapping_add(tx))?)?;
        }
    }
    Ok(changes)
}

// The groups of a step; of one that is too high, want of memory.
fn groups_of<H: Threads + Wait + Clock + Sync>(
    rt: &H,
    alloc: Global,
    step: u64,
    changes: Batch,
    below: &Inputs,
    size: u64,
) -> Result<Groups, Memory> {
    if step >= 4096 {
        return Err(Memory);
    }
    let rows = StepRows { step, changes };
    collate(rt, alloc, &rows, below.as_slice(), size)
}

fn groups_below<H: Threads + Wait + Clock + Sync>(
    rt: &H,
    alloc: Global,
    sizes: Sizes,
) -> Result<Inputs, Memory> {
    let mut below = Inputs::new(alloc);
    for step in 0..sizes.less {
        let changes = earlier_changes(alloc, sizes, step)?;
        let groups = groups_of(rt, alloc, step, changes, &below, sizes.count)?;
        for group in groups.into_vec() {
            below.push(Arc::new(alloc, group)?)?;
        }
    }
    Ok(below)
}

// A number that depends on each byte and its place.
fn sum_of_bytes(bytes: &[u8]) -> u64 {
    let mut sum = 0u64;
    for byte in bytes {
        sum = sum.wrapping_mul(31).wrapping_add(u64::from(*byte));
    }
    sum
}

fn bytes_of(group: &EntityFiles, kind: FileKind) -> &[u8] {
    group.bytes_of(kind).unwrap_or(&[])
}

fn words_sum(groups: &Groups) -> u64 {
    let mut sum = 0u64;
    for group in groups.as_slice() {
        for kind in [FileKind::Kv, FileKind::V, FileKind::Ef] {
            sum = sum
                .wrapping_mul(31)
                .wrapping_add(sum_of_bytes(bytes_of(group, kind)));
        }
    }
    sum
}

fn words_length(groups: &Groups) -> u64 {
    let mut sum = 0u64;
    for group in groups.as_slice() {
        for kind in [FileKind::Kv, FileKind::V, FileKind::Ef] {
            sum = sum.wrapping_add(bytes_of(group, kind).len() as u64);
        }
    }
    sum
}

// The lengths of the accessors of the first group, built once more.
fn built_again(alloc: Global, groups: &Groups) -> Result<u64, Memory> {
    let Some(group) = groups.get(0) else {
        return Ok(0);
    };
    let kv = accessors_length(alloc, bytes_of(group, FileKind::Kv), true)?;
    let v = accessors_length(alloc, bytes_of(group, FileKind::V), false)?;
    let ef = accessors_length(alloc, bytes_of(group, FileKind::Ef), false)?;
    Ok(kv.wrapping_add(v).wrapping_add(ef))
}

/// The number of groups below for `below`, with the rows of the step made and not collated; for `collated` the length
/// of all words of the step's groups; for `summed` a number of all their bytes; and else the length of the accessors of
/// its first group, which are built once more.
pub fn sum_of_steps<H: Threads + Wait + Clock + Sync>(
    rt: &H,
    alloc: Global,
    part: &str,
    sizes: Sizes,
) -> Result<u64, Memory> {
    let below = groups_below(rt, alloc, sizes)?;
    let changes = last_changes(alloc, sizes, sizes.less)?;
    if part == "below" {
        return Ok(below.len() as u64);
    }
    let groups = groups_of(rt, alloc, sizes.less, changes, &below, sizes.count)?;
    match part {
        "collated" => Ok(words_length(&groups)),
        "summed" => Ok(words_sum(&groups)),
        _ => built_again(alloc, &groups),
    }
}
