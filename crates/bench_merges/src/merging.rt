//! Groups of steps, and their merge.
use crate::keys::{Sizes, changes_of};
use agg_model::{FileKind, Range, StepRows};
use agg_outside::Memory;
use collate_step::{EntityFiles, Groups, Inputs, collate};
use merge_files::merge;
use merge_ranges::is_aligned_range;
use std::alloc::Global;
use std::rt::Clock;
use std::sync::{Arc, Wait};
use std::thread::Threads;

// The groups of a step; of one that is too high, want of memory.
fn groups_of<H: Threads + Wait + Clock + Sync>(
    rt: &H,
    alloc: Global,
    sizes: Sizes,
    step: u64,
    below: &Inputs,
) -> Result<Groups, Memory> {
    if step >= 4096 {
        return Err(Memory);
    }
    let rows = StepRows {
        step,
        changes: changes_of(alloc, sizes, step)?,
    };
    collate(rt, alloc, &rows, below.as_slice(), sizes.keys)
}

/// The groups of the accounts, one of each step.
pub fn inputs_of<H: Threads + Wait + Clock + Sync>(
    rt: &H,
    alloc: Global,
    sizes: Sizes,
) -> Result<Inputs, Memory> {
    let mut below = Inputs::new(alloc);
    for step in 0..sizes.groups {
        let mut groups = groups_of(rt, alloc, sizes, step, &below)?.into_vec();
        groups.truncate(1);
        for group in groups {
            below.push(Arc::new(alloc, group)?)?;
        }
    }
    Ok(below)
}

/// The group over all steps; of a number of steps that is no range's, want of memory.
pub fn merged(alloc: Global, inputs: &Inputs) -> Result<EntityFiles, Memory> {
    let range = Range {
        from: 0,
        to: inputs.len() as u64,
    };
    if !is_aligned_range(range) {
        return Err(Memory);
    }
    match merge(alloc, inputs.as_slice(), range) {
        Ok(group) => Ok(group),
        Err(_) => Err(Memory),
    }
}

fn bytes_of(group: &EntityFiles, kind: FileKind) -> &[u8] {
    group.bytes_of(kind).unwrap_or(&[])
}

// A number that depends on each byte and its place.
fn sum_of_bytes(bytes: &[u8]) -> u64 {
    let mut sum = 0u64;
    for byte in bytes {
        sum = sum.wrapping_mul(31).wrapping_add(u64::from(*byte));
    }
    sum
}

/// A number of all bytes of the words.
pub fn words_sum(group: &EntityFiles) -> u64 {
    let mut sum = 0u64;
    for kind in [FileKind::Kv, FileKind::V, FileKind::Ef] {
        sum = sum
            .wrapping_mul(31)
            .wrapping_add(sum_of_bytes(bytes_of(group, kind)));
    }
    sum
}

/// The length of all files.
pub fn files_length(group: &EntityFiles) -> u64 {
    let mut sum = 0u64;
    for kind in [
        FileKind::Kv,
        FileKind::Bt,
        FileKind::Kvi,
        FileKind::V,
        FileKind::Vi,
        FileKind::Ef,
        FileKind::Efi,
    ] {
        sum = sum.wrapping_add(bytes_of(group, kind).len() as u64);
    }
    sum
}
