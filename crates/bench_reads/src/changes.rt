//! The changes of each step: those of the steps before the last go into groups, those of the last one into rows.
ghost use Rattle.std.specs.Prelude.{◌≡◌, ◌<◌, ◌≤◌, ◌^◌, None, IfOk};
ghost use Rattle.agg_model.specs.Batch.{HasNoRepeats};

use crate::keys::{key_of, value_of};
use crate::tree_keeper::TreeKeeper;
use agg_model::{Act, Batch, Change, Entity, StepRows};
use agg_outside::{Bytes, Memory};
use collate_step::{Inputs, collate};
use hot_keeper::Hot;
use row_epochs::{Rows, RowsError};
use std::alloc::Global;
use std::rt::Clock;
use std::sync::{Arc, Wait};
use std::thread::Threads;

/// Each key of which the number is a multiple of this changes often.
pub const OFTEN: u64 = 1000;

/// How often such a key changes in each step.
const TIMES: u64 = 10;

/// So many keys, shared out among so many steps; a step has as many numbers as there are keys.
#[derive(Clone, Copy, Debug)]
pub struct Sizes {
    pub keys: u64,
    pub groups: u64,
}

impl Sizes {
    /// The number that all changes are below.
    pub fn next(self) -> u64 {
        self.keys.wrapping_mul(self.groups.wrapping_add(1))
    }
}

// Each eighth change is a deletion.
fn change_of(alloc: Global, key: u64, tx: u64) -> Result<Change, Memory> {
    let act = if tx % 8 == 7 {
        Act::Del
    } else {
        Act::Put(value_of(alloc, tx)?)
    };
    Ok(Change {
        tx,
        entity: Entity::Accounts,
        key: Bytes::of(alloc, &key_of(key))?,
        act,
    })
}

// How many changes of the key the step has. In the last step each fourth key has one.
fn changes_in(sizes: Sizes, step: u64, key: u64) -> u64 {
    if key % OFTEN == 0 {
        return TIMES;
    }
    let has_one = if step == sizes.groups {
        key % 4 == 0
    } else {
        key % sizes.groups.max(1) == step
    };
    u64::from(has_one)
}

// Where in the step the key changes for this time.
fn place_of(sizes: Sizes, key: u64, time: u64) -> u64 {
    if key % OFTEN != 0 {
        return key;
    }
    let apart = (sizes.keys / TIMES).max(1);
    time.wrapping_mul(apart).wrapping_add(key % apart)
}

// The changes of the step, by key and number.
fn step_changes(alloc: Global, sizes: Sizes, step: u64) -> Result<Batch, Memory> {
    let first = sizes.keys.wrapping_mul(step);
    let mut changes = Batch::new(alloc);
    for key in 0..sizes.keys {
        for time in 0..changes_in(sizes, step, key) {
            let tx = first.wrapping_add(place_of(sizes, key, time));
            changes.push(change_of(alloc, key, tx)?)?;
        }
    }
    Ok(changes)
}

/// Adds the groups of a step to those below it.
pub fn add_groups<H: Threads + Wait + Clock + Sync>(
    rt: &H,
    alloc: Global,
    files: &mut Inputs,
    rows: &StepRows,
    size: u64,
) -> Result<(), Memory>
    requires { rows.now.step < 4096 }
{
    let groups = collate(rt, alloc, rows, files.as_slice(), size)?;
    for group in groups.into_vec() {
        files.push(Arc::new(alloc, group)?)?;
    }
    Ok(())
}

/// The groups of all steps but the last.
pub fn files_of<H: Threads + Wait + Clock + Sync>(
    rt: &H,
    alloc: Global,
    sizes: Sizes,
) -> Result<Inputs, Memory> {
    let mut files = Inputs::new(alloc);
    for step in 0..sizes.groups.min(4095) {
        let changes = step_changes(alloc, sizes, step)?;
        add_groups(
            rt,
            alloc,
            &mut files,
            &StepRows { step, changes },
            sizes.keys,
        )?;
    }
    Ok(files)
}

fn batch_of(alloc: Global, change: Change) -> Result<Batch, Memory>
    ensures { IfOk result HasNoRepeats }
{
    let mut batch = Batch::new(alloc);
    batch.push(change)?;
    Ok(batch)
}

/// Adds the row of a change, at an epoch of its own.
pub fn add_row(alloc: Global, change: Change, hot: &mut Hot<TreeKeeper>) -> Result<(), RowsError>
    requires { hot.old.told ≡ None }
    ensures { hot.new.told ≡ None }
{
    let batch = batch_of(alloc, change)?;
    hot.ingest(alloc, &batch)?;
    Ok(())
}

// Adds the changes of the key in the last step.
fn add_rows(
    alloc: Global,
    sizes: Sizes,
    key: u64,
    hot: &mut Hot<TreeKeeper>,
) -> Result<(), RowsError>
    requires { hot.old.told ≡ None }
    ensures { hot.new.told ≡ None }
{
    let first = sizes.keys.wrapping_mul(sizes.groups);
    for time in 0..changes_in(sizes, sizes.groups, key) {
        let tx = first.wrapping_add(place_of(sizes, key, time));
        add_row(alloc, change_of(alloc, key, tx)?, hot)?;
    }
    Ok(())
}

/// The rows of the last step.
pub fn rows_of(alloc: Global, sizes: Sizes) -> Result<Hot<TreeKeeper>, RowsError> {
    let mut hot = Hot::of(Rows::of(TreeKeeper::new(alloc), 0));
    for key in 0..sizes.keys {
        add_rows(alloc, sizes, key, &mut hot)?;
    }
    Ok(hot)
}
