//! What an ingest looks at, and what it leaves.
ghost use Rattle.std.specs.Prelude.{◌≡◌, ◌≢◌, [], ◌++◌, ◌<◌, All, IfOk, OnOk};
ghost use Rattle.std.specs.Bool.{Decides};
ghost use Rattle.agg_model.specs.declared.change.Change.{Change};
ghost use Rattle.agg_model.specs.Batch.{IsBatch, HasNoRepeats};
ghost use Rattle.agg_model.specs.ChangeList.{next_of};
ghost use Rattle.agg_model.specs.Merged.{merged};
ghost use Rattle.core_run.specs.Ingests.{IsKept};

use agg_model::{Act, Batch, Change, check_batch, merge_repeats};
use agg_outside::{ListOf, Memory};
use std::alloc::Global;

fn copy_act(alloc: Global, act: &Act) -> Result<Act, Memory>
    ensures { IfOk result (λ a. a ≡ act.now) }
{
    match act {
        Act::Put(value) => {
            let value = value.copy(alloc)?;
            Ok(Act::Put(value))
        }
        Act::Del => Ok(Act::Del),
        Act::Mark => Ok(Act::Mark),
    }
}

fn copy_change(alloc: Global, change: &Change) -> Result<Change, Memory>
    ensures { IfOk result (λ c. c ≡ change.now) }
{
    let key = change.key.copy(alloc)?;
    let act = copy_act(alloc, &change.act)?;
    Ok(Change {
        tx: change.tx,
        entity: change.entity,
        key,
        act,
    })
}

fn copy_batch(alloc: Global, batch: &Batch) -> Result<Batch, Memory>
    ensures { IfOk result (λ copy. copy ≡ batch.now) }
{
    let mut copies = ListOf::new(alloc);
    for change in batch.as_slice() {
        let copy = copy_change(alloc, change)?;
        copies.push(copy)?;
    }
    Ok(copies)
}

/// Whether the batch may come after all numbers below `next`, with numbers below `far`, whatever repeats.
pub fn is_batch(next: u64, far: u64, batch: &Batch) -> bool
    ensures { Decides result (IsBatch next far batch.now) }
{
    match check_batch(next, far, batch) {
        Ok(_) => true,
        Err(_) => false,
    }
}

/// The batch once more, unless a change of it repeats another.
pub fn without_repeats(alloc: Global, batch: &Batch) -> Result<Option<Batch>, Memory>
    ensures { IfOk result (IsKept batch.now) }
{
    let copy = copy_batch(alloc, batch)?;
    let kept = merge_repeats(alloc, copy)?;
    if kept.len() == batch.len() {
        Ok(Some(kept))
    } else {
        Ok(None)
    }
}

/// The next number after the batch, whose numbers are below `far`.
pub fn next_after(next: u64, far: u64, batch: &Batch) -> u64
    requires { All (λ (c : Change). c.tx < far) batch.now }
    ensures { result ≡ next_of next batch.now }
{
    let mut after = next;
    for change in batch.as_slice() {
        after = change.tx + 1;
    }
    after
}

/// Puts more changes behind those that are there.
pub fn append(changes: &mut Batch, more: Batch) -> Result<(), Memory>
    ensures { OnOk result (changes.new ≡ changes.old ++ more) }
{
    for change in more.into_vec() {
        changes.push(change)?;
    }
    Ok(())
}
