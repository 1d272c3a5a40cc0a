//! One entry: whether it is possible, and what stands after it.
ghost use Rattle.std.specs.Prelude.{◌≡◌, [], ◌∷◌, ℕ, All, IfOk, OnOk};
ghost use Rattle.std.specs.Bool.{Decides};
ghost use Rattle.core_machine.specs.declared.entry.Entry.TheVariants.{Ingest, Open, Close, Publish};
ghost use Rattle.core_machine.specs.declared.entry.Entry.TheVariants.{Stray, Sweep, Settled};
ghost use Rattle.core_machine.specs.Entries.{IsUnseen, IsStrayName, IsSweep, IsSettled};
ghost use Rattle.core_machine.specs.Sound.{IsSound, in_rows};
ghost use Rattle.core_run.specs.Counts.{IsCounted};
ghost use Rattle.core_run.specs.Running.{machine_of, openings};
ghost use Rattle.core_run.specs.Runs.{Steps};

use crate::batches::{append, is_batch, next_after, without_repeats};
use crate::counts::{count_names, count_of, uncount_names};
use crate::names::{add_names, are_same, has_name, names_over, remove_name, remove_names, set_of};
use crate::publish::is_publish;
use crate::rows::{is_open, place_of_row};
use crate::running::{Row, Running};
use agg_model::{Batch, STEPS_MOST};
use agg_outside::{Bytes, Memory, Names};
use core_machine::Entry;
use merge_ranges::{DiskName, canon_cut};
use std::alloc::Global;

// The changes are accepted, if the batch may come and has no repeats.
fn ingest(alloc: Global, running: &mut Running, batch: &Batch) -> Result<bool, Memory>
    requires sound { IsSound (machine_of running.old) }
    requires counted { IsCounted running.old }
    ensures is { (caller : ℕ) → IfOk result
        (Steps (machine_of running.old) (Ingest caller batch.now) (machine_of running.new)) }
    ensures counted { OnOk result (IsCounted running.new) }
{
    if batch.len() == 0 {
        return Ok(false);
    }
    let far = STEPS_MOST * running.size;
    if !is_batch(running.next, far, batch) {
        return Ok(false);
    }
    let Some(kept) = without_repeats(alloc, batch)? else {
        return Ok(false);
    };
    let next = next_after(running.next, far, batch);
    append(&mut running.changes, kept)?;
    running.next = next;
    Ok(true)
}

// The row is open, if it is free and the names are the visible ones.
fn open(
    alloc: Global,
    running: &mut Running,
    caller: u32,
    number: u64,
    names: &Names,
) -> Result<bool, Memory>
    requires sound { IsSound (machine_of running.old) }
    requires counted { IsCounted running.old }
    ensures is { IfOk result (Steps (machine_of running.old) (Open caller number names.now) (machine_of running.new)) }
    ensures counted { OnOk result (IsCounted running.new) }
{
    if is_open(running.rows.as_slice(), caller, number) {
        return Ok(false);
    }
    let names = set_of(alloc, names)?;
    if !are_same(&names, &running.visible) {
        return Ok(false);
    }
    count_names(alloc, &mut running.counts, &names)?;
    running.rows.push(Row {
        caller,
        number,
        at: running.next,
        names,
    })?;
    Ok(true)
}

// The row is closed, if it is open.
fn close(running: &mut Running, caller: u32, number: u64) -> bool
    requires { IsCounted running.old }
    ensures is { Steps (machine_of running.old) (Close caller number) (machine_of running.new) result }
    ensures counted { IsCounted running.new }
{
    let Some(i) = place_of_row(running.rows.as_slice(), caller, number) else {
        return false;
    };
    let row = running.rows.remove(i);
    uncount_names(&mut running.counts, row.names);
    true
}

// The added files are visible in place of the replaced ones, if they may be.
fn publish(
    alloc: Global,
    running: &mut Running,
    added: &Names,
    replaced: &Names,
) -> Result<bool, Memory>
    requires sound { IsSound (machine_of running.old) }
    requires counted { IsCounted running.old }
    ensures is { (caller : ℕ) → IfOk result
        (Steps (machine_of running.old) (Publish caller added.now replaced.now) (machine_of running.new)) }
    ensures counted { OnOk result (IsCounted running.new) }
{
    let may = is_publish(
        alloc,
        &running.visible,
        running.next,
        running.size,
        added,
        replaced,
    )?;
    if !may {
        return Ok(false);
    }
    add_names(alloc, &mut running.present, added)?;
    remove_names(&mut running.visible, replaced);
    add_names(alloc, &mut running.visible, added)?;
    Ok(true)
}

// Whether the name is in an open row: one look, however many rows are open.
fn is_in_row(running: &Running, name: &Bytes) -> bool
    requires { IsCounted running.now }
    ensures { result ≡ in_rows (openings running.now.rows.items) name.now }
{
    count_of(&running.counts, name) > 0
}

// Whether the name is neither visible nor in an open row.
fn is_unseen(running: &Running, name: &Bytes) -> bool
    requires { IsCounted running.now }
    ensures { Decides result (IsUnseen (machine_of running.now) name.now) }
{
    if has_name(&running.visible, name) {
        return false;
    }
    !is_in_row(running, name)
}

// Whether the name is that of a file or a temporary one.
fn is_stray_name(running: &Running, name: &Bytes) -> bool
    requires { IsCounted running.now }
    ensures { Decides result (IsStrayName (machine_of running.now) name.now) }
{
    if !is_unseen(running, name) {
        return false;
    }
    match DiskName::read(name.as_slice()) {
        Some(_) => true,
        None => false,
    }
}

fn are_stray_names(running: &Running, names: &Names) -> bool
    requires { IsCounted running.now }
    ensures { Decides result (All (IsStrayName (machine_of running.now)) names.now) }
{
    for name in names.as_slice() {
        if !is_stray_name(running, name) {
            return false;
        }
    }
    true
}

// The names are present, if they may be.
fn stray(alloc: Global, running: &mut Running, names: &Names) -> Result<bool, Memory>
    requires { IsCounted running.old }
    ensures is { (caller : ℕ) → IfOk result
        (Steps (machine_of running.old) (Stray caller names.now) (machine_of running.new)) }
    ensures counted { OnOk result (IsCounted running.new) }
{
    if !are_stray_names(running, names) {
        return Ok(false);
    }
    add_names(alloc, &mut running.present, names)?;
    Ok(true)
}

fn may_sweep(running: &Running, name: &Bytes) -> bool
    requires { IsCounted running.now }
    ensures { Decides result (IsSweep (machine_of running.now) name.now) }
{
    if !has_name(&running.present, name) {
        return false;
    }
    is_unseen(running, name)
}

// The name isn't present any more, if nobody sees it.
fn sweep(running: &mut Running, name: &Bytes) -> bool
    requires { IsCounted running.old }
    ensures is { (caller : ℕ) → Steps (machine_of running.old) (Sweep caller name.now) (machine_of running.new) result }
    ensures counted { IsCounted running.new }
{
    if !may_sweep(running, name) {
        return false;
    }
    remove_name(&mut running.present, name);
    true
}

// Whether the names are the visible ones, and the canonical ones.
fn is_settled(alloc: Global, running: &Running, names: &Names) -> Result<bool, Memory>
    requires { IsSound (machine_of running.now) }
    ensures { IfOk result (λ b. Decides b (IsSettled (machine_of running.now) names.now)) }
{
    let set = set_of(alloc, names)?;
    if !are_same(&set, &running.visible) {
        return Ok(false);
    }
    let cut = canon_cut(alloc, running.next / running.size)?;
    let canonical = names_over(alloc, &cut)?;
    Ok(are_same(&set, &canonical))
}

fn settled(alloc: Global, running: &mut Running, names: &Names) -> Result<bool, Memory>
    requires sound { IsSound (machine_of running.old) }
    requires counted { IsCounted running.old }
    ensures is { (caller : ℕ) → IfOk result
        (Steps (machine_of running.old) (Settled caller names.now) (machine_of running.new)) }
    ensures counted { OnOk result (IsCounted running.new) }
{
    is_settled(alloc, running, names)
}

/// Takes the entry, if it is possible.
pub fn step(alloc: Global, running: &mut Running, entry: &Entry) -> Result<bool, Memory>
    requires sound { IsSound (machine_of running.old) }
    requires counted { IsCounted running.old }
    ensures is { IfOk result (Steps (machine_of running.old) entry.now (machine_of running.new)) }
    ensures counted { OnOk result (IsCounted running.new) }
{
    match entry {
        Entry::Ingest { caller: _, batch } => ingest(alloc, running, batch),
        Entry::Open {
            caller,
            number,
            names,
        } => open(alloc, running, *caller, *number, names),
        Entry::Close { caller, number } => Ok(close(running, *caller, *number)),
        Entry::Publish {
            caller: _,
            added,
            replaced,
        } => publish(alloc, running, added, replaced),
        Entry::Stray { caller: _, names } => stray(alloc, running, names),
        Entry::Sweep { caller: _, name } => Ok(sweep(running, name)),
        Entry::Settled { caller: _, names } => settled(alloc, running, names),
        Entry::Work { caller: _ } => Ok(true),
    }
}
