//! The numbers of a key, file by file from the side that they begin at.
ghost use Rattle.std.specs.Prelude.{◌≡◌, ◌++◌, ◌<◌, ◌≤◌, ◌==◌, ℕ, List, [], length, map, take, reverse, unwrap_or, IfOk, OnOk, IfSome, IsTrue, false};
ghost use Rattle.std.specs.Arc.{arc_value};
ghost use Rattle.std.specs.List.{filter};
ghost use Rattle.agg_outside.specs.Counts.{HasCause};
ghost use Rattle.agg_model.specs.Entity.{entity_number};
ghost use Rattle.inverted_index.specs.EfFile.{numbers_of};
ghost use Rattle.window_laws.specs.Parts.{is_between};
ghost use Rattle.window_reads.specs.Folds.{numbers_in_group, numbers_in_groups, all_numbers, turned};

use crate::lists::{take_down, take_up};
use crate::looks::is_of;
use crate::window::Window;
use agg_model::{Entity, Range};
use agg_outside::{Memory, Numbers, Steps};
use collate_step::EntityFiles;
use elias_fano::EfList;
use hot_keeper::ReadError;
use std::alloc::Global;
use std::marker::Brand;
use std::sync::Arc;
use std::sync::ledger::{Blank, Ledger};

// The numbers of a key in a group; no number is read.
fn list_uncounted<'a, L: Ledger>(
    group: &'a EntityFiles,
    key: &[u8],
    blank: Blank,
) -> Option<EfList<'a>>
    requires name { blank.name ≡ L.name }
    requires parts { blank.parts ≡ L.parts }
    requires some { 0 < L.parts }
    ensures { result ≡ numbers_of group.now.ef.lists key.now }
{
    let mut steps = Steps::<L>::of(blank);
    group.ef().list(key, &mut steps)
}

// Whether no change of the group has a number in the window: its steps end before it or begin behind it.
fn is_outside(group: &EntityFiles, numbers: Range) -> bool
    ensures { (k : List ℕ) → IsTrue result →
        filter (is_between numbers.from numbers.to) (unwrap_or (numbers_of group.now.ef.lists k) []) ≡ [] }
{
    let ef = group.ef();
    // That the numbers are those of the steps is a clause of this call.
    let _held = ef.words();
    let tag = ef.tag();
    let first = u128::from(tag.from) * u128::from(tag.step);
    let end = u128::from(tag.to) * u128::from(tag.step);
    end <= u128::from(numbers.from) || u128::from(numbers.to) <= first
}

// Whether the group is one of the entity, and can have numbers in the window.
fn is_within(group: &EntityFiles, entity: Entity, numbers: Range) -> bool
    ensures own { IsTrue result → IsTrue (entity_number group.now.entity == entity_number entity) }
    ensures none { (k : List ℕ) → result ≡ false →
        numbers_in_group entity k numbers.from numbers.to group.now ≡ [] }
{
    is_of(group, entity) && !is_outside(group, numbers)
}

// The numbers of a key in a group that are in the window, ascending, as long as there is room.
fn add_up(
    group: &EntityFiles,
    entity: Entity,
    key: &[u8],
    numbers: Range,
    room: usize,
    out: &mut Numbers,
) -> Result<(), Memory>
    requires { length out.old ≤ room }
    ensures { OnOk result (out.new
        ≡ take room (out.old ++ numbers_in_group entity key.now numbers.from numbers.to group.now)) }
{
    if !is_within(group, entity, numbers) {
        return Ok(());
    }
    match list_uncounted::<Brand>(group, key, Blank::new(1)) {
        Some(list) => take_up(&list, numbers.from, numbers.to, room, out),
        None => Ok(()),
    }
}

// The same from the last one down.
fn add_down(
    group: &EntityFiles,
    entity: Entity,
    key: &[u8],
    numbers: Range,
    room: usize,
    out: &mut Numbers,
) -> Result<(), Memory>
    requires { length out.old ≤ room }
    ensures { OnOk result (out.new
        ≡ take room (out.old ++ reverse (numbers_in_group entity key.now numbers.from numbers.to group.now))) }
{
    if !is_within(group, entity, numbers) {
        return Ok(());
    }
    match list_uncounted::<Brand>(group, key, Blank::new(1)) {
        Some(list) => take_down(&list, numbers.from, numbers.to, room, out),
        None => Ok(()),
    }
}

// The numbers of a key in the files that are in the window, ascending, as long as there is room.
fn files_up(
    alloc: Global,
    files: &[Arc<EntityFiles>],
    entity: Entity,
    key: &[u8],
    numbers: Range,
    room: usize,
) -> Result<Numbers, Memory>
    ensures { IfOk result (λ out. out
        ≡ take room (numbers_in_groups entity key.now numbers.from numbers.to (map (λ g. arc_value g) files.now))) }
{
    let mut out = Numbers::new(alloc);
    for i in 0..files.len() {
        if out.len() >= room {
            return Ok(out);
        }
        add_up(&files[i], entity, key, numbers, room, &mut out)?;
    }
    Ok(out)
}

// Behind these numbers those of the files, from the last one down.
fn files_down(
    files: &[Arc<EntityFiles>],
    entity: Entity,
    key: &[u8],
    numbers: Range,
    room: usize,
    out: &mut Numbers,
) -> Result<(), Memory>
    requires { length out.old ≤ room }
    ensures { OnOk result (out.new ≡ take room (out.old
        ++ reverse (numbers_in_groups entity key.now numbers.from numbers.to (map (λ g. arc_value g) files.now)))) }
{
    let mut left = files.len();
    while left > 0 {
        if out.len() >= room {
            return Ok(());
        }
        left -= 1;
        add_down(&files[left], entity, key, numbers, room, out)?;
    }
    Ok(())
}

// Adds the numbers at the end.
fn append(out: &mut Numbers, more: Numbers) -> Result<(), Memory>
    ensures { OnOk result (out.new ≡ out.old ++ more) }
{
    for number in more.into_vec() {
        out.push(number)?;
    }
    Ok(())
}

/// The first `room` numbers of a key that are in the window of numbers, ascending: file by file, and then behind them.
pub(crate) fn numbers_up<W: Window>(
    alloc: Global,
    files: &[Arc<EntityFiles>],
    window: &mut W,
    entity: Entity,
    key: &[u8],
    numbers: Range,
    room: usize,
) -> Result<Numbers, ReadError>
    ensures numbers { IfSome (W.changes window.old) (λ cs. IfOk result (λ out. out
        ≡ take room (all_numbers entity (map (λ g. arc_value g) files.now) cs key.now numbers.from numbers.to))) }
    ensures short { IfOk result (λ out. length out ≤ room) }
    ensures later { W.later window.old window.new }
    ensures cause { HasCause ReadError.Keeper (W.faults window.old) (W.faults window.new) result }
{
    let mut out = files_up(alloc, files, entity, key, numbers, room).map_err(
        |_| ReadError::Memory,
    )?;
    if out.len() >= room {
        return Ok(out);
    }
    let left = room - out.len();
    let more = window.times(alloc, entity, key, numbers.from, numbers.to, false, left)?;
    if more.len() > left {
        // Over a window that tells its changes there are never more.
        return Err(ReadError::Memory);
    }
    append(&mut out, more).map_err(|_| ReadError::Memory)?;
    Ok(out)
}

/// The same from the last number down: behind the files, and then file by file.
pub(crate) fn numbers_down<W: Window>(
    alloc: Global,
    files: &[Arc<EntityFiles>],
    window: &mut W,
    entity: Entity,
    key: &[u8],
    numbers: Range,
    room: usize,
) -> Result<Numbers, ReadError>
    ensures numbers { IfSome (W.changes window.old) (λ cs. IfOk result (λ out. out
        ≡ take room (reverse (all_numbers entity (map (λ g. arc_value g) files.now) cs key.now
        numbers.from numbers.to)))) }
    ensures short { IfOk result (λ out. length out ≤ room) }
    ensures later { W.later window.old window.new }
    ensures cause { HasCause ReadError.Keeper (W.faults window.old) (W.faults window.new) result }
{
    let mut out = window.times(alloc, entity, key, numbers.from, numbers.to, true, room)?;
    if out.len() > room {
        // Over a window that tells its changes there are never more.
        return Err(ReadError::Memory);
    }
    files_down(files, entity, key, numbers, room, &mut out).map_err(|_| ReadError::Memory)?;
    Ok(out)
}

/// The first `room` numbers of a key that are in the window of numbers, from the last one down where `back`.
pub(crate) fn numbers_found<W: Window>(
    alloc: Global,
    files: &[Arc<EntityFiles>],
    window: &mut W,
    entity: Entity,
    key: &[u8],
    numbers: Range,
    back: bool,
    room: usize,
) -> Result<Numbers, ReadError>
    ensures numbers { IfSome (W.changes window.old) (λ cs. IfOk result (λ out. out
        ≡ take room (turned back (all_numbers entity (map (λ g. arc_value g) files.now) cs key.now
        numbers.from numbers.to)))) }
    ensures short { IfOk result (λ out. length out ≤ room) }
    ensures later { W.later window.old window.new }
    ensures cause { HasCause ReadError.Keeper (W.faults window.old) (W.faults window.new) result }
{
    if back {
        return numbers_down(alloc, files, window, entity, key, numbers, room);
    }
    numbers_up(alloc, files, window, entity, key, numbers, room)
}
