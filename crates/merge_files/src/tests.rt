ghost use Rattle.merge_files.specs.Walks.{IsWalked};

use super::*;
use crate::input::have_file;
use agg_model::{Act, Batch, Change, Entity, FileKind, Range, StepRows};
use agg_outside::{Bytes, Memory};
use collate_step::{EntityFiles, Groups, Inputs, collate};
use elias_fano::EfList;
use file_numbers::u64_at;
use merge_ranges::is_aligned_range;
use std::alloc::Global;
use std::rt::Clock;
use std::sync::{Arc, Wait};
use std::test::Fail;
use std::thread::Threads;

const KINDS: [FileKind; 7] = [
    FileKind::Kv,
    FileKind::Bt,
    FileKind::Kvi,
    FileKind::V,
    FileKind::Vi,
    FileKind::Ef,
    FileKind::Efi,
];

/// How long the header of a word file is; the size and the numbers of the steps stand in it from 8 to 32.
const HEADER: usize = 40;

/// A change of the accounts: its key, its number and the value, which is 0 where the key is deleted.
type Row = (u8, u8, u8);

/// A key that is put twice, one that is put once, and a number without a change.
const PUTS: [Row; 3] = [(0xaa, 0, 1), (0xaa, 1, 2), (0xbb, 1, 3)];

/// Deletions of a key that never had a value, of one in the step after, and of one in the last step; nothing changes
/// at 4 and 5.
const DELETIONS: [Row; 9] = [
    (0xaa, 0, 0),
    (0xbb, 0, 1),
    (0xbb, 1, 0),
    (0xcc, 1, 2),
    (0xcc, 3, 0),
    (0xdd, 2, 3),
    (0xdd, 6, 0),
    (0xee, 2, 4),
    (0xee, 7, 5),
];

fn act_of(alloc: Global, value: u8) -> Result<Act, Memory> {
    if value == 0 {
        return Ok(Act::Del);
    }
    Ok(Act::Put(Bytes::of(alloc, &[value])?))
}

fn change_of(alloc: Global, row: Row) -> Result<Change, Memory> {
    let act = act_of(alloc, row.2)?;
    let key = Bytes::of(alloc, &[row.0])?;
    Ok(Change {
        tx: row.1 as u64,
        entity: Entity::Accounts,
        key,
        act,
    })
}

// The changes of a step.
fn changes_in(alloc: Global, rows: &[Row], step: u64, size: u64) -> Result<Batch, Memory> {
    let mut changes = Batch::new(alloc);
    for row in rows {
        if (row.1 as u64).checked_div(size) == Some(step) {
            changes.push(change_of(alloc, *row)?)?;
        }
    }
    Ok(changes)
}

// Adds the first group, which is that of the accounts.
fn add_first(alloc: Global, groups: &mut Inputs, mut all: Groups) -> Result<(), Memory> {
    if all.len() > 0 {
        groups.push(Arc::new(alloc, all.remove(0))?)?;
    }
    Ok(())
}

// Adds the group of the accounts over a step to those below it.
fn add_step<H: Threads + Wait + Clock + Sync>(
    rt: &H,
    alloc: Global,
    groups: &mut Inputs,
    step: u64,
    changes: Batch,
    size: u64,
) -> Result<(), Memory> {
    if step >= 4096 {
        return Err(Memory);
    }
    let rows = StepRows { step, changes };
    let all = collate(rt, alloc, &rows, groups.as_slice(), size)?;
    add_first(alloc, groups, all)
}

// The groups of the accounts over the first steps.
fn collated<H: Threads + Wait + Clock + Sync>(
    rt: &H,
    alloc: Global,
    rows: &[Row],
    size: u64,
    count: u64,
) -> Result<Inputs, Memory> {
    let mut groups = Inputs::new(alloc);
    for step in 0..count {
        let changes = changes_in(alloc, rows, step, size)?;
        add_step(rt, alloc, &mut groups, step, changes, size)?;
    }
    Ok(groups)
}

// Whether the bytes are a word file over these steps of size 1 with the words of the other.
fn has_words(bytes: &[u8], other: &[u8], range: Range) -> bool {
    if bytes.len() < HEADER || other.len() < HEADER {
        return false;
    }
    let steps = (u64_at(bytes, 8), u64_at(bytes, 16), u64_at(bytes, 24));
    bytes[..8] == other[..8] && steps == (1, range.from, range.to) && bytes[32..] == other[32..]
}

// Whether the bytes are those of the other's file of the kind, but for the steps in a header, which are of size 1.
fn is_file(kind: FileKind, bytes: &[u8], other: &[u8], range: Range) -> bool {
    match kind {
        FileKind::Kv | FileKind::V | FileKind::Ef => has_words(bytes, other, range),
        _ => bytes == other,
    }
}

// Whether each file of the group over steps of size 1 has the bytes of the other's.
fn is_group(group: &EntityFiles, other: &EntityFiles, range: Range) -> bool {
    for kind in KINDS {
        let (Some(bytes), Some(others)) = (group.bytes_of(kind), other.bytes_of(kind)) else {
            return false;
        };
        if !is_file(kind, bytes, others, range) {
            return false;
        }
    }
    true
}

// The merged group.
fn merged(
    alloc: Global,
    groups: &[Arc<EntityFiles>],
    range: Range,
) -> Result<EntityFiles, MergeError> {
    if !is_aligned_range(range) {
        return Err(MergeError::Memory);
    }
    merge(alloc, groups, range)
}

// Whether the groups from the range's first step on, merged, are the last of the others.
fn become_last(
    alloc: Global,
    groups: &[Arc<EntityFiles>],
    others: &[Arc<EntityFiles>],
    range: Range,
) -> Result<bool, MergeError> {
    let (Some(parts), Some(other)) = (groups.get(range.from as usize..), others.last()) else {
        return Ok(false);
    };
    let group = merged(alloc, parts, range)?;
    Ok(is_group(&group, other, range))
}

// Whether the groups, merged, are what is collated where a step is as long as the range.
fn become_step<H: Threads + Wait + Clock + Sync>(
    rt: &H,
    alloc: Global,
    rows: &[Row],
    groups: &[Arc<EntityFiles>],
    range: Range,
) -> Result<bool, MergeError> {
    let size = range.to.saturating_sub(range.from);
    let count = range.to.checked_div(size).unwrap_or(0);
    let others = collated(rt, alloc, rows, size, count)?;
    become_last(alloc, groups, others.as_slice(), range)
}

// Whether the groups of the range's steps are that.
fn become_one<H: Threads + Wait + Clock + Sync>(
    rt: &H,
    alloc: Global,
    rows: &[Row],
    range: Range,
) -> Result<bool, MergeError> {
    let groups = collated(rt, alloc, rows, 1, range.to)?;
    become_step(rt, alloc, rows, groups.as_slice(), range)
}

#[test]
fn two_groups_become_their_collation_as_one_range(rt: HostRuntime) -> Result<(), Fail> {
    let is_one = become_one(&rt, rt.alloc(), &PUTS, Range { from: 0, to: 2 })?;
    assert!(rt; is_one);
    Ok(())
}

#[test]
fn deletions_and_steps_without_changes_are_as_in_one_collation(
    rt: HostRuntime,
) -> Result<(), Fail> {
    for range in [Range { from: 0, to: 8 }, Range { from: 4, to: 8 }] {
        let is_one = become_one(&rt, rt.alloc(), &DELETIONS, range)?;
        assert!(rt; is_one);
    }
    Ok(())
}

// The changes of a key at every seventh number below 64, of which every fifth number deletes.
fn add_key(rows: &mut Vec<Row>, key: u8) -> Result<(), Memory> {
    for number in 0..64u8 {
        if number % 7 == key {
            rows.push((key, number, number % 5))?;
        }
    }
    Ok(())
}

// A change of one of seven keys at each number below 64.
fn many_rows(alloc: Global) -> Result<Vec<Row>, Memory> {
    let mut rows = Vec::new(alloc);
    for key in 0..7u8 {
        add_key(&mut rows, key)?;
    }
    Ok(rows)
}

fn sixty_four_become_one<H: Threads + Wait + Clock + Sync>(
    rt: &H,
    alloc: Global,
) -> Result<bool, MergeError> {
    let rows = many_rows(alloc)?;
    become_one(rt, alloc, rows.as_slice(), Range { from: 0, to: 64 })
}

#[test]
fn sixty_four_groups_become_their_collation_as_one_range(rt: HostRuntime) -> Result<(), Fail> {
    let is_one = sixty_four_become_one(&rt, rt.alloc())?;
    assert!(rt; is_one);
    Ok(())
}

/// A walk over the files of the groups, which are there.
fn walk_over(
    alloc: Global,
    groups: &[Arc<EntityFiles>],
    kind: FileKind,
) -> Result<MergeWalk<'_>, Memory>
    requires { IsWalked kind }
{
    if !have_file(groups, kind) {
        return Err(Memory);
    }
    MergeWalk::of(alloc, groups, kind)
}

// Whether the next item has this key, this newest value and so many lists.
fn gives(walk: &mut MergeWalk<'_>, key: u8, value: u8, lists: usize) -> bool {
    let Some(item) = walk.next() else {
        return false;
    };
    item.key() == [key].as_slice() && item.newest() == [value].as_slice() && item.lists() == lists
}

// Whether the walk gives the two keys of `PUTS`, and then nothing.
fn gives_puts(walk: &mut MergeWalk<'_>) -> bool {
    gives(walk, 0xaa, 2, 2) && gives(walk, 0xbb, 3, 1) && walk.next().is_none()
}

// Whether the next item has two lists, of these first numbers.
fn gives_lists(walk: &mut MergeWalk<'_>, one: u64, other: u64) -> bool {
    let Some(item) = walk.next() else {
        return false;
    };
    match item.kind {
        FileKind::Ef => {
            item.lists() == 2
                && starts_with(&item.list(0), one)
                && starts_with(&item.list(1), other)
        }
        _ => false,
    }
}

fn starts_with(list: &EfList<'_>, number: u64) -> bool {
    list.len() > 0 && list.get(0) == number
}

// Whether walks over the values and over the lists of two groups give what is in them.
fn are_walked<H: Threads + Wait + Clock + Sync>(rt: &H, alloc: Global) -> Result<bool, Memory> {
    let groups = collated(rt, alloc, &PUTS, 1, 2)?;
    let mut values = walk_over(alloc, groups.as_slice(), FileKind::Kv)?;
    let mut lists = walk_over(alloc, groups.as_slice(), FileKind::Ef)?;
    Ok(gives_puts(&mut values) && gives_lists(&mut lists, 0, 1))
}

#[test]
fn a_walk_gives_each_key_once_with_its_newest_value_and_all_lists(
    rt: HostRuntime,
) -> Result<(), Fail> {
    let are_walked = are_walked(&rt, rt.alloc())?;
    assert!(rt; are_walked);
    Ok(())
}

#[test]
fn a_walk_over_no_input_has_nothing_to_give(rt: HostRuntime) -> Result<(), Fail> {
    let mut walk = walk_over(rt.alloc(), &[], FileKind::V)?;
    assert!(rt; walk.next().is_none());
    Ok(())
}

// Whether the first and the third group aren't adjacent at the place of the third.
fn has_gap<H: Threads + Wait + Clock + Sync>(rt: &H, alloc: Global) -> Result<bool, Memory> {
    let mut groups = collated(rt, alloc, &DELETIONS, 1, 3)?;
    if groups.len() > 1 {
        let _second = groups.remove(1);
    }
    let group = merged(alloc, groups.as_slice(), Range { from: 0, to: 2 });
    Ok(group.err() == Some(MergeError::NotAdjacent(1)))
}

#[test]
fn a_gap_is_found_where_it_is(rt: HostRuntime) -> Result<(), Fail> {
    let has_gap = has_gap(&rt, rt.alloc())?;
    assert!(rt; has_gap);
    Ok(())
}
