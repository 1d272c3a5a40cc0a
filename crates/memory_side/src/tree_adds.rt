//! Writes that only add rows, or set the floor, made in the tree one by one: each row is looked for once.
ghost use Rattle.std.specs.Prelude.{◌≡◌, ◌≤◌, IsTrue, OnOk, OnErr, length, take};
ghost use Rattle.std.specs.List.{list_all};
ghost use Rattle.agg_outside.specs.Rows.{ascends, Held, written, CanWrite, applied, CanApply};
ghost use Rattle.memory_side.specs.RowTree.{rows_of, adds};

use crate::row_tree::{RowTree, put_row, slots_in_order};
use agg_outside::{Memory, RowWrite};
use std::alloc::Global;

/// Whether the writes only add rows and set the floor.
pub fn only_add(writes: &[RowWrite]) -> bool
    ensures { result ≡ list_all adds writes.now }
{
    writes.iter().all(|write| is_addition(write))
}

fn is_addition(write: &RowWrite) -> bool
    ensures { result ≡ adds write.now }
{
    match write {
        RowWrite::Insert(_) | RowWrite::Floor(_) => true,
        RowWrite::Kill(_, _) | RowWrite::Remove(_) => false,
    }
}

// Makes one addition, or after want of memory none.
fn add(alloc: Global, rows: &mut RowTree, floor: &mut u64, write: &RowWrite) -> Result<(), Memory>
    requires adds { IsTrue (adds write.now) }
    requires can { CanWrite write.now (record { rows = rows_of rows.old.entries; floor = floor.old }) }
    ensures rows { OnOk result (rows_of rows.new.entries ≡ (written write.now (record { rows = rows_of rows.old.entries; floor = floor.old })).rows) }
    ensures floor { OnOk result (floor.new ≡ (written write.now (record { rows = rows_of rows.old.entries; floor = floor.old })).floor) }
    ensures err { OnErr result (rows_of rows.new.entries ≡ rows_of rows.old.entries) }
{
    match write {
        RowWrite::Insert(row) => put_row(alloc, rows, row),
        RowWrite::Floor(step) => {
            *floor = *step;
            Ok(())
        }
        RowWrite::Kill(_, _) | RowWrite::Remove(_) => unreachable!(),
    }
}

// Takes the row of an addition back.
fn take_back(rows: &mut RowTree, write: &RowWrite)
    ensures { (held : Held) → IsTrue (adds write.now) → CanWrite write.now held
        → rows_of rows.old.entries ≡ (written write.now held).rows → rows_of rows.new.entries ≡ held.rows }
{
    if let RowWrite::Insert(row) = write {
        slots_in_order(rows);
        let _body = rows.remove(&row.id);
    }
}

// Takes the rows of additions back, the last one first.
fn take_all_back(rows: &mut RowTree, writes: &[RowWrite])
    ensures { (held : Held) → IsTrue (list_all adds writes.now) → CanApply writes.now held
        → rows_of rows.old.entries ≡ (applied writes.now held).rows → rows_of rows.new.entries ≡ held.rows }
{
    let mut left = writes.len();
    while left > 0 {
        left -= 1;
        take_back(rows, &writes[left]);
    }
}

fn first_writes(writes: &[RowWrite], count: usize) -> &[RowWrite]
    requires { count ≤ length writes.now }
    ensures { result.now ≡ take count writes.now }
{
    &writes[..count]
}

/// Makes all additions in order, or none of them: where memory is wanting, those made are taken back.
pub fn add_all(
    alloc: Global,
    rows: &mut RowTree,
    floor: &mut u64,
    writes: &[RowWrite],
) -> Result<(), Memory>
    requires adds { IsTrue (list_all adds writes.now) }
    requires can { CanApply writes.now (record { rows = rows_of rows.old.entries; floor = floor.old }) }
    ensures rows { OnOk result (rows_of rows.new.entries ≡ (applied writes.now (record { rows = rows_of rows.old.entries; floor = floor.old })).rows) }
    ensures floor { OnOk result (floor.new ≡ (applied writes.now (record { rows = rows_of rows.old.entries; floor = floor.old })).floor) }
    ensures err { OnErr result ((rows_of rows.new.entries ≡ rows_of rows.old.entries) × (floor.new ≡ floor.old)) }
{
    let before = *floor;
    for (i, write) in writes.iter().enumerate() {
        if add(alloc, rows, floor, write).is_err() {
            let made = first_writes(writes, i);
            take_all_back(rows, made);
            *floor = before;
            return Err(Memory);
        }
    }
    Ok(())
}
