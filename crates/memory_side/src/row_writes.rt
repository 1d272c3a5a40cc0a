//! Writes to rows in order.
ghost use Rattle.std.specs.Prelude.{◌≡◌, ◌<◌, ◌≤◌, ◌+◌, IsTrue, IfOk, OnErr, OnOk, length, vec_len, vec_capacity};
ghost use Rattle.agg_outside.specs.Rows.{Held, ascends, written, CanWrite, applied, CanApply};

use crate::row_places::place_of;
use agg_outside::{Memory, Row, RowWrite, Rowlist};
use std::alloc::Global;
use std::mem;

/// The writes, copied.
pub fn copy_writes(alloc: Global, writes: &[RowWrite]) -> Result<Vec<RowWrite>, Memory>
    ensures { IfOk result (λ copies. copies.items ≡ writes.now) }
{
    let mut copies = Vec::new(alloc);
    for write in writes {
        copies.push(write.copy(alloc)?)?;
    }
    Ok(copies)
}

// Makes one write; there is room for a row.
fn make_write(rows: &mut Vec<Row>, floor: &mut u64, write: RowWrite)
    requires in_order { IsTrue (ascends rows.old.items) }
    requires can { CanWrite write (record { rows = rows.old.items; floor = floor.old }) }
    requires room { vec_len rows.old < vec_capacity rows.old }
    ensures rows { rows.new.items ≡ (written write (record { rows = rows.old.items; floor = floor.old })).rows }
    ensures floor { floor.new ≡ (written write (record { rows = rows.old.items; floor = floor.old })).floor }
    ensures len { vec_len rows.new ≤ vec_len rows.old + 1 }
    ensures capacity { vec_capacity rows.old ≤ vec_capacity rows.new }
{
    match write {
        RowWrite::Insert(row) => {
            let place = place_of(rows, &row.id);
            let Ok(()) = rows.insert(place, row) else {
                unreachable!()
            };
        }
        RowWrite::Kill(id, epoch) => {
            let place = place_of(rows, &id);
            rows[place].killed = epoch;
        }
        RowWrite::Remove(id) => {
            let place = place_of(rows, &id);
            let _row = rows.remove(place);
        }
        RowWrite::Floor(step) => *floor = step,
    }
}

// Makes the writes in order; there is room for a row of each.
fn make_writes(rows: &mut Vec<Row>, floor: &mut u64, writes: Vec<RowWrite>)
    requires in_order { IsTrue (ascends rows.old.items) }
    requires can { CanApply writes.items (record { rows = rows.old.items; floor = floor.old }) }
    requires room { vec_len rows.old + length writes.items ≤ vec_capacity rows.old }
    ensures rows { rows.new.items ≡ (applied writes.items (record { rows = rows.old.items; floor = floor.old })).rows }
    ensures floor { floor.new ≡ (applied writes.items (record { rows = rows.old.items; floor = floor.old })).floor }
    ensures in_order { IsTrue (ascends rows.new.items) }
{
    for write in writes {
        make_write(rows, floor, write);
    }
}

/// Makes all writes in order, or none: what can fail comes first.
pub fn apply_all(
    alloc: Global,
    rows: &mut Rowlist,
    floor: &mut u64,
    writes: &[RowWrite],
) -> Result<(), Memory>
    requires in_order { IsTrue (ascends rows.old) }
    requires can { CanApply writes.now (record { rows = rows.old; floor = floor.old }) }
    ensures rows { OnOk result (rows.new ≡ (applied writes.now (record { rows = rows.old; floor = floor.old })).rows) }
    ensures floor { OnOk result (floor.new ≡ (applied writes.now (record { rows = rows.old; floor = floor.old })).floor) }
    ensures err { OnErr result ((rows.new ≡ rows.old) × (floor.new ≡ floor.old)) }
    ensures in_order { IsTrue (ascends rows.new) }
{
    let copies = copy_writes(alloc, writes)?;
    let mut items = mem::replace(rows, Rowlist::new(alloc)).into_vec();
    if items.reserve(copies.len()).is_err() {
        *rows = Rowlist::from_vec(items);
        return Err(Memory);
    }
    make_writes(&mut items, floor, copies);
    *rows = Rowlist::from_vec(items);
    Ok(())
}
