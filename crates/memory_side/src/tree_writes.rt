//! Writes to rows in a tree.
ghost use Rattle.std.specs.Prelude.{◌≡◌, Some, IsSome, IsTrue, OnOk, OnErr};
ghost use Rattle.std.specs.List.{list_all};
ghost use Rattle.std.specs.Map.{lookup, set_value};
ghost use Rattle.std.specs.BTreeMap.{is_at};
ghost use Rattle.agg_outside.specs.Rows.{id_cmp, ascends, Held, written, CanWrite, applied, CanApply};
ghost use Rattle.memory_side.specs.RowTree.{rows_of, spares, slots_ascend};
ghost use Rattle.memory_side.specs.declared.row_body.RowBody.{RowBody};

use crate::row_tree::{RowTree, all_rows, slots_in_order, tree_of};
use crate::row_writes;
use crate::tree_adds::{add_all, only_add};
use agg_outside::{Memory, RowId, RowWrite};
use std::alloc::Global;

// Whether the writes add no row.
fn add_none(writes: &[RowWrite]) -> bool
    ensures { result ≡ list_all spares writes.now }
{
    writes.iter().all(|write| spares_rows(write))
}

fn spares_rows(write: &RowWrite) -> bool
    ensures { result ≡ spares write.now }
{
    match write {
        RowWrite::Insert(_) => false,
        RowWrite::Kill(_, _) | RowWrite::Remove(_) | RowWrite::Floor(_) => true,
    }
}

fn kill(rows: &mut RowTree, id: &RowId, epoch: u64)
    requires { IsSome (lookup (is_at (id_cmp id.now)) rows.old.entries) }
    ensures entries { (body : RowBody) → lookup (is_at (id_cmp id.now)) rows.old.entries ≡ Some body
        → rows.new.entries ≡ set_value (is_at (id_cmp id.now)) rows.old.entries (record body { killed = epoch }) }
    ensures ascend { IsTrue (slots_ascend rows.old.entries) }
{
    let Some(body) = rows.get_mut(id) else {
        unreachable!()
    };
    body.killed = epoch;
}

// Makes one write that adds no row. It takes no memory.
fn change(rows: &mut RowTree, floor: &mut u64, write: &RowWrite)
    requires spares { IsTrue (spares write.now) }
    requires can { CanWrite write.now (record { rows = rows_of rows.old.entries; floor = floor.old }) }
    ensures rows { rows_of rows.new.entries ≡ (written write.now (record { rows = rows_of rows.old.entries; floor = floor.old })).rows }
    ensures floor { floor.new ≡ (written write.now (record { rows = rows_of rows.old.entries; floor = floor.old })).floor }
{
    match write {
        RowWrite::Kill(id, epoch) => kill(rows, id, *epoch),
        RowWrite::Remove(id) => {
            slots_in_order(rows);
            let _body = rows.remove(id);
        }
        RowWrite::Floor(step) => *floor = *step,
        RowWrite::Insert(_) => unreachable!(),
    }
}

// Makes writes that add no row, in order.
fn change_all(rows: &mut RowTree, floor: &mut u64, writes: &[RowWrite])
    requires spares { IsTrue (list_all spares writes.now) }
    requires can { CanApply writes.now (record { rows = rows_of rows.old.entries; floor = floor.old }) }
    ensures rows { rows_of rows.new.entries ≡ (applied writes.now (record { rows = rows_of rows.old.entries; floor = floor.old })).rows }
    ensures floor { floor.new ≡ (applied writes.now (record { rows = rows_of rows.old.entries; floor = floor.old })).floor }
{
    for write in writes {
        change(rows, floor, write);
    }
}

// Makes writes of both kinds on a copy of all rows, which then takes the tree's place.
fn apply_to_copy(
    alloc: Global,
    rows: &mut RowTree,
    floor: &mut u64,
    writes: &[RowWrite],
) -> Result<(), Memory>
    requires in_order { IsTrue (ascends (rows_of rows.old.entries)) }
    requires can { CanApply writes.now (record { rows = rows_of rows.old.entries; floor = floor.old }) }
    ensures rows { OnOk result (rows_of rows.new.entries ≡ (applied writes.now (record { rows = rows_of rows.old.entries; floor = floor.old })).rows) }
    ensures floor { OnOk result (floor.new ≡ (applied writes.now (record { rows = rows_of rows.old.entries; floor = floor.old })).floor) }
    ensures err { OnErr result ((rows_of rows.new.entries ≡ rows_of rows.old.entries) × (floor.new ≡ floor.old)) }
{
    let mut copies = all_rows(alloc, rows)?;
    let mut step = *floor;
    row_writes::apply_all(alloc, &mut copies, &mut step, writes)?;
    let tree = tree_of(alloc, copies.as_slice())?;
    *rows = tree;
    *floor = step;
    Ok(())
}

/// Makes all writes in order, or none. A batch mostly adds alone, or takes away alone: its rows are then
/// looked for once each, and no others are read.
pub fn apply_all(
    alloc: Global,
    rows: &mut RowTree,
    floor: &mut u64,
    writes: &[RowWrite],
) -> Result<(), Memory>
    requires in_order { IsTrue (ascends (rows_of rows.old.entries)) }
    requires can { CanApply writes.now (record { rows = rows_of rows.old.entries; floor = floor.old }) }
    ensures rows { OnOk result (rows_of rows.new.entries ≡ (applied writes.now (record { rows = rows_of rows.old.entries; floor = floor.old })).rows) }
    ensures floor { OnOk result (floor.new ≡ (applied writes.now (record { rows = rows_of rows.old.entries; floor = floor.old })).floor) }
    ensures err { OnErr result ((rows_of rows.new.entries ≡ rows_of rows.old.entries) × (floor.new ≡ floor.old)) }
    ensures in_order { IsTrue (ascends (rows_of rows.new.entries)) }
{
    if only_add(writes) {
        return add_all(alloc, rows, floor, writes);
    }
    if add_none(writes) {
        change_all(rows, floor, writes);
        return Ok(());
    }
    apply_to_copy(alloc, rows, floor, writes)
}
