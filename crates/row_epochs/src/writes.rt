//! Changes and rows as writes of a keeper.
ghost use Rattle.std.specs.Prelude.{◌≡◌, map, length, IfOk};
ghost use Rattle.agg_outside.specs.declared.rows.RowWrite.TheVariants.{Remove};
ghost use Rattle.row_epochs.specs.Changes.{row_born, writes_of, kills_of};

use agg_model::{Batch, Change};
use agg_outside::{Bytes, Memory, Row, RowId, RowWrite};
use std::alloc::Global;

// The row of a change, alive and born at this epoch.
#[tactic(auto, unfolding(crate::specs::Changes::row_born))]
fn row_born(alloc: Global, epoch: u64, change: &Change) -> Result<Row, Memory>
    ensures { IfOk result (λ row. row ≡ row_born epoch change.now) }
{
    Ok(Row {
        id: RowId {
            entity: change.entity.number(),
            key: change.key.copy(alloc)?,
            tx: change.tx,
            born: epoch,
        },
        killed: 0,
        act: change.act.number(),
        value: Bytes::of(alloc, change.act.value())?,
    })
}

/// One row to insert for each change, born at this epoch.
pub fn inserts_of(alloc: Global, epoch: u64, changes: &Batch) -> Result<Vec<RowWrite>, Memory>
    ensures { IfOk result (λ writes. writes.items ≡ writes_of epoch changes.now) }
{
    let mut writes = Vec::new(alloc);
    for change in changes.as_slice() {
        writes.push(RowWrite::Insert(row_born(alloc, epoch, change)?))?;
    }
    Ok(writes)
}

/// A kill at this epoch for each id, and the floor.
pub fn kills_of(
    alloc: Global,
    epoch: u64,
    floor: u64,
    ids: &[RowId],
) -> Result<Vec<RowWrite>, Memory>
    ensures { IfOk result (λ writes. writes.items ≡ kills_of epoch floor ids.now) }
{
    let mut writes = Vec::new(alloc);
    for id in ids {
        writes.push(RowWrite::Kill(id.copy(alloc)?, epoch))?;
    }
    writes.push(RowWrite::Floor(floor))?;
    Ok(writes)
}

/// A removal for each id.
pub fn removals_of(alloc: Global, ids: Vec<RowId>) -> Result<Vec<RowWrite>, Memory>
    ensures { IfOk result (λ writes. writes.items ≡ map (λ id. Remove id) ids.items) }
{
    let mut writes = Vec::new(alloc);
    for id in ids {
        writes.push(RowWrite::Remove(id))?;
    }
    Ok(writes)
}
