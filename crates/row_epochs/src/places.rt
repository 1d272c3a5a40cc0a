//! Places among rows, and what one row tells.
ghost use Rattle.std.specs.Prelude.{◌≡◌, IfOk};
ghost use Rattle.agg_outside.specs.Rows.{is_before};
ghost use Rattle.row_epochs.specs.Seen.{is_seen};
ghost use Rattle.row_epochs.specs.Changes.{entity_of, act_of, change_of};
ghost use Rattle.row_epochs.specs.Places.{behind, place_at, first_place, next_piece};

use agg_model::{Act, Change, Entity};
use agg_outside::{Bytes, Memory, Row, RowId, Rowlist};
use std::alloc::Global;

/// Whether the id comes before the other.
pub fn is_before(id: &RowId, other: &RowId) -> bool
    ensures { result ≡ is_before id.now other.now }
{
    id.cmp(other).is_lt()
}

/// Whether an epoch sees the row.
#[tactic(auto, unfolding(crate::specs::Seen::is_seen))]
pub fn is_seen(epoch: u64, row: &Row) -> bool
    ensures { result ≡ is_seen epoch row.now }
{
    row.id.born <= epoch && (row.killed == 0 || epoch < row.killed)
}

/// The first id behind this one. A row born at the last number comes only of a keeper that doesn't tell
/// its rows, and is answered as want of memory.
pub fn behind(alloc: Global, id: &RowId) -> Result<RowId, Memory>
    ensures { IfOk result (λ next. next ≡ behind id.now) }
{
    if id.born == u64::MAX {
        return Err(Memory);
    }
    Ok(RowId {
        entity: id.entity,
        key: id.key.copy(alloc)?,
        tx: id.tx,
        born: id.born + 1,
    })
}

/// Before all rows of the key from this number on.
pub fn place_at(alloc: Global, entity: Entity, key: &[u8], tx: u64) -> Result<RowId, Memory>
    ensures { IfOk result (λ place. place ≡ place_at entity key.now tx) }
{
    Ok(RowId {
        entity: entity.number(),
        key: Bytes::of(alloc, key)?,
        tx,
        born: 0,
    })
}

/// Before all rows.
pub fn first_place(alloc: Global) -> Result<RowId, Memory>
    ensures { IfOk result (λ place. place ≡ first_place) }
{
    Ok(RowId {
        entity: 0,
        key: Bytes::of(alloc, &[])?,
        tx: 0,
        born: 0,
    })
}

/// Where to go on after the piece: behind its last row, or nowhere where it has fewer than `size` rows.
pub fn next_piece(alloc: Global, piece: &Rowlist, size: usize) -> Result<Option<RowId>, Memory>
    ensures { IfOk result (λ next. next ≡ next_piece size piece.now) }
{
    let rows = piece.as_slice();
    if rows.len() < size {
        return Ok(None);
    }
    match rows.last() {
        None => Ok(None),
        Some(last) => Ok(Some(behind(alloc, &last.id)?)),
    }
}

// Numbers that no entity and no act has come only of a keeper that doesn't tell its rows, and are
// answered as want of memory.
fn entity_in(number: u8) -> Result<Entity, Memory>
    ensures { IfOk result (λ entity. entity ≡ entity_of number) }
{
    let Some(entity) = Entity::of_number(number) else {
        return Err(Memory);
    };
    Ok(entity)
}

fn act_in(number: u8, value: Bytes) -> Result<Act, Memory>
    ensures { IfOk result (λ act. act ≡ act_of number value) }
{
    let Some(act) = Act::of_number(number, value) else {
        return Err(Memory);
    };
    Ok(act)
}

/// The change that the row holds.
#[tactic(auto, unfolding(crate::specs::Changes::change_of))]
pub fn change_of(row: Row) -> Result<Change, Memory>
    ensures { IfOk result (λ change. change ≡ change_of row) }
{
    let Row { id, act, value, .. } = row;
    let entity = entity_in(id.entity)?;
    let act = act_in(act, value)?;
    Ok(Change {
        tx: id.tx,
        entity,
        key: id.key,
        act,
    })
}
