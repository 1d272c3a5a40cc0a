//! Reads of a keeper's rows, as an epoch sees them.
ghost use Rattle.std.specs.Prelude.{◌≡◌, ℕ, ◌+◌, ◌++◌, ◌≤◌, ◌<◌, [], ◌∷◌, map, length, take, Some, None, IfSome, IfOk, OnOk, OnErr, IsTrue};
ghost use Rattle.std.specs.Option.{ForSome};
ghost use Rattle.agg_outside.specs.Counts.{HasCause};
ghost use Rattle.agg_outside.specs.Rows.{ascends, rows_from, last_before, is_before};
ghost use Rattle.agg_model.specs.Pairs.{hot_change};
ghost use Rattle.row_epochs.specs.Errors.{IsUnworn};
ghost use Rattle.row_epochs.specs.Seen.{is_seen, seen};
ghost use Rattle.row_epochs.specs.Changes.{act_of, changes_seen, change_of};
ghost use Rattle.row_epochs.specs.Versions.{AreVersions};
ghost use Rattle.row_epochs.specs.Places.{behind, place_at, next_piece};

use crate::error::RowsError;
use crate::places::{change_of, is_before, is_seen, next_piece, place_at};
use agg_model::{Change, Entity};
use agg_outside::{Keeper, Memory, Row, RowId, Rowlist};
use std::alloc::Global;

/// The most rows of one piece.
pub const PIECE: usize = 256;

/// The change of the key that the epoch sees with the greatest number from `from` on and below
/// `before`. Over a keeper that tells its rows the bound on the looks is never met: each is before the
/// one before.
pub fn last_seen<K: Keeper>(
    keeper: &mut K,
    alloc: Global,
    epoch: u64,
    entity: Entity,
    key: &[u8],
    from: u64,
    before: u64,
) -> Result<Option<Change>, RowsError>
    requires { ForSome (K.held keeper.old) (λ h. (last : ℕ) × AreVersions last h) }
    ensures change { IfSome (K.held keeper.old)
        (λ h. IfOk result (λ change. change ≡ hot_change (changes_seen epoch h.rows) entity key.now from before)) }
    ensures held { K.held keeper.new ≡ K.held keeper.old }
    ensures unworn { IsUnworn result }
    ensures cause { HasCause RowsError.Keeper (K.faults keeper.old) (K.faults keeper.new) result }
{
    let low = place_at(alloc, entity, key, from)?;
    let mut place = place_at(alloc, entity, key, before)?;
    for _look in 0..u64::MAX {
        let found = keeper.seek_back(alloc, &place)?;
        let Some(row) = found else {
            return Ok(None);
        };
        if is_before(&row.id, &low) {
            return Ok(None);
        }
        if is_seen(epoch, &row) {
            return Ok(Some(change_of(row)?));
        }
        place = row.id;
    }
    Err(RowsError::Memory)
}

// Adds the row, where the epoch sees it and the list has fewer than `limit` rows.
fn keep_seen(epoch: u64, limit: usize, row: Row, found: &mut Rowlist) -> Result<(), Memory>
    requires { length found.old ≤ limit }
    ensures kept { OnOk result (found.new ≡ take limit (found.old ++ seen epoch (row ∷ []))) }
{
    if found.len() < limit && is_seen(epoch, &row) {
        found.push(row)?;
    }
    Ok(())
}

// Adds the rows of the piece that the epoch sees, as far as the list has fewer than `limit` rows.
fn keep_piece(epoch: u64, limit: usize, piece: Rowlist, found: &mut Rowlist) -> Result<(), Memory>
    requires { length found.old ≤ limit }
    ensures kept { OnOk result (found.new ≡ take limit (found.old ++ seen epoch piece)) }
{
    for row in piece.into_vec() {
        keep_seen(epoch, limit, row, found)?;
    }
    Ok(())
}

/// The first `limit` rows not before `from` that the epoch sees. They are read in pieces of as many as
/// are sought, and of twice as many each time after that. Over a keeper that tells its rows the bound
/// on the pieces is never met.
pub fn some_seen<K: Keeper>(
    keeper: &mut K,
    alloc: Global,
    epoch: u64,
    from: &RowId,
    limit: usize,
) -> Result<Rowlist, RowsError>
    requires { ForSome (K.held keeper.old) (λ h. IsTrue (ascends h.rows)) }
    ensures rows { IfSome (K.held keeper.old)
        (λ h. IfOk result (λ rows. rows ≡ take limit (seen epoch (rows_from from.now h.rows)))) }
    ensures held { K.held keeper.new ≡ K.held keeper.old }
    ensures unworn { IsUnworn result }
    ensures cause { HasCause RowsError.Keeper (K.faults keeper.old) (K.faults keeper.new) result }
{
    let mut found = Rowlist::new(alloc);
    let mut place = from.copy(alloc)?;
    let mut size = limit.min(PIECE);
    for _piece in 0..u64::MAX {
        if found.len() >= limit {
            return Ok(found);
        }
        let piece = keeper.scan_some(alloc, &place, size)?;
        let next = next_piece(alloc, &piece, size)?;
        keep_piece(epoch, limit, piece, &mut found)?;
        let Some(next) = next else {
            return Ok(found);
        };
        place = next;
        size = PIECE.min(size * 2);
    }
    Err(RowsError::Memory)
}
