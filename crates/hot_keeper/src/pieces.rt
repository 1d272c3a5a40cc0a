//! Walks over all rows that the present epoch sees, in pieces.
ghost use Rattle.std.specs.Prelude.{◌≡◌, ◌+◌, ◌++◌, ◌≤◌, length, drop, nat_lt, None, IfSome, IfOk, OnOk};
ghost use Rattle.std.specs.List.{filter};
ghost use Rattle.agg_outside.specs.Counts.{HasCause};
ghost use Rattle.row_epochs.specs.Errors.{IsUnworn};
ghost use Rattle.row_epochs.specs.Places.{ids_of};
ghost use Rattle.row_epochs.specs.Versions.{AreVersions};
ghost use Rattle.hot_keeper.specs.Pruning.{has_low_number, low_rows, pruned_ids};
ghost use Rattle.hot_keeper.specs.ReadAhead.{IsAhead, AreAhead};

use crate::ahead::{FirstIds, ReadAhead, ahead_of, first_ids};
use agg_outside::{Keeper, Memory, RowId, Rowlist};
use row_epochs::{Rows, RowsError, first_place, next_piece};
use std::alloc::Global;

/// The rows of one piece.
pub const PIECE: usize = 256;

// Adds the ids of the rows of the piece with numbers below `tx`.
fn note_below(tx: u64, piece: Rowlist, ids: &mut Vec<RowId>) -> Result<(), Memory>
    ensures { OnOk result (ids.new.items ≡ ids.old.items ++ ids_of (filter (has_low_number tx) piece)) }
{
    for row in piece.into_vec() {
        if row.id.tx < tx {
            ids.push(row.id)?;
        }
    }
    Ok(())
}

// Reads on until there are more than `limit` ids, or no others. Over a keeper that tells its rows the bound
// on the pieces is never met.
fn read_on<K: Keeper>(
    rows: &mut Rows<K>,
    alloc: Global,
    ahead: ReadAhead,
    limit: usize,
) -> Result<ReadAhead, RowsError>
    requires versions { IfSome rows.old.told (AreVersions rows.old.epoch) }
    requires ahead { IfSome rows.old.told (λ h. IsAhead ahead.ids.items ahead.place (low_rows ahead.tx h.rows)) }
    ensures tx { IfOk result (λ a. a.tx ≡ ahead.tx) }
    ensures ahead { IfSome rows.old.told (λ h. IfOk result
        (λ a. IsAhead a.ids.items a.place (low_rows ahead.tx h.rows))) }
    ensures enough { IfOk result (λ a. length a.ids.items ≤ limit → a.place ≡ None) }
    ensures same { rows.new ≡ record rows.old { faults = rows.new.faults } }
    ensures unworn { IsUnworn result }
    ensures cause { HasCause RowsError.Keeper rows.old.faults rows.new.faults result }
{
    let present = rows.epoch();
    let ReadAhead {
        tx,
        mut ids,
        mut place,
    } = ahead;
    for _piece in 0..u64::MAX {
        if ids.len() > limit {
            return Ok(ReadAhead { tx, ids, place });
        }
        let Some(from) = place else {
            return Ok(ReadAhead {
                tx,
                ids,
                place: None,
            });
        };
        let piece = rows.view_some(alloc, present, &from, PIECE)?;
        let next = next_piece(alloc, &piece, PIECE)?;
        note_below(tx, piece, &mut ids)?;
        place = next;
    }
    Err(RowsError::Memory)
}

/// The ids of the first `limit` alive rows with numbers below `tx`, in row order: those that were read ahead
/// first, and then those from where the last call stopped.
pub fn first_below<K: Keeper>(
    rows: &mut Rows<K>,
    alloc: Global,
    before: Option<ReadAhead>,
    tx: u64,
    limit: usize,
) -> Result<FirstIds, RowsError>
    requires versions { IfSome rows.old.told (AreVersions rows.old.epoch) }
    requires ahead { IfSome rows.old.told (λ h. AreAhead before h.rows) }
    ensures ids { IfSome rows.old.told (λ h. IfOk result (λ low. low.ids.items ≡ pruned_ids tx limit h.rows)) }
    ensures more { IfSome rows.old.told
        (λ h. IfOk result (λ low. low.more ≡ nat_lt limit (length (low_rows tx h.rows)))) }
    ensures tx { IfOk result (λ low. low.rest.tx ≡ tx) }
    ensures rest { IfSome rows.old.told (λ h. IfOk result
        (λ low. IsAhead low.rest.ids.items low.rest.place (drop limit (low_rows tx h.rows)))) }
    ensures same { rows.new ≡ record rows.old { faults = rows.new.faults } }
    ensures unworn { IsUnworn result }
    ensures cause { HasCause RowsError.Keeper rows.old.faults rows.new.faults result }
{
    let begun = ahead_of(alloc, before, tx)?;
    let read = read_on(rows, alloc, begun, limit)?;
    let first = first_ids(read, limit)?;
    Ok(first)
}

// How many rows of the piece have numbers below `tx`.
fn count_in(tx: u64, piece: &Rowlist) -> u64
    ensures { result ≡ length (filter (has_low_number tx) piece.now) }
{
    let mut count = 0;
    for row in piece.as_slice() {
        if row.id.tx < tx {
            count += 1;
        }
    }
    count
}

// A sum that would pass its type's end comes only of a keeper that doesn't tell its rows.
fn added(count: u64, more: u64) -> Result<u64, Memory>
    ensures { IfOk result (λ sum. sum ≡ count + more) }
{
    let Some(sum) = count.checked_add(more) else {
        return Err(Memory);
    };
    Ok(sum)
}

/// How many alive rows have numbers below `tx`. Over a keeper that tells its rows the bound on the pieces
/// is never met.
pub fn count_below<K: Keeper>(rows: &mut Rows<K>, alloc: Global, tx: u64) -> Result<u64, RowsError>
    requires { IfSome rows.old.told (AreVersions rows.old.epoch) }
    ensures count { IfSome rows.old.told (λ h. IfOk result (λ count. count ≡ length (low_rows tx h.rows))) }
    ensures same { rows.new ≡ record rows.old { faults = rows.new.faults } }
    ensures unworn { IsUnworn result }
    ensures cause { HasCause RowsError.Keeper rows.old.faults rows.new.faults result }
{
    let present = rows.epoch();
    let mut count = 0u64;
    let mut place = first_place(alloc)?;
    for _piece in 0..u64::MAX {
        let piece = rows.view_some(alloc, present, &place, PIECE)?;
        let more = count_in(tx, &piece);
        let sum = added(count, more)?;
        count = sum;
        let next = next_piece(alloc, &piece, PIECE)?;
        let Some(next) = next else {
            return Ok(count);
        };
        place = next;
    }
    Err(RowsError::Memory)
}
