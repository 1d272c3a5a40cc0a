//! The changes of a step, by notes of its rows.
ghost use Rattle.std.specs.Prelude.{◌≡◌, ◌≤◌, ◌++◌, [], ◌∷◌, List, All, true, Some, IfSome, IfOk, OnOk};
ghost use Rattle.std.specs.List.{Contains, filter};
ghost use Rattle.std.specs.List.Sorted.{IsSorted};
ghost use Rattle.agg_outside.specs.Counts.{HasCause};
ghost use Rattle.agg_outside.specs.Rows.{Held, id_cmp};
ghost use Rattle.agg_outside.specs.declared.rows.RowId.{RowId};
ghost use Rattle.agg_model.specs.declared.change.Change.{Change};
ghost use Rattle.row_epochs.specs.Errors.{IsUnworn};
ghost use Rattle.row_epochs.specs.Changes.{changes_seen};
ghost use Rattle.row_epochs.specs.Places.{ids_of};
ghost use Rattle.row_epochs.specs.Versions.{AreVersions};
ghost use Rattle.hot_keeper.specs.Windows.{is_within_numbers};
ghost use Rattle.hot_keeper.specs.Notes.{is_in_step, changes_in, AreNoted, HasNote, IsLeft};

use crate::notes::{Notes, add_notes, ids_within};
use crate::pieces::PIECE;
use agg_model::{Batch, Range};
use agg_outside::{Keeper, ListOf, Memory, Row, RowId, Rowlist};
use row_epochs::{Rows, RowsError, behind, change_of, first_place, is_before, is_seen, next_piece};
use std::alloc::Global;

// Whether the epoch sees the row, and its number is in the range.
#[tactic(auto, unfolding(crate::specs::Notes::is_in_step, crate::specs::Windows::is_within_numbers, row_epochs::specs::Changes::change_of))]
fn is_in_step(epoch: u64, numbers: Range, row: &Row) -> bool
    ensures { result ≡ is_in_step epoch numbers.from numbers.to row.now }
{
    is_seen(epoch, row) && numbers.from <= row.id.tx && row.id.tx < numbers.to
}

// Adds the change of the row, where it is of the step.
fn take_change(epoch: u64, numbers: Range, row: Row, changes: &mut Batch) -> Result<(), Memory>
    ensures { OnOk result (changes.new ≡ changes.old ++ changes_in epoch numbers.from numbers.to (row ∷ [])) }
{
    if is_in_step(epoch, numbers, &row) {
        let change = change_of(row)?;
        changes.push(change)?;
    }
    Ok(())
}

// Looks at the row with the id, and answers where the next look begins. A row that is gone is passed over.
fn look_at<K: Keeper>(
    rows: &mut Rows<K>,
    alloc: Global,
    epoch: u64,
    numbers: Range,
    place: RowId,
    id: RowId,
    changes: &mut Batch,
) -> Result<RowId, RowsError>
    requires { IfSome rows.old.told (AreVersions rows.old.epoch) }
    ensures left { IfSome rows.old.told (λ h. (rest : List RowId)
        → IsLeft epoch numbers.from numbers.to h.rows place (id ∷ rest) changes.old
        → IfOk result (λ next. IsLeft epoch numbers.from numbers.to h.rows next rest changes.new)) }
    ensures same { rows.new ≡ record rows.old { faults = rows.new.faults } }
    ensures unworn { IsUnworn result }
    ensures cause { HasCause RowsError.Keeper rows.old.faults rows.new.faults result }
{
    if is_before(&id, &place) {
        return Ok(place);
    }
    let found = rows.row_from(alloc, &id)?;
    let Some(row) = found else {
        return Ok(id);
    };
    let next = behind(alloc, &row.id)?;
    take_change(epoch, numbers, row, changes)?;
    Ok(next)
}

// The changes of the rows with these ids, which ascend, that are of the step at the present epoch.
fn changes_at<K: Keeper>(
    rows: &mut Rows<K>,
    alloc: Global,
    numbers: Range,
    ids: Vec<RowId>,
) -> Result<Batch, RowsError>
    requires versions { IfSome rows.old.told (AreVersions rows.old.epoch) }
    requires sorted { IsSorted id_cmp ids.items }
    requires noted { IfSome rows.old.told (λ h. All (λ r. is_in_step rows.old.epoch numbers.from numbers.to r ≡ true
        → Contains ids.items r.id) h.rows) }
    ensures changes { IfSome rows.old.told (λ h. IfOk result (λ changes. changes ≡ filter
        (is_within_numbers numbers.from numbers.to) (changes_seen rows.old.epoch h.rows))) }
    ensures same { rows.new ≡ record rows.old { faults = rows.new.faults } }
    ensures unworn { IsUnworn result }
    ensures cause { HasCause RowsError.Keeper rows.old.faults rows.new.faults result }
{
    let present = rows.epoch();
    let mut changes = ListOf::new(alloc);
    let mut place = first_place(alloc)?;
    for id in ids {
        place = look_at(rows, alloc, present, numbers, place, id, &mut changes)?;
    }
    Ok(changes)
}

// Notes the rows of the piece.
fn note_piece(notes: &mut Notes, alloc: Global, piece: Rowlist) -> Result<(), Memory>
    ensures have { OnOk result (All (HasNote notes.new) (ids_of piece)) }
    ensures keep { (other : RowId) → HasNote notes.old other → HasNote notes.new other }
{
    let ids = ids_in(alloc, piece)?;
    add_notes(notes, ids)
}

fn ids_in(alloc: Global, rows: Rowlist) -> Result<Vec<RowId>, Memory>
    ensures { IfOk result (λ ids. ids.items ≡ ids_of rows) }
{
    let mut ids = Vec::new(alloc);
    for row in rows.into_vec() {
        ids.push(row.id)?;
    }
    Ok(ids)
}

// Notes of all alive rows. Over a keeper that tells its rows the bound on the pieces is never met.
fn notes_of<K: Keeper>(rows: &mut Rows<K>, alloc: Global) -> Result<Notes, RowsError>
    requires { IfSome rows.old.told (AreVersions rows.old.epoch) }
    ensures noted { IfSome rows.old.told (λ h. IfOk result (λ notes. AreNoted (Some notes) h.rows)) }
    ensures same { rows.new ≡ record rows.old { faults = rows.new.faults } }
    ensures unworn { IsUnworn result }
    ensures cause { HasCause RowsError.Keeper rows.old.faults rows.new.faults result }
{
    let present = rows.epoch();
    let mut notes = Notes::new(alloc);
    let mut place = first_place(alloc)?;
    for _piece in 0..u64::MAX {
        let piece = rows.view_some(alloc, present, &place, PIECE)?;
        let next = next_piece(alloc, &piece, PIECE)?;
        note_piece(&mut notes, alloc, piece)?;
        let Some(next) = next else {
            return Ok(notes);
        };
        place = next;
    }
    Err(RowsError::Memory)
}

// The notes, or those of all alive rows where there are none.
fn kept_or_made<K: Keeper>(
    rows: &mut Rows<K>,
    alloc: Global,
    notes: Option<Notes>,
) -> Result<Notes, RowsError>
    requires versions { IfSome rows.old.told (AreVersions rows.old.epoch) }
    requires noted { IfSome rows.old.told (λ h. AreNoted notes h.rows) }
    ensures noted { IfSome rows.old.told (λ h. IfOk result (λ kept. AreNoted (Some kept) h.rows)) }
    ensures same { rows.new ≡ record rows.old { faults = rows.new.faults } }
    ensures unworn { IsUnworn result }
    ensures cause { HasCause RowsError.Keeper rows.old.faults rows.new.faults result }
{
    match notes {
        Some(kept) => Ok(kept),
        None => notes_of(rows, alloc),
    }
}

/// The changes with numbers in the range that the present epoch sees: a look for each row that is noted
/// with such a number. The first time all rows are gone over and noted.
pub fn changes_within<K: Keeper>(
    rows: &mut Rows<K>,
    notes: &mut Option<Notes>,
    alloc: Global,
    numbers: Range,
) -> Result<Batch, RowsError>
    requires versions { IfSome rows.old.told (AreVersions rows.old.epoch) }
    requires numbers { numbers.from ≤ numbers.to }
    requires noted { IfSome rows.old.told (λ h. AreNoted notes.old h.rows) }
    ensures changes { IfSome rows.old.told (λ h. IfOk result (λ changes. changes ≡ filter
        (is_within_numbers numbers.from numbers.to) (changes_seen rows.old.epoch h.rows))) }
    ensures noted { IfSome rows.old.told (λ h. AreNoted notes.new h.rows) }
    ensures same { rows.new ≡ record rows.old { faults = rows.new.faults } }
    ensures unworn { IsUnworn result }
    ensures cause { HasCause RowsError.Keeper rows.old.faults rows.new.faults result }
{
    let before = notes.take();
    let kept = kept_or_made(rows, alloc, before)?;
    let found = ids_within(alloc, &kept, numbers);
    *notes = Some(kept);
    let ids = found?;
    changes_at(rows, alloc, numbers, ids)
}
