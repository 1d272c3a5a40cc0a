//! Notes of rows by the numbers of their changes, so that a step's rows are found without a look at others.
ghost use Rattle.std.specs.Prelude.{◌≡◌, ◌≤◌, ◌<◌, List, All, map, IfOk, OnOk, IfSome};
ghost use Rattle.std.specs.List.Sorted.{IsSorted};
ghost use Rattle.std.specs.List.{Contains};
ghost use Rattle.agg_outside.specs.Rows.{Held, id_cmp, applied};
ghost use Rattle.agg_outside.specs.declared.rows.RowId.{RowId};
ghost use Rattle.agg_outside.specs.declared.rows.Row.{Row};
ghost use Rattle.row_epochs.specs.Changes.{id_born, writes_of};
ghost use Rattle.hot_keeper.specs.Notes.{first_note, note_of, HasNote, AreNoted};

use agg_model::{Batch, Change, Range};
use agg_outside::{Bytes, Memory, RowId};
use std::alloc::Global;
use std::cmp::Ordering;
use std::collections::BTreeSet;

/// The most notes that a look goes over.
const FEW: usize = 256;

/// A row, ordered by the number of its change first.
#[derive(Debug, Drop)]
pub struct Note {
    pub id: RowId,
}

pub type Notes = BTreeSet<Note>;

impl PartialEq for Note {
    ghost use Rattle.std.specs.Ordering.{eq_by_cmp};
    ghost use Rattle.std.specs.Cmp.{partial_equiv_from_equiv};
    ghost use Rattle.hot_keeper.specs.Notes.{note_cmp};
    ghost use Rattle.hot_keeper.specs.NoteOrder.{note_eq_equiv};

    ghost eq = { eq_by_cmp note_cmp };

    ghost laws = { partial_equiv_from_equiv note_eq_equiv };

    fn eq(&self, other: &Note) -> bool {
        self.cmp(other).is_eq()
    }
}

impl Eq for Note {
    ghost use Rattle.hot_keeper.specs.NoteOrder.{note_eq_equiv};

    ghost laws = { note_eq_equiv };
}

impl PartialOrd for Note {
    ghost use Rattle.std.specs.Prelude.{Some};
    ghost use Rattle.hot_keeper.specs.Notes.{note_cmp};
    ghost use Rattle.hot_keeper.specs.NoteOrder.{note_partial_order};

    ghost partial_cmp = { λ a b. Some (note_cmp a b) };

    ghost laws = { note_partial_order };

    fn partial_cmp(&self, other: &Note) -> Option<Ordering> {
        Some(self.cmp(other))
    }
}

impl Ord for Note {
    ghost use Rattle.std.specs.Prelude.{refl};
    ghost use Rattle.hot_keeper.specs.Notes.{note_cmp};
    ghost use Rattle.hot_keeper.specs.NoteOrder.{note_cmp_total};

    ghost cmp = { note_cmp };

    ghost total = { note_cmp_total };

    ghost matches_partial_cmp = { λ a b. refl };

    ghost matches_eq = { λ a b. refl };

    #[tactic(auto, unfolding(crate::specs::Notes::note_cmp))]
    fn cmp(&self, other: &Note) -> Ordering {
        self.id.tx.cmp(&other.id.tx).then(self.id.cmp(&other.id))
    }
}

// Before all notes from this number on.
fn first_note(alloc: Global, tx: u64) -> Result<Note, Memory>
    ensures { IfOk result (λ note. note ≡ first_note tx) }
{
    Ok(Note {
        id: RowId {
            entity: 0,
            key: Bytes::of(alloc, &[])?,
            tx,
            born: 0,
        },
    })
}

// Notes the row too.
fn add_note(notes: &mut Notes, id: RowId) -> Result<(), Memory>
    ensures has { OnOk result (HasNote notes.new id) }
    ensures keeps { (other : RowId) → HasNote notes.old other → HasNote notes.new other }
{
    let _new = notes.insert(Note { id })?;
    Ok(())
}

/// Notes these rows too.
pub fn add_notes(notes: &mut Notes, ids: Vec<RowId>) -> Result<(), Memory>
    ensures have { OnOk result (All (HasNote notes.new) ids.items) }
    ensures keep { (other : RowId) → HasNote notes.old other → HasNote notes.new other }
{
    for id in ids {
        add_note(notes, id)?;
    }
    Ok(())
}

fn id_born(alloc: Global, epoch: u64, change: &Change) -> Result<RowId, Memory>
    ensures { IfOk result (λ id. id ≡ id_born epoch change.now) }
{
    Ok(RowId {
        entity: change.entity.number(),
        key: change.key.copy(alloc)?,
        tx: change.tx,
        born: epoch,
    })
}

// The rows of the changes that are born at the epoch.
fn ids_born(alloc: Global, epoch: u64, changes: &Batch) -> Result<Vec<RowId>, Memory>
    ensures { IfOk result (λ ids. ids.items ≡ map (λ c. id_born epoch c) changes.now) }
{
    let mut ids = Vec::new(alloc);
    for change in changes.as_slice() {
        ids.push(id_born(alloc, epoch, change)?)?;
    }
    Ok(ids)
}

fn add_batch(alloc: Global, notes: &mut Notes, epoch: u64, batch: &Batch) -> Result<(), Memory>
    ensures have { OnOk result (All (HasNote notes.new) (map (λ c. id_born epoch c) batch.now)) }
    ensures keep { (other : RowId) → HasNote notes.old other → HasNote notes.new other }
{
    let ids = ids_born(alloc, epoch, batch)?;
    add_notes(notes, ids)
}

/// Where there are notes, notes the rows that the batch has once it is written at the epoch. Where memory
/// can't be had there are none from then on.
pub fn note_batch(alloc: Global, notes: &mut Option<Notes>, epoch: u64, batch: &Batch)
    ensures before { (rows : List Row) → AreNoted notes.old rows → AreNoted notes.new rows }
    ensures after { (h : Held) → AreNoted notes.old h.rows
        → AreNoted notes.new (applied (writes_of epoch batch.now) h).rows }
{
    let Some(mut kept) = notes.take() else {
        return;
    };
    if let Ok(_) = add_batch(alloc, &mut kept, epoch, batch) {
        *notes = Some(kept);
    }
}

/// Forgets the notes of rows with numbers below `tx`.
pub fn drop_below(alloc: Global, notes: &mut Option<Notes>, tx: u64)
    ensures { (rows : List Row) → AreNoted notes.old rows → All (λ r. r.killed ≡ 0 → tx ≤ r.id.tx) rows
        → AreNoted notes.new rows }
{
    let Some(mut kept) = notes.take() else {
        return;
    };
    let Ok(first) = first_note(alloc, tx) else {
        return;
    };
    if let Ok(rest) = kept.split_off(&first) {
        *notes = Some(rest);
    }
}

/// Whether at most 256 rows are noted with numbers in the range.
pub fn are_few(alloc: Global, notes: &Notes, numbers: Range) -> Result<bool, Memory>
    requires { numbers.from ≤ numbers.to }
{
    let first = first_note(alloc, numbers.from)?;
    let end = first_note(alloc, numbers.to)?;
    let mut range = notes.range(&first..&end);
    Ok(range.nth(FEW).is_none())
}

/// The noted rows with numbers in the range, in row order.
pub fn ids_within(alloc: Global, notes: &Notes, numbers: Range) -> Result<Vec<RowId>, Memory>
    requires { numbers.from ≤ numbers.to }
    ensures sorted { IfOk result (λ ids. IsSorted id_cmp ids.items) }
    ensures all { IfOk result (λ ids. (id : RowId) → HasNote notes.now id → numbers.from ≤ id.tx
        → id.tx < numbers.to → Contains ids.items id) }
{
    let mut ids = noted_within(alloc, notes, numbers)?;
    ids.sort()?;
    Ok(ids)
}

// The noted rows with numbers in the range.
fn noted_within(alloc: Global, notes: &Notes, numbers: Range) -> Result<Vec<RowId>, Memory>
    requires { numbers.from ≤ numbers.to }
    ensures { IfOk result (λ ids. (id : RowId) → HasNote notes.now id → numbers.from ≤ id.tx
        → id.tx < numbers.to → Contains ids.items id) }
{
    let first = first_note(alloc, numbers.from)?;
    let end = first_note(alloc, numbers.to)?;
    let mut ids = Vec::new(alloc);
    for note in notes.range(&first..&end) {
        ids.push(note.id.copy(alloc)?)?;
    }
    Ok(ids)
}
