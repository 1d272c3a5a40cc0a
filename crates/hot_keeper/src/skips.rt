//! Where the looks for keys go on, by notes of rows, so that a window of few changes is read without a look
//! at the other keys.
ghost use Rattle.std.specs.Prelude.{◌≡◌, ◌==◌, ◌≤◌, ◌<◌, ℕ, true, false, List, length, get_or, IfSome, IfOk, if◌then◌else◌};
ghost use Rattle.std.specs.List.Sorted.{IsSorted};
ghost use Rattle.agg_outside.specs.Rows.{id_cmp, is_before};
ghost use Rattle.agg_outside.specs.declared.rows.RowId.{RowId};
ghost use Rattle.agg_outside.specs.declared.rows.Row.{Row};
ghost use Rattle.hot_keeper.specs.Notes.{AreNoted};
ghost use Rattle.hot_keeper.specs.Skips.{AreKilledBy, AreAmong, IsFirstAmong, IsNextLook};

use crate::notes::{Notes, are_few, ids_within};
use agg_model::Range;
use agg_outside::{Memory, RowId};
use row_epochs::is_before;
use std::alloc::Global;

/// The noted rows with numbers in the range, in row order, where they are few and the epoch sees no others:
/// there are notes, and no row was killed after the epoch.
pub fn few_noted(
    alloc: Global,
    notes: &Option<Notes>,
    last_kill: u64,
    epoch: u64,
    numbers: Range,
) -> Result<Option<Vec<RowId>>, Memory>
    requires { numbers.from ≤ numbers.to }
    ensures sorted { IfOk result (λ ids. IfSome ids (λ l. IsSorted id_cmp l.items)) }
    ensures among { (rows : List Row) → AreNoted notes.now rows → AreKilledBy last_kill rows
        → IfOk result (λ ids. IfSome ids (λ l. AreAmong epoch numbers.from numbers.to l.items rows)) }
{
    if epoch < last_kill {
        return Ok(None);
    }
    let Some(kept) = notes else {
        return Ok(None);
    };
    if !are_few(alloc, kept, numbers)? {
        return Ok(None);
    }
    let ids = ids_within(alloc, kept, numbers)?;
    Ok(Some(ids))
}

// How many of the ids are before the place, by a binary search.
fn place_among(ids: &[RowId], place: &RowId) -> usize
    requires { IsSorted id_cmp ids.now }
    ensures within { result ≤ length ids.now }
    ensures before { (i : ℕ) (d : RowId) → i < result → is_before (get_or ids.now i d) place.now ≡ true }
    ensures rest { (i : ℕ) (d : RowId) → result ≤ i → i < length ids.now
        → is_before (get_or ids.now i d) place.now ≡ false }
{
    ids.partition_point(|id| is_before(id, place))
}

// The first of the ids that isn't before the place.
fn first_among(alloc: Global, ids: &[RowId], place: &RowId) -> Result<Option<RowId>, Memory>
    requires { IsSorted id_cmp ids.now }
    ensures { IfOk result (IsFirstAmong ids.now place.now) }
{
    let at = place_among(ids, place);
    if at >= ids.len() {
        return Ok(None);
    }
    let next = ids[at].copy(alloc)?;
    Ok(Some(next))
}

/// Where the look from the place goes on: at the first of the ids that isn't before it, or at the place
/// itself where there are no ids.
pub fn next_look(
    alloc: Global,
    ids: &Option<Vec<RowId>>,
    place: RowId,
) -> Result<Option<RowId>, Memory>
    requires { IfSome ids.now (λ l. IsSorted id_cmp l.items) }
    ensures { (epoch from to : ℕ) (rows : List Row) → IfSome ids.now (λ l. AreAmong epoch from to l.items rows)
        → IfOk result (IsNextLook epoch from to rows place) }
{
    let Some(kept) = ids else {
        return Ok(Some(place));
    };
    first_among(alloc, kept.as_slice(), &place)
}

/// The epoch of the last kill after a call that kills rows where it raises the epoch.
pub fn kill_after(last: u64, before: u64, after: u64) -> u64
    ensures { result ≡ (if before == after then last else after) }
{
    if before == after { last } else { after }
}
