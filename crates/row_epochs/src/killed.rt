//! Notes of the rows that were killed and aren't removed yet, so that a removal looks at no others.
ghost use Rattle.std.specs.Prelude.{◌≡◌, ℕ, ◌<◌, ◌≤◌, [], ◌∷◌, ◌++◌, List, All, Some, IfSome, IfOk, OnOk, OnErr, IsTrue};
ghost use Rattle.std.specs.Option.{ForSome};
ghost use Rattle.std.specs.BTreeMap.{insert_entry};
ghost use Rattle.agg_outside.specs.Counts.{HasCause};
ghost use Rattle.agg_outside.specs.Rows.{Held, ascends, id_cmp, applied};
ghost use Rattle.agg_outside.specs.declared.rows.Row.{Row};
ghost use Rattle.row_epochs.specs.Errors.{IsUnworn};
ghost use Rattle.row_epochs.specs.Seen.{dead, without_dead};
ghost use Rattle.row_epochs.specs.Changes.{kills_of};
ghost use Rattle.row_epochs.specs.Places.{ids_of};
ghost use Rattle.row_epochs.specs.Versions.{IsAlive};
ghost use Rattle.row_epochs.specs.Kills.{kills_in, AreKillsNoted, dead_kills, later_kills, noted, with_kills};

use crate::error::RowsError;
use crate::places::{first_place, next_piece};
use crate::scan::PIECE;
use agg_outside::{Keeper, Memory, Row, RowId, Rowlist};
use std::alloc::Global;
use std::collections::BTreeMap;

/// When each killed row was killed.
pub type Kills = BTreeMap<RowId, u64>;

fn put(kills: &mut Kills, id: RowId, epoch: u64) -> Result<(), Memory>
    ensures { OnOk result (kills.new.entries ≡ insert_entry id_cmp kills.old.entries id epoch) }
{
    match kills.insert(id, epoch) {
        Ok(_) => Ok(()),
        Err(_) => Err(Memory),
    }
}

fn note_row(row: Row, kills: &mut Kills) -> Result<(), Memory>
    ensures { OnOk result (kills.new.entries ≡ noted kills.old.entries (row ∷ [])) }
{
    if row.killed != 0 {
        put(kills, row.id, row.killed)?;
    }
    Ok(())
}

fn note_piece(piece: Rowlist, kills: &mut Kills) -> Result<(), Memory>
    ensures { OnOk result (kills.new.entries ≡ noted kills.old.entries piece) }
{
    for row in piece.into_vec() {
        note_row(row, kills)?;
    }
    Ok(())
}

// Notes of all killed rows. Over a keeper that tells its rows the bound on the pieces is never met.
fn kills_of_all<K: Keeper>(keeper: &mut K, alloc: Global) -> Result<Kills, RowsError>
    requires { ForSome (K.held keeper.old) (λ h. IsTrue (ascends h.rows)) }
    ensures kills { IfSome (K.held keeper.old) (λ h. IfOk result (λ kills. AreKillsNoted (Some kills) h.rows)) }
    ensures held { K.held keeper.new ≡ K.held keeper.old }
    ensures unworn { IsUnworn result }
    ensures cause { HasCause RowsError.Keeper (K.faults keeper.old) (K.faults keeper.new) result }
{
    let mut kills = Kills::new(alloc);
    let mut place = first_place(alloc)?;
    for _piece in 0..u64::MAX {
        let piece = keeper.scan_some(alloc, &place, PIECE)?;
        let next = next_piece(alloc, &piece, PIECE)?;
        note_piece(piece, &mut kills)?;
        let Some(next) = next else {
            return Ok(kills);
        };
        place = next;
    }
    Err(RowsError::Memory)
}

// The notes, or those of all killed rows where there are none.
fn kept_or_made<K: Keeper>(
    keeper: &mut K,
    alloc: Global,
    kills: Option<Kills>,
) -> Result<Kills, RowsError>
    requires rows { ForSome (K.held keeper.old) (λ h. IsTrue (ascends h.rows)) }
    requires kills { IfSome (K.held keeper.old) (λ h. AreKillsNoted kills h.rows) }
    ensures kills { IfSome (K.held keeper.old) (λ h. IfOk result (λ kept. AreKillsNoted (Some kept) h.rows)) }
    ensures held { K.held keeper.new ≡ K.held keeper.old }
    ensures unworn { IsUnworn result }
    ensures cause { HasCause RowsError.Keeper (K.faults keeper.old) (K.faults keeper.new) result }
{
    match kills {
        Some(kept) => Ok(kept),
        None => kills_of_all(keeper, alloc),
    }
}

// Adds the id, where it was killed at `oldest` or before.
fn take_dead(
    alloc: Global,
    oldest: u64,
    id: &RowId,
    killed: u64,
    ids: &mut Vec<RowId>,
) -> Result<(), Memory>
    ensures { OnOk result (ids.new.items ≡ ids.old.items ++ dead_kills oldest ((id.now, killed) ∷ [])) }
{
    if killed <= oldest {
        ids.push(id.copy(alloc)?)?;
    }
    Ok(())
}

fn dead_in(alloc: Global, kills: &Kills, oldest: u64) -> Result<Vec<RowId>, Memory>
    ensures { IfOk result (λ ids. ids.items ≡ dead_kills oldest kills.now.entries) }
{
    let mut ids = Vec::new(alloc);
    for (id, killed) in kills.iter() {
        take_dead(alloc, oldest, id, *killed, &mut ids)?;
    }
    Ok(ids)
}

/// The ids of the rows that were killed at `oldest` or before, in order. The first time all rows are gone
/// over and the killed ones noted; from then on no row is read.
pub fn dead_ids<K: Keeper>(
    keeper: &mut K,
    kills: &mut Option<Kills>,
    alloc: Global,
    oldest: u64,
) -> Result<Vec<RowId>, RowsError>
    requires rows { ForSome (K.held keeper.old) (λ h. IsTrue (ascends h.rows)) }
    requires kills { IfSome (K.held keeper.old) (λ h. AreKillsNoted kills.old h.rows) }
    ensures ids { IfSome (K.held keeper.old) (λ h. IfOk result (λ ids. ids.items ≡ ids_of (dead oldest h.rows))) }
    ensures kills { IfSome (K.held keeper.old) (λ h. AreKillsNoted kills.new h.rows) }
    ensures held { K.held keeper.new ≡ K.held keeper.old }
    ensures unworn { IsUnworn result }
    ensures cause { HasCause RowsError.Keeper (K.faults keeper.old) (K.faults keeper.new) result }
{
    let before = kills.take();
    let kept = kept_or_made(keeper, alloc, before)?;
    let found = dead_in(alloc, &kept, oldest);
    *kills = Some(kept);
    let ids = found?;
    Ok(ids)
}

fn keep_later(kills: &mut Kills, oldest: u64)
    ensures { kills.new.entries ≡ later_kills oldest kills.old.entries }
{
    kills.retain(|_, killed| !(*killed <= oldest));
}

/// Forgets the rows that were killed at `oldest` or before, once they are removed.
pub fn forget_dead(kills: &mut Option<Kills>, oldest: u64)
    ensures { (rows : List Row) → AreKillsNoted kills.old rows → AreKillsNoted kills.new (without_dead oldest rows) }
{
    let Some(mut kept) = kills.take() else {
        return;
    };
    keep_later(&mut kept, oldest);
    *kills = Some(kept);
}

fn put_all(alloc: Global, kills: &mut Kills, epoch: u64, ids: &[RowId]) -> Result<(), Memory>
    ensures { OnOk result (kills.new.entries ≡ with_kills epoch kills.old.entries ids.now) }
{
    for id in ids {
        let copy = id.copy(alloc)?;
        put(kills, copy, epoch)?;
    }
    Ok(())
}

/// Where there are notes, notes these alive rows once they are killed at the epoch. Where memory can't be
/// had there are none from then on.
pub fn note_kills(alloc: Global, kills: &mut Option<Kills>, epoch: u64, ids: &[RowId])
    requires { 0 < epoch }
    ensures { (h : Held) (floor : ℕ) → IsTrue (ascends h.rows) → All (IsAlive h.rows) ids.now → AreKillsNoted kills.old h.rows
        → AreKillsNoted kills.new (applied (kills_of epoch floor ids.now) h).rows }
{
    let Some(mut kept) = kills.take() else {
        return;
    };
    if let Ok(_) = put_all(alloc, &mut kept, epoch, ids) {
        *kills = Some(kept);
    }
}
