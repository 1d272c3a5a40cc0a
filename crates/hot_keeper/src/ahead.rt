//! The alive rows with low numbers that are read ahead of the prunes that kill them, so that prunes up to
//! one number go over each row once.
ghost use Rattle.std.specs.Prelude.{◌≡◌, ℕ, ◌≤◌, List, length, take, drop, nat_lt, All, None, IfSome, IfOk, OnOk, true};
ghost use Rattle.agg_outside.specs.Rows.{Held, applied};
ghost use Rattle.agg_outside.specs.declared.rows.Row.{Row};
ghost use Rattle.row_epochs.specs.Changes.{writes_of};
ghost use Rattle.hot_keeper.specs.Pruning.{low_rows};
ghost use Rattle.hot_keeper.specs.ReadAhead.{IsAhead, AreAhead};

use agg_model::{Batch, Change};
use agg_outside::{Memory, RowId};
use row_epochs::first_place;
use std::alloc::Global;

/// What was read of the alive rows with numbers below `tx`: the ids of those that aren't killed yet, and
/// from where on the others are; nowhere, where there are no others.
#[derive(Debug, Drop)]
pub struct ReadAhead {
    pub tx: u64,
    pub ids: Vec<RowId>,
    pub place: Option<RowId>,
}

/// The first ids of rows that are sought, whether there are more, and what is read of those.
#[derive(Debug, Drop)]
pub struct FirstIds {
    pub ids: Vec<RowId>,
    pub more: bool,
    pub rest: ReadAhead,
}

fn nothing_read(alloc: Global, tx: u64) -> Result<ReadAhead, Memory>
    ensures tx { IfOk result (λ a. a.tx ≡ tx) }
    ensures ahead { (rows : List Row) → IfOk result (λ a. IsAhead a.ids.items a.place rows) }
{
    let first = first_place(alloc)?;
    let ids = Vec::new(alloc);
    Ok(ReadAhead {
        tx,
        ids,
        place: Some(first),
    })
}

/// What was read ahead of numbers below `tx`: nothing, where it was read for another number.
pub fn ahead_of(alloc: Global, ahead: Option<ReadAhead>, tx: u64) -> Result<ReadAhead, Memory>
    ensures tx { IfOk result (λ a. a.tx ≡ tx) }
    ensures ahead { (rows : List Row) → AreAhead ahead rows → IfOk result (λ a. IsAhead a.ids.items a.place (low_rows tx rows)) }
{
    let Some(kept) = ahead else {
        return nothing_read(alloc, tx);
    };
    if kept.tx != tx {
        return nothing_read(alloc, tx);
    }
    Ok(kept)
}

/// The first `limit` ids, and what is left.
pub fn first_ids(ahead: ReadAhead, limit: usize) -> Result<FirstIds, Memory>
    ensures ids { IfOk result (λ first. first.ids.items ≡ take limit ahead.ids.items) }
    ensures more { IfOk result (λ first. first.more ≡ nat_lt limit (length ahead.ids.items)) }
    ensures tx { IfOk result (λ first. first.rest.tx ≡ ahead.tx) }
    ensures rest { IfOk result (λ first. first.rest.ids.items ≡ drop limit ahead.ids.items) }
    ensures place { IfOk result (λ first. first.rest.place ≡ ahead.place) }
{
    let ReadAhead { tx, ids, place } = ahead;
    let mut first = ids;
    let more = limit < first.len();
    let rest = cut_off(&mut first, limit)?;
    Ok(FirstIds {
        ids: first,
        more,
        rest: ReadAhead {
            tx,
            ids: rest,
            place,
        },
    })
}

// Leaves the first `limit` ids, and answers the others.
fn cut_off(ids: &mut Vec<RowId>, limit: usize) -> Result<Vec<RowId>, Memory>
    ensures first { OnOk result (ids.new.items ≡ take limit ids.old.items) }
    ensures rest { IfOk result (λ rest. rest.items ≡ drop limit ids.old.items) }
{
    let front = limit.min(ids.len());
    let rest = ids.split_off(front)?;
    Ok(rest)
}

// Whether all numbers of the changes are from `tx` on.
fn are_from(tx: u64, changes: &[Change]) -> bool
    ensures { result ≡ true → All (λ c. tx ≤ c.tx) changes.now }
{
    for change in changes {
        if change.tx < tx {
            return false;
        }
    }
    true
}

/// Keeps what was read ahead where the batch has no number below its `tx`, and else forgets it.
pub fn keep_ahead(ahead: &mut Option<ReadAhead>, batch: &Batch)
    ensures before { (rows : List Row) → AreAhead ahead.old rows → AreAhead ahead.new rows }
    ensures after { (epoch : ℕ) (h : Held) → AreAhead ahead.old h.rows
        → AreAhead ahead.new (applied (writes_of epoch batch.now) h).rows }
{
    let Some(kept) = ahead.take() else {
        return;
    };
    let changes = batch.as_slice();
    if are_from(kept.tx, changes) {
        *ahead = Some(kept);
    }
}
