//! Kills of rows that files cover.
ghost use Rattle.std.specs.Prelude.{◌≡◌, ◌↔◌, ℕ, ◌+◌, ◌^◌, ◌≤◌, ◌||◌, ◌==◌, if◌then◌else◌, not, nat_lt, true, false, length, take, Some, None, IfSome, IfNone, IfOk, OnOk, OnErr, IsSomeAnd};
ghost use Rattle.std.specs.Option.{ForSome};
ghost use Rattle.agg_outside.specs.Counts.{HasCause};
ghost use Rattle.row_epochs.specs.Errors.{IsWorn, IsUnworn, NamesLimit};
ghost use Rattle.row_epochs.specs.Seen.{SameUpTo};
ghost use Rattle.row_epochs.specs.Versions.{AreVersions};
ghost use Rattle.hot_keeper.specs.Pruning.{low_rows, does_prune, pruned, epoch_pruned};
ghost use Rattle.hot_keeper.specs.ReadAhead.{AreAhead};

use crate::ahead::{FirstIds, ReadAhead};
use crate::pieces::{count_below, first_below};
use agg_outside::{Keeper, RowId};
use row_epochs::{Rows, RowsError};
use std::alloc::Global;

/// What a prune did.
#[derive(Clone, Copy, Debug, PartialEq, Eq)]
pub struct Pruned {
    /// How many rows were killed.
    pub killed: u64,
    /// 0 exactly where no alive row is left below the number.
    pub left: u64,
}

/// What is left to prune.
#[derive(Clone, Copy, Debug, PartialEq, Eq)]
pub struct Low {
    /// How many alive rows are below the number.
    pub alive: u64,
    /// A step number.
    pub floor: u64,
}

// Whether there is a row to kill, or the floor moves.
fn does_prune(ids: &[RowId], floor: u64, present: u64) -> bool
    ensures { result ≡ (nat_lt 0 (length ids.now) || not (floor == present)) }
{
    !ids.is_empty() || floor != present
}

fn left_of(more: bool) -> u64
    ensures { result ≡ (if more then 1 else 0) }
{
    if more { 1 } else { 0 }
}

/// Kills the first `limit` alive rows with numbers below `tx`, in row order, and sets the floor, where
/// that changes anything.
pub fn kill_first<K: Keeper>(
    rows: &mut Rows<K>,
    ahead: &mut Option<ReadAhead>,
    alloc: Global,
    tx: u64,
    floor: u64,
    limit: usize,
) -> Result<Pruned, RowsError>
    requires versions { IfSome rows.old.told (AreVersions rows.old.epoch) }
    requires ahead { IfSome rows.old.told (λ h. AreAhead ahead.old h.rows) }
    ensures ok { IfSome rows.old.told
        (λ h. OnOk result (rows.new.told ≡ Some (pruned (rows.old.epoch + 1) tx floor limit h))) }
    ensures earlier { IfSome rows.old.told
        (λ h. OnOk result (IsSomeAnd rows.new.told (λ k. SameUpTo rows.old.epoch h.rows k.rows))) }
    ensures killed { IfSome rows.old.told
        (λ h. IfOk result (λ pruned. pruned.killed ≡ length (take limit (low_rows tx h.rows)))) }
    ensures left { IfSome rows.old.told
        (λ h. IfOk result (λ pruned. (pruned.left ≡ 0) ↔ (length (low_rows tx h.rows) ≤ limit))) }
    ensures epoch { IfSome rows.old.told
        (λ h. OnOk result (rows.new.epoch ≡ epoch_pruned rows.old.epoch tx floor limit h)) }
    ensures sound { IfSome rows.new.told (AreVersions rows.new.epoch) }
    ensures silent { IfNone rows.old.told (rows.new.told ≡ None) }
    ensures err { OnErr result (rows.new ≡ record rows.old { faults = rows.new.faults }) }
    ensures limit { NamesLimit result }
    ensures worn { IsWorn result → (rows.old.epoch ≡ 2 ^ 62) × IfSome rows.old.told
        (λ h. does_prune tx floor limit h ≡ true) }
    ensures rises { rows.old.epoch ≡ 2 ^ 62 → IfSome rows.old.told
        (λ h. OnOk result (does_prune tx floor limit h ≡ false)) }
    ensures cause { HasCause RowsError.Keeper rows.old.faults rows.new.faults result }
    ensures ahead { IfSome rows.new.told (λ k. AreAhead ahead.new k.rows) }
{
    let before = ahead.take();
    let low = first_below(rows, alloc, before, tx, limit)?;
    let FirstIds { ids, more, rest } = low;
    let present = rows.floor()?;
    let dead = ids.as_slice();
    let pruned = Pruned {
        killed: dead.len() as u64,
        left: left_of(more),
    };
    if !does_prune(dead, floor, present) {
        *ahead = Some(rest);
        return Ok(pruned);
    }
    rows.kill(alloc, dead, floor)?;
    *ahead = Some(rest);
    Ok(pruned)
}

/// How many alive rows have numbers below `tx`, and the floor.
pub fn look_low<K: Keeper>(rows: &mut Rows<K>, alloc: Global, tx: u64) -> Result<Low, RowsError>
    requires { IfSome rows.old.told (AreVersions rows.old.epoch) }
    ensures alive { IfSome rows.old.told (λ h. IfOk result (λ low. low.alive ≡ length (low_rows tx h.rows))) }
    ensures floor { IfSome rows.old.told (λ h. IfOk result (λ low. low.floor ≡ h.floor)) }
    ensures same { rows.new ≡ record rows.old { faults = rows.new.faults } }
    ensures unworn { IsUnworn result }
    ensures cause { HasCause RowsError.Keeper rows.old.faults rows.new.faults result }
{
    let alive = count_below(rows, alloc, tx)?;
    let floor = rows.floor()?;
    Ok(Low { alive, floor })
}
