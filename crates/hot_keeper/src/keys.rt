//! The keys of an entity that changed in a window.
ghost use Rattle.std.specs.Prelude.{◌≡◌, ◌==◌, ◌&&◌, not, nat_lt, ◌<◌, ◌≤◌, ◌++◌, true, take, IfSome, IfOk, OnOk};
ghost use Rattle.agg_outside.specs.Counts.{HasCause};
ghost use Rattle.std.specs.List.Sorted.{IsSorted};
ghost use Rattle.agg_outside.specs.Rows.{id_cmp, is_before};
ghost use Rattle.agg_model.specs.Entity.{entity_number};
ghost use Rattle.row_epochs.specs.Errors.{IsUnworn};
ghost use Rattle.row_epochs.specs.Seen.{is_seen};
ghost use Rattle.row_epochs.specs.Places.{behind};
ghost use Rattle.row_epochs.specs.Changes.{changes_seen};
ghost use Rattle.row_epochs.specs.Versions.{AreVersions};
ghost use Rattle.hot_keeper.specs.Skips.{AreAmong};
ghost use Rattle.hot_keeper.specs.Windows.{window_keys, key_place, next_key_place, tells_key, keys_with};

use crate::skips::next_look;
use agg_model::{Entity, Range};
use agg_outside::{Bytes, Keeper, Keys, Memory, Row, RowId};
use row_epochs::{Rows, RowsError, behind, is_seen, place_at};
use std::alloc::Global;

// Behind the key's rows. One that is born at the last number comes only of a keeper that doesn't tell its
// rows, and is answered as want of memory.
fn behind_key(alloc: Global, id: &RowId) -> Result<RowId, Memory>
    ensures place { IfOk result (λ place. place ≡ key_place id.now 18446744073709551615 18446744073709551615) }
    ensures after { IfOk result (λ place. is_before id.now place ≡ true) }
{
    if id.born == u64::MAX {
        return Err(Memory);
    }
    let _within = id.tx;
    let key = id.key.copy(alloc)?;
    Ok(RowId {
        entity: id.entity,
        key,
        tx: u64::MAX,
        born: u64::MAX,
    })
}

// The key's first place in the window.
fn into_window(alloc: Global, id: &RowId, from: u64) -> Result<RowId, Memory>
    requires { id.now.tx < from }
    ensures place { IfOk result (λ place. place ≡ key_place id.now from 0) }
    ensures after { IfOk result (λ place. is_before id.now place ≡ true) }
{
    let key = id.key.copy(alloc)?;
    Ok(RowId {
        entity: id.entity,
        key,
        tx: from,
        born: 0,
    })
}

fn next_version(alloc: Global, id: &RowId) -> Result<RowId, Memory>
    ensures place { IfOk result (λ place. place ≡ behind id.now) }
    ensures after { IfOk result (λ place. is_before id.now place ≡ true) }
{
    let place = behind(alloc, id)?;
    Ok(place)
}

fn is_unseen_before(epoch: u64, to: u64, row: &Row) -> bool
    ensures { result ≡ (nat_lt row.now.id.tx to && not (is_seen epoch row.now)) }
{
    row.id.tx < to && !is_seen(epoch, row)
}

fn is_under(from: u64, row: &Row) -> bool
    ensures { result ≡ nat_lt row.now.id.tx from }
{
    row.id.tx < from
}

fn is_of(entity: Entity, row: &Row) -> bool
    ensures { result ≡ (row.now.id.entity == entity_number entity) }
{
    row.id.entity == entity.number()
}

// Where to look next: at the key's first number in the window, at the next version where the epoch doesn't
// see this one, or behind the key.
fn next_key_place(alloc: Global, epoch: u64, numbers: Range, row: &Row) -> Result<RowId, Memory>
    ensures place { IfOk result (λ next. next ≡ next_key_place epoch numbers.from numbers.to row.now) }
    ensures after { IfOk result (λ next. is_before row.now.id next ≡ true) }
{
    if is_under(numbers.from, row) {
        let place = into_window(alloc, &row.id, numbers.from)?;
        return Ok(place);
    }
    if is_unseen_before(epoch, numbers.to, row) {
        let place = next_version(alloc, &row.id)?;
        return Ok(place);
    }
    let place = behind_key(alloc, &row.id)?;
    Ok(place)
}

// Whether the row tells its key: it is in the window, and the epoch sees it.
fn tells_key(epoch: u64, numbers: Range, row: &Row) -> bool
    ensures tells { result ≡ tells_key epoch numbers.from numbers.to row.now }
    ensures fits { numbers.to ≤ 18446744073709551615 }
{
    numbers.from <= row.id.tx && row.id.tx < numbers.to && is_seen(epoch, row)
}

// Adds the row's key, where it tells it.
fn take_key(
    alloc: Global,
    epoch: u64,
    numbers: Range,
    row: &Row,
    found: &mut Keys,
) -> Result<(), Memory>
    ensures found { OnOk result (found.new ≡ found.old ++ keys_with epoch numbers.from numbers.to row.now) }
    ensures fits { numbers.to ≤ 18446744073709551615 }
{
    if tells_key(epoch, numbers, row) {
        found.push(row.id.key.copy(alloc)?)?;
    }
    Ok(())
}

/// The first `limit` keys not below `from` of which the epoch sees a change in the range. Where there are
/// ids of rows, which have all that tell such keys, rows that aren't among them are passed over. Over a
/// keeper that tells its rows the bound on the looks is never met: each is behind the one before.
pub fn keys_within<K: Keeper>(
    rows: &mut Rows<K>,
    noted: &Option<Vec<RowId>>,
    alloc: Global,
    epoch: u64,
    entity: Entity,
    from: &[u8],
    numbers: Range,
    limit: usize,
) -> Result<Keys, RowsError>
    requires versions { IfSome rows.old.told (AreVersions rows.old.epoch) }
    requires sorted { IfSome noted.now (λ l. IsSorted id_cmp l.items) }
    requires among { IfSome rows.old.told
        (λ h. IfSome noted.now (λ l. AreAmong epoch numbers.from numbers.to l.items h.rows)) }
    ensures keys { IfSome rows.old.told (λ h. IfOk result
        (λ keys. keys ≡ take limit (window_keys (changes_seen epoch h.rows) entity from.now numbers.from numbers.to))) }
    ensures same { rows.new ≡ record rows.old { faults = rows.new.faults } }
    ensures unworn { IsUnworn result }
    ensures cause { HasCause RowsError.Keeper rows.old.faults rows.new.faults result }
{
    let mut place = place_at(alloc, entity, from, numbers.from)?;
    let mut found = Keys::new(alloc);
    for _look in 0..u64::MAX {
        if found.len() >= limit {
            return Ok(found);
        }
        let look = next_look(alloc, noted, place)?;
        let Some(start) = look else {
            return Ok(found);
        };
        let next = rows.row_from(alloc, &start)?;
        let Some(row) = next else {
            return Ok(found);
        };
        if !is_of(entity, &row) {
            return Ok(found);
        }
        take_key(alloc, epoch, numbers, &row, &mut found)?;
        place = next_key_place(alloc, epoch, numbers, &row)?;
    }
    Err(RowsError::Memory)
}
