//! The numbers of one key's changes in a window.
ghost use Rattle.std.specs.Prelude.{◌≡◌, ◌++◌, take, reverse, IfSome, IfOk, OnOk};
ghost use Rattle.agg_outside.specs.Counts.{HasCause};
ghost use Rattle.agg_model.specs.Contents.{times};
ghost use Rattle.row_epochs.specs.Errors.{IsUnworn};
ghost use Rattle.row_epochs.specs.Changes.{changes_seen};
ghost use Rattle.row_epochs.specs.Versions.{AreVersions};
ghost use Rattle.hot_keeper.specs.Windows.{numbers_with};

use agg_model::{Entity, Range};
use agg_outside::{Keeper, Memory, Numbers, Row};
use row_epochs::{Rows, RowsError, behind, is_before, is_seen, place_at};
use std::alloc::Global;

// Adds the row's number, where the epoch sees it.
fn take_number(epoch: u64, row: &Row, found: &mut Numbers) -> Result<(), Memory>
    ensures { OnOk result (found.new ≡ found.old ++ numbers_with epoch row.now) }
{
    if is_seen(epoch, row) {
        found.push(row.id.tx)?;
    }
    Ok(())
}

/// The first `limit` numbers in the range at which the epoch sees a change of the key. Over a keeper that
/// tells its rows the bound on the looks is never met: each is behind the one before.
pub fn times_up<K: Keeper>(
    rows: &mut Rows<K>,
    alloc: Global,
    epoch: u64,
    entity: Entity,
    key: &[u8],
    numbers: Range,
    limit: usize,
) -> Result<Numbers, RowsError>
    requires { IfSome rows.old.told (AreVersions rows.old.epoch) }
    ensures numbers { IfSome rows.old.told (λ h. IfOk result
        (λ found. found ≡ take limit (times (changes_seen epoch h.rows) entity key.now numbers.from numbers.to))) }
    ensures same { rows.new ≡ record rows.old { faults = rows.new.faults } }
    ensures unworn { IsUnworn result }
    ensures cause { HasCause RowsError.Keeper rows.old.faults rows.new.faults result }
{
    let high = place_at(alloc, entity, key, numbers.to)?;
    let mut place = place_at(alloc, entity, key, numbers.from)?;
    let mut found = Numbers::new(alloc);
    for _look in 0..u64::MAX {
        if found.len() >= limit {
            return Ok(found);
        }
        let next = rows.row_from(alloc, &place)?;
        let Some(row) = next else {
            return Ok(found);
        };
        if !is_before(&row.id, &high) {
            return Ok(found);
        }
        take_number(epoch, &row, &mut found)?;
        place = behind(alloc, &row.id)?;
    }
    Err(RowsError::Memory)
}

/// The same from the last number down.
pub fn times_down<K: Keeper>(
    rows: &mut Rows<K>,
    alloc: Global,
    epoch: u64,
    entity: Entity,
    key: &[u8],
    numbers: Range,
    limit: usize,
) -> Result<Numbers, RowsError>
    requires { IfSome rows.old.told (AreVersions rows.old.epoch) }
    ensures numbers { IfSome rows.old.told (λ h. IfOk result (λ found. found ≡ take limit
        (reverse (times (changes_seen epoch h.rows) entity key.now numbers.from numbers.to)))) }
    ensures same { rows.new ≡ record rows.old { faults = rows.new.faults } }
    ensures unworn { IsUnworn result }
    ensures cause { HasCause RowsError.Keeper rows.old.faults rows.new.faults result }
{
    let low = place_at(alloc, entity, key, numbers.from)?;
    let mut place = place_at(alloc, entity, key, numbers.to)?;
    let mut found = Numbers::new(alloc);
    for _look in 0..u64::MAX {
        if found.len() >= limit {
            return Ok(found);
        }
        let next = rows.row_before(alloc, &place)?;
        let Some(row) = next else {
            return Ok(found);
        };
        if is_before(&row.id, &low) {
            return Ok(found);
        }
        take_number(epoch, &row, &mut found)?;
        place = row.id;
    }
    Err(RowsError::Memory)
}
