//! Rows that are put into a table, looked up at random and read in order.

use crate::numbers::{behind, drawn, end_of, next_random, row_of, start};
use agg_outside::{Keeper, KeeperError, RowWrite};
use real_devices::{SqlKeeper, Table};
use std::alloc::Global;

// One apply of the rows of these numbers.
fn apply_some<T: Table>(
    alloc: Global,
    keeper: &mut SqlKeeper<T>,
    first: u64,
    end: u64,
    epoch: u64,
) -> Result<(), KeeperError> {
    let mut writes = Vec::new(alloc);
    for number in first..end {
        let row = row_of(alloc, number, epoch)?;
        writes
            .push(RowWrite::Insert(row))
            .map_err(|_| KeeperError::Memory)?;
    }
    keeper.apply(alloc, writes.as_slice())
}

fn apply_all<T: Table>(
    alloc: Global,
    keeper: &mut SqlKeeper<T>,
    count: u64,
    size: u64,
) -> Result<(), KeeperError> {
    for round in 0..count.div_ceil(size.max(1)) {
        let first = round.wrapping_mul(size);
        let end = first.saturating_add(size).min(count);
        apply_some(alloc, keeper, first, end, round.saturating_add(1))?;
    }
    Ok(())
}

fn look_up<T: Table>(
    alloc: Global,
    keeper: &mut SqlKeeper<T>,
    count: u64,
    looks: u64,
) -> Result<u64, KeeperError> {
    let mut random = 1u64;
    let mut sum = 0u64;
    for _ in 0..looks {
        random = next_random(random);
        let end = end_of(alloc, drawn(random, count))?;
        if let Some(row) = keeper.seek_back(alloc, &end)? {
            sum = sum.wrapping_add(row.id.tx);
        }
    }
    Ok(sum)
}

fn scan_all<T: Table>(
    alloc: Global,
    keeper: &mut SqlKeeper<T>,
    piece: usize,
) -> Result<u64, KeeperError> {
    let mut from = start(alloc)?;
    let mut sum = 0u64;
    for _ in 0..u64::MAX {
        let rows = keeper.scan_some(alloc, &from, piece)?;
        let mut last = None;
        for row in rows.into_vec() {
            sum = sum.wrapping_add(row.id.tx);
            last = Some(row);
        }
        let Some(row) = last else {
            return Ok(sum);
        };
        from = behind(row);
    }
    Ok(sum)
}

/// Puts so many rows into a table, so many in each apply; answers their number.
pub fn applied<T: Table>(
    alloc: Global,
    table: T,
    count: u64,
    size: u64,
) -> Result<u64, KeeperError> {
    apply_all(alloc, &mut SqlKeeper::new(table), count, size)?;
    Ok(count)
}

/// The sum of the numbers of the rows that so many looks back find, each of a number below `count`.
pub fn looked<T: Table>(
    alloc: Global,
    table: T,
    count: u64,
    looks: u64,
) -> Result<u64, KeeperError> {
    let mut keeper = SqlKeeper::new(table);
    let floor = keeper.floor()?;
    let sum = look_up(alloc, &mut keeper, count, looks)?;
    Ok(sum.wrapping_add(floor))
}

/// The sum of the numbers of all rows, read in pieces of so many.
pub fn scanned<T: Table>(alloc: Global, table: T, piece: u64) -> Result<u64, KeeperError> {
    let piece = usize::try_from(piece).unwrap_or(usize::MAX);
    scan_all(alloc, &mut SqlKeeper::new(table), piece)
}
