//! Rows of so many numbers, in no order.

use agg_outside::{Bytes, Memory, Row, RowId};
use std::alloc::Global;

/// A key of 20 bytes: different numbers have different keys, spread over all that eight bytes can be.
fn key_of(alloc: Global, number: u64) -> Result<Bytes, Memory> {
    let mut key = [7; 20];
    key[..8].copy_from_slice(&number.wrapping_mul(0x9e37_79b9_7f4a_7c15).to_be_bytes());
    Bytes::of(alloc, &key)
}

/// The row of a number, with a value of 32 bytes.
pub fn row_of(alloc: Global, number: u64, epoch: u64) -> Result<Row, Memory> {
    let mut value = [7; 32];
    value[..8].copy_from_slice(&number.to_be_bytes());
    Ok(Row {
        id: RowId {
            entity: 0,
            key: key_of(alloc, number)?,
            tx: number,
            born: epoch,
        },
        killed: 0,
        act: 0,
        value: Bytes::of(alloc, &value)?,
    })
}

/// The place behind all rows of a number's key.
pub fn end_of(alloc: Global, number: u64) -> Result<RowId, Memory> {
    Ok(RowId {
        entity: 0,
        key: key_of(alloc, number)?,
        tx: u64::MAX,
        born: u64::MAX,
    })
}

/// The place before all rows.
pub fn start(alloc: Global) -> Result<RowId, Memory> {
    Ok(RowId {
        entity: 0,
        key: Bytes::of(alloc, b"")?,
        tx: 0,
        born: 0,
    })
}

/// The least place above that of a row.
pub fn behind(row: Row) -> RowId {
    let RowId {
        entity,
        key,
        tx,
        born,
    } = row.id;
    RowId {
        entity,
        key,
        tx,
        born: born.saturating_add(1),
    }
}

/// The next of a row of numbers that look drawn at random.
pub fn next_random(random: u64) -> u64 {
    random
        .wrapping_mul(6364136223846793005)
        .wrapping_add(1442695040888963407)
}

/// A number below `count` at random, or 0 where that is 0.
pub fn drawn(random: u64, count: u64) -> u64 {
    if count == 0 {
        return 0;
    }
    (random >> 33) % count
}
