//! Reads of rows in order.
ghost use Rattle.std.specs.Prelude.{◌≡◌, IsTrue, IfOk, slice_get, take};
ghost use Rattle.agg_outside.specs.Rows.{ascends, first_from, last_before, rows_from};
ghost use Rattle.agg_outside.specs.RowOrder.{IsPlace};

use agg_outside::{Memory, Row, RowId, Rowlist};
use std::alloc::Global;

/// How many rows are before the id, by a binary search.
pub fn place_of(rows: &[Row], id: &RowId) -> usize
    requires { IsTrue (ascends rows.now) }
    ensures { IsPlace id.now rows.now result }
{
    rows.partition_point(|row| row.id < *id)
}

fn row_at(alloc: Global, rows: &[Row], place: usize) -> Result<Option<Row>, Memory>
    ensures { IfOk result (λ row. row ≡ slice_get rows.now place) }
{
    match rows.get(place) {
        None => Ok(None),
        Some(row) => Ok(Some(row.copy(alloc)?)),
    }
}

/// The rows, copied.
pub fn copy_rows(alloc: Global, rows: &[Row]) -> Result<Rowlist, Memory>
    ensures { IfOk result (λ copies. copies ≡ rows.now) }
{
    let mut copies = Rowlist::new(alloc);
    for row in rows {
        copies.push(row.copy(alloc)?)?;
    }
    Ok(copies)
}

/// The first row not before the id.
pub fn first_row_from(alloc: Global, rows: &[Row], id: &RowId) -> Result<Option<Row>, Memory>
    requires { IsTrue (ascends rows.now) }
    ensures { IfOk result (λ row. row ≡ first_from id.now rows.now) }
{
    let place = place_of(rows, id);
    row_at(alloc, rows, place)
}

/// The last row before the id.
pub fn last_row_before(alloc: Global, rows: &[Row], id: &RowId) -> Result<Option<Row>, Memory>
    requires { IsTrue (ascends rows.now) }
    ensures { IfOk result (λ row. row ≡ last_before id.now rows.now) }
{
    let place = place_of(rows, id);
    if place == 0 {
        return Ok(None);
    }
    row_at(alloc, rows, place - 1)
}

fn front_of(rows: &[Row], limit: usize) -> &[Row]
    ensures { result.now ≡ take limit rows.now }
{
    &rows[..limit.min(rows.len())]
}

/// The first `limit` rows not before the id.
pub fn some_rows_from(
    alloc: Global,
    rows: &[Row],
    id: &RowId,
    limit: usize,
) -> Result<Rowlist, Memory>
    requires { IsTrue (ascends rows.now) }
    ensures { IfOk result (λ copies. copies ≡ take limit (rows_from id.now rows.now)) }
{
    let place = place_of(rows, id);
    let rest = &rows[place..];
    let front = front_of(rest, limit);
    copy_rows(alloc, front)
}
