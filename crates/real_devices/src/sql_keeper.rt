//! Rows in a table as a keeper.
ghost use Rattle.std.specs.Prelude.{◌≡◌, ◌≤◌, None, IfOk, length};
ghost use Rattle.real_devices.specs.Faults.{keeper_count};
ghost use Rattle.real_devices.specs.IdBytes.{id_bytes};

use crate::place::{id_at, place_of};
use crate::table::{Record, Table, TableWrite};
use agg_outside::{Bytes, Keeper, KeeperError, Memory, Row, RowId, RowWrite, Rowlist};
use std::alloc::Global;
use std::marker::Model;

/// Keeps its rows in a table, by the bytes of their ids, and counts the calls that it refused.
///
/// Want of memory is no fault; every other refusal of the table is, and so is a row of the table that
/// isn't the spelling of one.
#[derive(Drop)]
pub struct SqlKeeper<T> {
    table: T,
    faults: u64,
}

impl<T> Model for SqlKeeper<T> {
    ghost use Rattle.std.specs.Prelude.{ℕ};

    ghost Value = { ℕ };

    ghost view = { λ k. k.faults };
}

impl<T> SqlKeeper<T> {
    /// A keeper over a table. Nothing of it is touched before the first call.
    pub fn new(table: T) -> SqlKeeper<T>
        ensures { result ≡ 0 }
    {
        SqlKeeper { table, faults: 0 }
    }

    // Answers how a call ended, and counts a refusal.
    fn end<V: Drop>(&mut self, done: Result<V, KeeperError>) -> Result<V, KeeperError>
        ensures same { result ≡ done }
        ensures counted { self.new ≡ keeper_count self.old done }
    {
        if let Err(KeeperError::Failed) = &done {
            self.faults = self.faults.saturating_add(1);
        }
        done
    }
}

impl<T: Table> SqlKeeper<T> {
    fn first_row(&mut self, alloc: Global, from: &RowId) -> Result<Option<Row>, KeeperError>
        ensures { self.new ≡ self.old }
    {
        let place = place_of(alloc, from)?;
        let found = self.table.row_from(alloc, place.as_slice())?;
        row_if_any(alloc, found)
    }

    fn last_row(&mut self, alloc: Global, before: &RowId) -> Result<Option<Row>, KeeperError>
        ensures { self.new ≡ self.old }
    {
        let place = place_of(alloc, before)?;
        let found = self.table.row_before(alloc, place.as_slice())?;
        row_if_any(alloc, found)
    }

    fn some_rows(
        &mut self,
        alloc: Global,
        from: &RowId,
        limit: usize,
    ) -> Result<Rowlist, KeeperError>
        ensures same { self.new ≡ self.old }
        ensures within { IfOk result (λ rows. length rows ≤ limit) }
    {
        let place = place_of(alloc, from)?;
        let found = self.table.rows_from(alloc, place.as_slice(), limit)?;
        let rows = rows_of(alloc, found)?;
        if rows.len() > limit {
            return Err(KeeperError::Failed);
        }
        Ok(rows)
    }

    fn write(&mut self, alloc: Global, writes: &[RowWrite]) -> Result<(), KeeperError>
        ensures { self.new ≡ self.old }
    {
        let writes = table_writes(alloc, writes)?;
        self.table.apply(alloc, writes.as_slice())
    }
}

impl<T: Table> Keeper for SqlKeeper<T> {
    ghost faults = { λ k. k };

    ghost held = { λ _. None };

    ghost in_order = { λ _. tt };

    fn seek(&mut self, alloc: Global, from: &RowId) -> Result<Option<Row>, KeeperError>
        ensures { self.new ≡ keeper_count self.old result }
    {
        let done = self.first_row(alloc, from);
        self.end(done)
    }

    fn seek_back(&mut self, alloc: Global, before: &RowId) -> Result<Option<Row>, KeeperError>
        ensures { self.new ≡ keeper_count self.old result }
    {
        let done = self.last_row(alloc, before);
        self.end(done)
    }

    fn scan_some(
        &mut self,
        alloc: Global,
        from: &RowId,
        limit: usize,
    ) -> Result<Rowlist, KeeperError>
        ensures counted { self.new ≡ keeper_count self.old result }
        ensures within { IfOk result (λ rows. length rows ≤ limit) }
    {
        let done = self.some_rows(alloc, from, limit);
        self.end(done)
    }

    fn floor(&mut self) -> Result<u64, KeeperError>
        ensures { self.new ≡ keeper_count self.old result }
    {
        let done = self.table.floor();
        self.end(done)
    }

    fn apply(&mut self, alloc: Global, writes: &[RowWrite]) -> Result<(), KeeperError>
        ensures { self.new ≡ keeper_count self.old result }
    {
        let done = self.write(alloc, writes);
        self.end(done)
    }
}

fn row_if_any(alloc: Global, found: Option<Record>) -> Result<Option<Row>, KeeperError> {
    match found {
        Some(record) => Ok(Some(row_of(alloc, record)?)),
        None => Ok(None),
    }
}

// The row that a table has; a place that is no id's is refused.
fn row_of(alloc: Global, found: Record) -> Result<Row, KeeperError>
    ensures { IfOk result (λ row. id_bytes row.id ≡ found.place.items) }
{
    let Record {
        place,
        killed,
        act,
        value,
    } = found;
    let Some(id) = id_at(alloc, place.as_slice())? else {
        return Err(KeeperError::Failed);
    };
    Ok(Row {
        id,
        killed,
        act,
        value: Bytes::from_vec(value),
    })
}

fn rows_of(alloc: Global, records: Vec<Record>) -> Result<Rowlist, KeeperError> {
    let mut rows = Rowlist::new(alloc);
    for record in records {
        rows.push(row_of(alloc, record)?)?;
    }
    Ok(rows)
}

fn table_writes<'a>(alloc: Global, writes: &'a [RowWrite]) -> Result<Vec<TableWrite<'a>>, Memory> {
    let mut made = Vec::new(alloc);
    for write in writes {
        made.push(table_write(alloc, write)?)?;
    }
    Ok(made)
}

fn table_write<'a>(alloc: Global, write: &'a RowWrite) -> Result<TableWrite<'a>, Memory> {
    Ok(match write {
        RowWrite::Insert(row) => TableWrite::Insert(place_of(alloc, &row.id)?, row),
        RowWrite::Kill(id, epoch) => TableWrite::Kill(place_of(alloc, id)?, *epoch),
        RowWrite::Remove(id) => TableWrite::Remove(place_of(alloc, id)?),
        RowWrite::Floor(step) => TableWrite::Floor(*step),
    })
}
