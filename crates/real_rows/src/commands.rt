//! The fixed texts of a table, prepared, and what each of them is run for.

use agg_outside::{KeeperError, Row as HeldRow};
use real_devices::{Record, TableWrite};
use sqlite::{Alter, Connection, Error, ErrorCode, Row, Statement, Transaction, params};
use std::alloc::Global;

const MAKE: &str = "BEGIN;
    CREATE TABLE IF NOT EXISTS entries
    (id BLOB PRIMARY KEY NOT NULL, killed INTEGER NOT NULL, act INTEGER NOT NULL, value BLOB NOT NULL) STRICT;
    CREATE TABLE IF NOT EXISTS floors (one INTEGER PRIMARY KEY, step INTEGER NOT NULL) STRICT;
    COMMIT";

const FROM: &str = "SELECT id, killed, act, value FROM entries WHERE id >= ?1 ORDER BY id LIMIT 1";

const BEFORE: &str =
    "SELECT id, killed, act, value FROM entries WHERE id < ?1 ORDER BY id DESC LIMIT 1";

const SOME: &str = "SELECT id, killed, act, value FROM entries WHERE id >= ?1 ORDER BY id LIMIT ?2";

const FLOOR: &str = "SELECT step FROM floors WHERE one = 1";

const INSERT: &str = "INSERT INTO entries (id, killed, act, value) VALUES (?1, ?2, ?3, ?4)";

const KILL: &str = "UPDATE entries SET killed = ?2 WHERE id = ?1";

const REMOVE: &str = "DELETE FROM entries WHERE id = ?1";

const SET_FLOOR: &str = "INSERT OR REPLACE INTO floors (one, step) VALUES (1, ?1)";

/// The looks of a table, prepared once.
#[derive(Drop)]
pub struct Looks {
    pub from: Statement,
    pub before: Statement,
    pub some: Statement,
    pub floor: Statement,
}

/// The writes of a table, prepared once.
#[derive(Drop)]
pub struct Changes {
    insert: Statement,
    kill: Statement,
    remove: Statement,
    set_floor: Statement,
}

/// Makes the tables where they are absent.
pub fn make_tables<S: Alter>(conn: &mut Connection<S>) -> Result<(), Error> {
    conn.execute_batch(MAKE)
}

pub fn prepare_looks<S: Alter>(conn: &mut Connection<S>) -> Result<Looks, Error> {
    Ok(Looks {
        from: prepare(conn, FROM)?,
        before: prepare(conn, BEFORE)?,
        some: prepare(conn, SOME)?,
        floor: prepare(conn, FLOOR)?,
    })
}

pub fn prepare_changes<S: Alter>(conn: &mut Connection<S>) -> Result<Changes, Error> {
    Ok(Changes {
        insert: prepare(conn, INSERT)?,
        kill: prepare(conn, KILL)?,
        remove: prepare(conn, REMOVE)?,
        set_floor: prepare(conn, SET_FLOOR)?,
    })
}

fn prepare<S: Alter>(conn: &mut Connection<S>, text: &str) -> Result<Statement, Error> {
    conn.prepare(text)
}

/// The row that a look finds.
pub fn one_row<S: Alter>(
    conn: &mut Connection<S>,
    look: &Statement,
    place: &[u8],
) -> Result<Option<Record>, KeeperError> {
    match look.query_row(conn, params![place]) {
        Ok(row) => Ok(Some(record_of(&row)?)),
        Err(Error::QueryReturnedNoRows) => Ok(None),
        Err(error) => Err(cause_of(error)),
    }
}

/// The rows that a look finds, at most so many.
pub fn some_rows<S: Alter>(
    alloc: Global,
    conn: &mut Connection<S>,
    look: &Statement,
    place: &[u8],
    limit: usize,
) -> Result<Vec<Record>, KeeperError> {
    let most = i64::try_from(limit).unwrap_or(i64::MAX);
    let rows = look
        .query_all(conn, params![place, most])
        .map_err(cause_of)?;
    records_of(alloc, rows.as_slice())
}

/// The floor; 0 where none was set.
pub fn floor_of<S: Alter>(conn: &mut Connection<S>, look: &Statement) -> Result<u64, KeeperError> {
    match look.query_row(conn, &[]) {
        Ok(row) => row.get(0).map_err(cause_of),
        Err(Error::QueryReturnedNoRows) => Ok(0),
        Err(error) => Err(cause_of(error)),
    }
}

/// All writes in one transaction, which is undone where one of them fails.
pub fn apply_all<S: Alter>(
    conn: &mut Connection<S>,
    changes: &Changes,
    writes: &[TableWrite<'_>],
) -> Result<(), KeeperError> {
    if !conn.is_autocommit() {
        return Err(KeeperError::Failed);
    }
    let mut transaction = conn.transaction();
    for write in writes {
        apply_one(&mut transaction, changes, write)?;
    }
    transaction.commit().map_err(cause_of)
}

fn apply_one<S: Alter>(
    transaction: &mut Transaction<'_, S>,
    changes: &Changes,
    write: &TableWrite<'_>,
) -> Result<(), KeeperError> {
    let count = match write {
        TableWrite::Insert(place, row) => insert(transaction, changes, place.as_slice(), row)?,
        TableWrite::Kill(place, epoch) => kill(transaction, changes, place.as_slice(), *epoch)?,
        TableWrite::Remove(place) => remove(transaction, changes, place.as_slice())?,
        TableWrite::Floor(step) => set_floor(transaction, changes, *step)?,
    };
    // A row that a write names is there, and one alone.
    if count == 1 {
        Ok(())
    } else {
        Err(KeeperError::Failed)
    }
}

fn insert<S: Alter>(
    transaction: &mut Transaction<'_, S>,
    changes: &Changes,
    place: &[u8],
    row: &HeldRow,
) -> Result<usize, KeeperError> {
    let killed = number_of(row.killed)?;
    let act = i64::from(row.act);
    let value = row.value.as_slice();
    transaction
        .execute_prepared(&changes.insert, params![place, killed, act, value])
        .map_err(cause_of)
}

fn kill<S: Alter>(
    transaction: &mut Transaction<'_, S>,
    changes: &Changes,
    place: &[u8],
    epoch: u64,
) -> Result<usize, KeeperError> {
    let killed = number_of(epoch)?;
    transaction
        .execute_prepared(&changes.kill, params![place, killed])
        .map_err(cause_of)
}

fn remove<S: Alter>(
    transaction: &mut Transaction<'_, S>,
    changes: &Changes,
    place: &[u8],
) -> Result<usize, KeeperError> {
    transaction
        .execute_prepared(&changes.remove, params![place])
        .map_err(cause_of)
}

fn set_floor<S: Alter>(
    transaction: &mut Transaction<'_, S>,
    changes: &Changes,
    step: u64,
) -> Result<usize, KeeperError> {
    let step = number_of(step)?;
    transaction
        .execute_prepared(&changes.set_floor, params![step])
        .map_err(cause_of)
}

// A number that a column can't hold is refused.
fn number_of(value: u64) -> Result<i64, KeeperError> {
    i64::try_from(value).map_err(|_| KeeperError::Failed)
}

fn records_of(alloc: Global, rows: &[Row]) -> Result<Vec<Record>, KeeperError> {
    let mut records = Vec::new(alloc);
    for row in rows {
        records
            .push(record_of(row)?)
            .map_err(|_| KeeperError::Memory)?;
    }
    Ok(records)
}

fn record_of(row: &Row) -> Result<Record, KeeperError> {
    let act: u32 = row.get(2).map_err(cause_of)?;
    Ok(Record {
        place: row.get(0).map_err(cause_of)?,
        killed: row.get(1).map_err(cause_of)?,
        act: u8::try_from(act).map_err(|_| KeeperError::Failed)?,
        value: row.get(3).map_err(cause_of)?,
    })
}

/// Want of memory is no fault of the database's.
pub fn cause_of(error: Error) -> KeeperError {
    match error {
        Error::SqliteFailure(ErrorCode::OutOfMemory) => KeeperError::Memory,
        _ => KeeperError::Failed,
    }
}
