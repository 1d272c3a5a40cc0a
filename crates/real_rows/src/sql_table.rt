//! A table in a file.

use crate::commands::{
    Changes, Looks, apply_all, cause_of, floor_of, make_tables, one_row, prepare_changes,
    prepare_looks, some_rows,
};
use agg_outside::KeeperError;
use real_devices::{Record, Table, TableWrite};
use sqlite::{Connection, Error, File, FileStore};
use std::alloc::Global;

/// The rows and the floor in one file, which is opened, or made, at the first call and then held.
///
/// A write of a number of 2^63 and more, or of a value that is too big, is refused, and so is one that kills or
/// removes a row that isn't there, or inserts one that is.
#[derive(Drop)]
pub struct SqlTable<'a> {
    rt: &'a HostRuntime,
    path: &'a str,
    opened: Option<Opened>,
}

/// A file that is open.
#[derive(Drop)]
struct Opened {
    conn: Connection<FileStore<File>>,
    looks: Looks,
    changes: Changes,
}

impl<'a> SqlTable<'a> {
    /// The file `agg-rows.db` in the current folder. Nothing is touched before the first call.
    pub fn new(rt: &'a HostRuntime) -> SqlTable<'a> {
        SqlTable::at(rt, "agg-rows.db")
    }

    /// The same of another file, whose folder is there.
    pub fn at(rt: &'a HostRuntime, path: &'a str) -> SqlTable<'a> {
        SqlTable {
            rt,
            path,
            opened: None,
        }
    }

    fn open(&mut self) -> Result<&mut Opened, KeeperError> {
        if self.opened.is_none() {
            self.opened = Some(open(self.rt, self.path).map_err(cause_of)?);
        }
        self.opened.as_mut().ok_or(KeeperError::Failed)
    }
}

fn open(rt: &HostRuntime, path: &str) -> Result<Opened, Error> {
    let mut conn = Connection::open(rt, path)?;
    make_tables(&mut conn)?;
    let looks = prepare_looks(&mut conn)?;
    let changes = prepare_changes(&mut conn)?;
    Ok(Opened {
        conn,
        looks,
        changes,
    })
}

impl Table for SqlTable<'_> {
    fn row_from(&mut self, _alloc: Global, from: &[u8]) -> Result<Option<Record>, KeeperError> {
        let Opened { conn, looks, .. } = self.open()?;
        one_row(conn, &looks.from, from)
    }

    fn row_before(&mut self, _alloc: Global, before: &[u8]) -> Result<Option<Record>, KeeperError> {
        let Opened { conn, looks, .. } = self.open()?;
        one_row(conn, &looks.before, before)
    }

    fn rows_from(
        &mut self,
        alloc: Global,
        from: &[u8],
        limit: usize,
    ) -> Result<Vec<Record>, KeeperError> {
        let Opened { conn, looks, .. } = self.open()?;
        some_rows(alloc, conn, &looks.some, from, limit)
    }

    fn floor(&mut self) -> Result<u64, KeeperError> {
        let Opened { conn, looks, .. } = self.open()?;
        floor_of(conn, &looks.floor)
    }

    fn apply(&mut self, _alloc: Global, writes: &[TableWrite<'_>]) -> Result<(), KeeperError> {
        let Opened { conn, changes, .. } = self.open()?;
        apply_all(conn, changes, writes)
    }
}
