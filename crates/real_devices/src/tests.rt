use crate::{DirDisk, Record, SqlKeeper, Table, TableWrite};
use agg_outside::{Bytes, Disk, DiskError, Keeper, KeeperError, Memory, Row, RowId, RowWrite};
use std::alloc::Global;
use std::fs;
use std::os::unix::fs::symlink;
use std::process::Abort;
use std::test::Fail;

/// Rows in the order of their places, in memory.
#[derive(Drop)]
struct ListTable {
    rows: Vec<Record>,
    floor: u64,
}

fn copied(alloc: Global, row: &Record) -> Result<Record, Memory> {
    Ok(Record {
        place: Vec::from_slice(alloc, row.place.as_slice())?,
        killed: row.killed,
        act: row.act,
        value: Vec::from_slice(alloc, row.value.as_slice())?,
    })
}

fn copied_if_any(alloc: Global, found: Option<&Record>) -> Result<Option<Record>, KeeperError> {
    match found {
        Some(row) => Ok(Some(copied(alloc, row)?)),
        None => Ok(None),
    }
}

fn inserted(alloc: Global, place: &[u8], row: &Row) -> Result<Record, Memory> {
    Ok(Record {
        place: Vec::from_slice(alloc, place)?,
        killed: row.killed,
        act: row.act,
        value: Vec::from_slice(alloc, row.value.as_slice())?,
    })
}

impl Table for ListTable {
    fn row_from(&mut self, alloc: Global, from: &[u8]) -> Result<Option<Record>, KeeperError> {
        let mut found = None;
        for row in self.rows.as_slice() {
            if found.is_none() && row.place.as_slice() >= from {
                found = Some(row);
            }
        }
        copied_if_any(alloc, found)
    }

    fn row_before(&mut self, alloc: Global, before: &[u8]) -> Result<Option<Record>, KeeperError> {
        let mut found = None;
        for row in self.rows.as_slice() {
            if row.place.as_slice() < before {
                found = Some(row);
            }
        }
        copied_if_any(alloc, found)
    }

    fn rows_from(
        &mut self,
        alloc: Global,
        from: &[u8],
        limit: usize,
    ) -> Result<Vec<Record>, KeeperError> {
        let mut found = Vec::new(alloc);
        for row in self.rows.as_slice() {
            if found.len() < limit && row.place.as_slice() >= from {
                found
                    .push(copied(alloc, row)?)
                    .map_err(|_| KeeperError::Memory)?;
            }
        }
        Ok(found)
    }

    fn floor(&mut self) -> Result<u64, KeeperError> {
        Ok(self.floor)
    }

    fn apply(&mut self, alloc: Global, writes: &[TableWrite<'_>]) -> Result<(), KeeperError> {
        for write in writes {
            match write {
                TableWrite::Insert(place, row) => {
                    let row = inserted(alloc, place.as_slice(), row)?;
                    self.rows.push(row).map_err(|_| KeeperError::Memory)?;
                }
                TableWrite::Floor(step) => self.floor = *step,
                _ => return Err(KeeperError::Failed),
            }
        }
        self.rows
            .sort_unstable_by(|a, b| a.place.as_slice().cmp(&b.place.as_slice()));
        Ok(())
    }
}

// Ids in no order: of two entities, with keys of which one may begin another, and numbers of either end.
fn scattered(alloc: Global, n: u8) -> Result<RowId, Memory> {
    let mut key = Vec::new(alloc);
    for at in 0..n % 4 {
        key.push((n >> at) & 1)?;
    }
    Ok(RowId {
        entity: n % 2,
        key: Bytes::from_vec(key),
        tx: if n % 3 == 0 {
            u64::MAX
        } else {
            u64::from(n % 5)
        },
        born: u64::from(n),
    })
}

fn row_of(alloc: Global, n: u8) -> Result<Row, Memory> {
    Ok(Row {
        id: scattered(alloc, n)?,
        killed: 0,
        act: 0,
        value: Bytes::of(alloc, &[n])?,
    })
}

fn sorted_ids(alloc: Global, count: u8) -> Result<Vec<RowId>, Memory> {
    let mut ids = Vec::new(alloc);
    for n in 0..count {
        ids.push(scattered(alloc, n)?)?;
    }
    ids.sort_unstable();
    Ok(ids)
}

fn filled(alloc: Global, count: u8) -> Result<SqlKeeper<ListTable>, KeeperError> {
    let mut writes = Vec::new(alloc);
    for n in 0..count {
        writes
            .push(RowWrite::Insert(row_of(alloc, n)?))
            .map_err(|_| KeeperError::Memory)?;
    }
    writes
        .push(RowWrite::Floor(7))
        .map_err(|_| KeeperError::Memory)?;
    let mut keeper = SqlKeeper::new(ListTable {
        rows: Vec::new(alloc),
        floor: 0,
    });
    keeper.apply(alloc, writes.as_slice())?;
    Ok(keeper)
}

#[test]
fn rows_in_any_order_come_back_in_order(rt: HostRuntime) -> Result<(), Fail> {
    let alloc = rt.alloc();
    let mut keeper = filled(alloc, 32)?;
    let ids = sorted_ids(alloc, 32)?;
    let first = RowId {
        entity: 0,
        key: Bytes::of(alloc, b"")?,
        tx: 0,
        born: 0,
    };
    let rows = keeper.scan_some(alloc, &first, 33)?;
    assert_eq!(rt; rows.len(), 32);
    for (row, id) in rows.as_slice().iter().zip(ids.as_slice()) {
        assert!(rt; row.id == *id);
    }
    assert_eq!(rt; keeper.scan_some(alloc, &first, 5)?.len(), 5);
    assert_eq!(rt; keeper.floor(), Ok(7));
    Ok(())
}

#[test]
fn a_look_finds_the_row_at_its_place_and_the_one_before(rt: HostRuntime) -> Result<(), Fail> {
    let alloc = rt.alloc();
    let mut keeper = filled(alloc, 32)?;
    let ids = sorted_ids(alloc, 32)?;
    let mut last: Option<&RowId> = None;
    for id in ids.as_slice() {
        let found = keeper.seek(alloc, id)?;
        assert!(rt; found.is_some_and(|row| row.id == *id));
        match (keeper.seek_back(alloc, id)?, last) {
            (Some(row), Some(last)) => assert!(rt; row.id == *last),
            (found, last) => assert!(rt; found.is_none() && last.is_none()),
        }
        last = Some(id);
    }
    Ok(())
}

const FILES: &str = "real_devices_files";

#[test]
fn files_are_there_in_the_next_life(rt: HostRuntime) -> Result<(), Fail> {
    let alloc = rt.alloc();
    let _ = fs::remove_dir_all(&rt, FILES);
    let mut disk = DirDisk::at(&rt, FILES);
    disk.write_new(alloc, b"b", b"one")?;
    disk.write_new(alloc, b"a", b"two")?;
    disk.write_new(alloc, b"c", b"")?;
    disk.rename(alloc, b"b", b"d")?;
    disk.remove(alloc, b"a")?;
    disk.remove(alloc, b"a")?;
    drop(disk);
    let mut again = DirDisk::at(&rt, FILES);
    let names = again.list(alloc)?;
    assert_eq!(rt; names.len(), 2);
    assert!(rt;
        names
            .get(0)
            .is_some_and(|name| name.as_slice() == b"c".as_slice())
    );
    assert!(rt;
        names
            .get(1)
            .is_some_and(|name| name.as_slice() == b"d".as_slice())
    );
    assert!(rt; again.read(alloc, b"d")?.as_slice() == b"one".as_slice());
    assert!(rt; again.read(alloc, b"c")?.as_slice().is_empty());
    fs::remove_dir_all(&rt, FILES)?;
    Ok(())
}

const UNFIT: &str = "real_devices_unfit";

#[test]
fn a_name_that_no_file_can_have_touches_nothing(rt: HostRuntime) -> Result<(), Fail> {
    let alloc = rt.alloc();
    let _ = fs::remove_dir_all(&rt, UNFIT);
    let mut disk = DirDisk::at(&rt, UNFIT);
    for name in [b"".as_slice(), b".", b"..", b"a/b", b"a\0"] {
        assert_eq!(rt; disk.write_new(alloc, name, b"x"), Err(DiskError::Failed));
    }
    assert_eq!(rt; disk.rename(alloc, b"a", b"../a"), Err(DiskError::Failed));
    assert!(rt; fs::metadata(&rt, UNFIT).is_err());
    Ok(())
}

const TEXT: &str = "real_devices_text";

#[test]
fn a_file_in_place_of_the_folder_is_refused_and_left(rt: HostRuntime) -> Result<(), Fail> {
    let alloc = rt.alloc();
    fs::write(&rt, TEXT, "text")?;
    let mut disk = DirDisk::at(&rt, TEXT);
    assert!(rt; disk.list(alloc).is_err());
    assert_eq!(rt; disk.write_new(alloc, b"a", b"x"), Err(DiskError::Failed));
    assert_eq!(rt; disk.remove(alloc, b"a"), Err(DiskError::Failed));
    assert!(rt; fs::read(&rt, TEXT)?.as_slice() == b"text".as_slice());
    fs::remove_file(&rt, TEXT)?;
    Ok(())
}

#[test]
fn a_folder_that_nobody_may_write_is_refused(rt: HostRuntime) -> Result<(), Fail> {
    let alloc = rt.alloc();
    // The system refuses new files there to all, also to those who have every right.
    let mut disk = DirDisk::at(&rt, "/proc/self");
    assert_eq!(rt; disk.write_new(alloc, b"a", b"x"), Err(DiskError::Failed));
    assert_eq!(rt; disk.rename(alloc, b"status", b"a"), Err(DiskError::Failed));
    assert_eq!(rt; disk.remove(alloc, b"status"), Err(DiskError::Failed));
    Ok(())
}

const FULL: &str = "real_devices_full";

#[test]
fn a_full_device_is_refused_and_the_next_file_is_written(rt: HostRuntime) -> Result<(), Fail> {
    let alloc = rt.alloc();
    let _ = fs::remove_dir_all(&rt, FULL);
    fs::create_dir(&rt, FULL)?;
    symlink(&rt, "/dev/full", "real_devices_full/a")?;
    let mut disk = DirDisk::at(&rt, FULL);
    assert_eq!(rt; disk.write_new(alloc, b"a", b"x"), Err(DiskError::Failed));
    assert_eq!(rt; disk.write_new(alloc, b"b", b"x"), Ok(()));
    assert!(rt; disk.read(alloc, b"b")?.as_slice() == b"x".as_slice());
    fs::remove_dir_all(&rt, FULL)?;
    Ok(())
}
