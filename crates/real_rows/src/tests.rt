use crate::SqlTable;
use agg_outside::{Bytes, Keeper, KeeperError, Memory, Row, RowId, RowWrite};
use real_devices::{SqlKeeper, Table};
use std::alloc::Global;
use std::fs;
use std::os::unix::fs::symlink;
use std::process::Abort;
use std::test::Fail;
use std::thread::{Threads, join};

// Ids in no order: of two entities, with keys of which one may begin another, and numbers of either end.
fn scattered(alloc: Global, n: u32) -> Result<RowId, Memory> {
    let mut key = Vec::new(alloc);
    for at in 0..n % 4 {
        key.push(if (n >> at) & 1 == 1 { 1 } else { 0 })?;
    }
    Ok(RowId {
        entity: if n % 2 == 1 { 1 } else { 0 },
        key: Bytes::from_vec(key),
        tx: if n % 3 == 0 {
            u64::MAX
        } else {
            u64::from(n % 5)
        },
        born: u64::from(n),
    })
}

fn row_of(alloc: Global, n: u32) -> Result<Row, Memory> {
    Ok(Row {
        id: scattered(alloc, n)?,
        killed: 0,
        act: 0,
        value: Bytes::of(alloc, &n.to_be_bytes())?,
    })
}

// So many rows, in no order, and the floor.
fn writes_of(alloc: Global, count: u32) -> Result<Vec<RowWrite>, Memory> {
    let mut writes = Vec::new(alloc);
    let mut n = 0u32;
    for _write in 0..count {
        n = next_of(n, count);
        writes.push(RowWrite::Insert(row_of(alloc, n)?))?;
    }
    writes.push(RowWrite::Floor(7))?;
    Ok(writes)
}

// Each number below the count comes once in so many steps, in an order that looks drawn at random, where the count has
// no prime divisors but 2, 3 and 5.
fn next_of(n: u32, count: u32) -> u32 {
    n.wrapping_mul(61)
        .wrapping_add(7919)
        .checked_rem(count)
        .unwrap_or(0)
}

// The last of them can't be made where there are so many rows.
fn writes_that_fail(alloc: Global, count: u32) -> Result<Vec<RowWrite>, Memory> {
    let mut writes = Vec::new(alloc);
    writes.push(RowWrite::Floor(9))?;
    writes.push(RowWrite::Remove(scattered(alloc, 0)?))?;
    writes.push(RowWrite::Insert(row_of(alloc, count)?))?;
    writes.push(RowWrite::Kill(scattered(alloc, count.wrapping_add(1))?, 5))?;
    Ok(writes)
}

fn sorted_ids(alloc: Global, count: u32) -> Result<Vec<RowId>, Memory> {
    let mut ids = Vec::new(alloc);
    for n in 0..count {
        ids.push(scattered(alloc, n)?)?;
    }
    ids.sort_unstable();
    Ok(ids)
}

// One life of a keeper: it is made, called and let go.
fn apply<T: Table>(alloc: Global, table: T, writes: &[RowWrite]) -> Result<(), KeeperError> {
    SqlKeeper::new(table).apply(alloc, writes)
}

// The rows of one apply, and the number of the last of them.
fn part_of(
    alloc: Global,
    last: u32,
    size: u32,
    count: u32,
) -> Result<(Vec<RowWrite>, u32), Memory> {
    let mut writes = Vec::new(alloc);
    let mut n = last;
    for _write in 0..size {
        n = next_of(n, count);
        writes.push(RowWrite::Insert(row_of(alloc, n)?))?;
    }
    Ok((writes, n))
}

// So many rows, in no order, so many in each apply.
fn apply_parts<T: Table>(
    alloc: Global,
    table: T,
    count: u32,
    size: u32,
) -> Result<(), KeeperError> {
    let mut keeper = SqlKeeper::new(table);
    let mut last = 0u32;
    for _part in 0..count.checked_div(size).unwrap_or(0) {
        let (writes, next) = part_of(alloc, last, size, count)?;
        keeper.apply(alloc, writes.as_slice())?;
        last = next;
    }
    Ok(())
}

fn floor_in<T: Table>(table: T) -> Result<u64, KeeperError> {
    SqlKeeper::new(table).floor()
}

fn ids_in<T: Table>(alloc: Global, table: T, limit: usize) -> Result<Vec<RowId>, KeeperError> {
    let first = RowId {
        entity: 0,
        key: Bytes::of(alloc, b"")?,
        tx: 0,
        born: 0,
    };
    let rows = SqlKeeper::new(table).scan_some(alloc, &first, limit)?;
    let mut ids = Vec::new(alloc);
    for row in rows.into_vec() {
        ids.push(row.id).map_err(|_| KeeperError::Memory)?;
    }
    Ok(ids)
}

// Whether each id is found at its place, and the one before it by a look back.
fn finds_each<T: Table>(alloc: Global, table: T, ids: &[RowId]) -> Result<bool, KeeperError> {
    let mut keeper = SqlKeeper::new(table);
    let mut last: Option<&RowId> = None;
    for id in ids {
        let found = keeper.seek(alloc, id)?;
        let before = keeper.seek_back(alloc, id)?;
        if !is_row_of(&found, Some(id)) || !is_row_of(&before, last) {
            return Ok(false);
        }
        last = Some(id);
    }
    Ok(true)
}

fn is_row_of(row: &Option<Row>, id: Option<&RowId>) -> bool {
    match (row, id) {
        (Some(row), Some(id)) => row.id == *id,
        (None, None) => true,
        _ => false,
    }
}

const ORDER: &str = "real_rows_order/rows.db";

#[test]
fn ten_thousand_rows_in_no_order_are_there_in_order_in_the_next_life(
    rt: HostRuntime,
) -> Result<(), Fail> {
    let alloc = rt.alloc();
    let _ = fs::remove_dir_all(&rt, "real_rows_order");
    fs::create_dir(&rt, "real_rows_order")?;
    apply_parts(alloc, SqlTable::at(&rt, ORDER), 10_000, 100)?;
    let ids = ids_in(alloc, SqlTable::at(&rt, ORDER), 10_001)?;
    assert!(rt; ids == sorted_ids(alloc, 10_000)?);
    assert_eq!(rt; ids_in(alloc, SqlTable::at(&rt, ORDER), 5)?.len(), 5);
    fs::remove_dir_all(&rt, "real_rows_order")?;
    Ok(())
}

const LOOKS: &str = "real_rows_looks/rows.db";

#[test]
fn a_look_finds_the_row_at_its_place_and_the_one_before(rt: HostRuntime) -> Result<(), Fail> {
    let alloc = rt.alloc();
    let _ = fs::remove_dir_all(&rt, "real_rows_looks");
    fs::create_dir(&rt, "real_rows_looks")?;
    let writes = writes_of(alloc, 40)?;
    apply(alloc, SqlTable::at(&rt, LOOKS), writes.as_slice())?;
    let ids = sorted_ids(alloc, 40)?;
    assert!(rt; finds_each(alloc, SqlTable::at(&rt, LOOKS), ids.as_slice())?);
    fs::remove_dir_all(&rt, "real_rows_looks")?;
    Ok(())
}

const PARTS: &str = "real_rows_parts/rows.db";

#[test]
fn an_apply_that_fails_at_its_end_leaves_none_of_it(rt: HostRuntime) -> Result<(), Fail> {
    let alloc = rt.alloc();
    let _ = fs::remove_dir_all(&rt, "real_rows_parts");
    fs::create_dir(&rt, "real_rows_parts")?;
    let writes = writes_of(alloc, 9)?;
    apply(alloc, SqlTable::at(&rt, PARTS), writes.as_slice())?;
    let more = writes_that_fail(alloc, 9)?;
    assert_eq!(rt;
        apply(alloc, SqlTable::at(&rt, PARTS), more.as_slice()),
        Err(KeeperError::Failed)
    );
    assert_eq!(rt; floor_in(SqlTable::at(&rt, PARTS)), Ok(7));
    let ids = ids_in(alloc, SqlTable::at(&rt, PARTS), 99)?;
    assert!(rt; ids == sorted_ids(alloc, 9)?);
    fs::remove_dir_all(&rt, "real_rows_parts")?;
    Ok(())
}

const TEXT: &str = "real_rows_text/rows.db";

#[test]
fn a_file_of_text_is_refused_and_left(rt: HostRuntime) -> Result<(), Fail> {
    let alloc = rt.alloc();
    let _ = fs::remove_dir_all(&rt, "real_rows_text");
    fs::create_dir(&rt, "real_rows_text")?;
    fs::write(&rt, TEXT, "Some text, and no table.")?;
    let writes = writes_of(alloc, 1)?;
    assert_eq!(rt;
        apply(alloc, SqlTable::at(&rt, TEXT), writes.as_slice()),
        Err(KeeperError::Failed)
    );
    assert_eq!(rt; floor_in(SqlTable::at(&rt, TEXT)), Err(KeeperError::Failed));
    let text = fs::read(&rt, TEXT)?;
    assert!(rt; text.as_slice() == b"Some text, and no table.".as_slice());
    fs::remove_dir_all(&rt, "real_rows_text")?;
    Ok(())
}

// The floor that a keeper answers to another thread, and the keeper, which comes back.
fn floor_of_another<R: Threads + Sync, T: Table + Send>(
    rt: &R,
    table: T,
) -> (Result<u64, KeeperError>, SqlKeeper<T>) {
    let mut keeper = SqlKeeper::new(table);
    let told = move || {
        let floor = keeper.floor();
        (floor, keeper)
    };
    join(rt, told, || ()).0
}

const SENT: &str = "real_rows_sent/rows.db";

#[test]
fn a_keeper_goes_to_a_thread_and_back(rt: HostRuntime) -> Result<(), Fail> {
    let alloc = rt.alloc();
    let _ = fs::remove_dir_all(&rt, "real_rows_sent");
    fs::create_dir(&rt, "real_rows_sent")?;
    let (first, mut keeper) = floor_of_another(&rt, SqlTable::at(&rt, SENT));
    assert_eq!(rt; first, Ok(0));
    assert!(rt; keeper.apply(alloc, &[RowWrite::Floor(3)]).is_ok());
    assert_eq!(rt; keeper.floor(), Ok(3));
    drop(keeper);
    fs::remove_dir_all(&rt, "real_rows_sent")?;
    Ok(())
}

// What a second table answers while the first one is held, and what the first one answers afterwards.
fn floors_of_both<T: Table, U: Table>(
    first: T,
    second: U,
) -> (Result<u64, KeeperError>, Result<u64, KeeperError>) {
    let mut first = SqlKeeper::new(first);
    let _held = first.floor();
    let other = floor_in(second);
    (other, first.floor())
}

const LOCKED: &str = "real_rows_locked/rows.db";

#[test]
fn a_file_that_is_held_is_refused_to_a_second_table(rt: HostRuntime) -> Result<(), Fail> {
    let _ = fs::remove_dir_all(&rt, "real_rows_locked");
    fs::create_dir(&rt, "real_rows_locked")?;
    let (second, first) = floors_of_both(SqlTable::at(&rt, LOCKED), SqlTable::at(&rt, LOCKED));
    assert_eq!(rt; second, Err(KeeperError::Failed));
    assert_eq!(rt; first, Ok(0));
    assert_eq!(rt; floor_in(SqlTable::at(&rt, LOCKED)), Ok(0));
    fs::remove_dir_all(&rt, "real_rows_locked")?;
    Ok(())
}

#[test]
fn a_file_that_cant_be_made_is_refused(rt: HostRuntime) -> Result<(), Fail> {
    let _ = fs::remove_dir_all(&rt, "real_rows_none");
    assert_eq!(rt;
        floor_in(SqlTable::at(&rt, "real_rows_none/rows.db")),
        Err(KeeperError::Failed)
    );
    assert!(rt; fs::metadata(&rt, "real_rows_none").is_err());
    fs::create_dir(&rt, "real_rows_none")?;
    assert_eq!(rt;
        floor_in(SqlTable::at(&rt, "real_rows_none")),
        Err(KeeperError::Failed)
    );
    fs::remove_dir(&rt, "real_rows_none")?;
    // The system refuses new files there to all, also to those who have every right.
    assert_eq!(rt;
        floor_in(SqlTable::at(&rt, "/proc/self/rows.db")),
        Err(KeeperError::Failed)
    );
    Ok(())
}

const FULL: &str = "real_rows_full/rows.db";

#[test]
fn a_device_that_is_full_is_refused(rt: HostRuntime) -> Result<(), Fail> {
    let alloc = rt.alloc();
    let _ = fs::remove_dir_all(&rt, "real_rows_full");
    fs::create_dir(&rt, "real_rows_full")?;
    symlink(&rt, "/dev/full", FULL)?;
    let writes = writes_of(alloc, 1)?;
    assert_eq!(rt;
        apply(alloc, SqlTable::at(&rt, FULL), writes.as_slice()),
        Err(KeeperError::Failed)
    );
    assert_eq!(rt; floor_in(SqlTable::at(&rt, FULL)), Err(KeeperError::Failed));
    fs::remove_dir_all(&rt, "real_rows_full")?;
    Ok(())
}
