ghost use Rattle.std.specs.Prelude.{◌≤◌};

use crate::changes::{Sizes, add_groups, add_row};
use crate::reads::Lent;
use crate::tree_keeper::TreeKeeper;
use agg_model::{Act, Batch, Change, Entity, StepRows};
use agg_outside::{Bytes, Memory};
use collate_step::Inputs;
use epoch_window::EpochWindow;
use hot_keeper::Hot;
use row_epochs::{Rows, RowsError};
use std::alloc::Global;
use std::rt::Clock;
use std::sync::Wait;
use std::test::Fail;
use std::thread::Threads;
use window_pages::{Page, read_history, read_range};
use window_reads::{ReadError, TimesPage, Window, read_as_of, read_index, read_latest};

/// Numbers of a step; all changes fill five steps.
const SIZE: u64 = 2;

const STEPS: u64 = 5;

const NEXT: u64 = 10;

/// By entity, key and number: each key and value is one byte. A value of 0 is a deletion, or a mark.
const CHANGES: [(Entity, u8, u64, u8); 9] = [
    (Entity::Accounts, 0xaa, 5, 1),
    (Entity::Accounts, 0xaa, 9, 2),
    (Entity::Accounts, 0xbb, 0, 7),
    (Entity::Accounts, 0xbb, 3, 0),
    (Entity::Accounts, 0xdd, 7, 3),
    (Entity::LogAddrs, 0xcc, 1, 0),
    (Entity::LogAddrs, 0xcc, 4, 0),
    (Entity::LogAddrs, 0xcc, 6, 0),
    (Entity::LogAddrs, 0xcc, 9, 0),
];

/// A read of accounts, or of the numbers of a key. A bound of 0 is an open end.
#[derive(Clone, Copy)]
enum Read {
    Latest(u8),
    AsOf(u8, u64),
    Index(Entity, u8, u64, u64, bool, usize),
    History(u64, u64, u8, usize),
    Range(u64, u8, u8, usize),
}

use Read::{AsOf, History, Index, Latest, Range};

const READS: [Read; 25] = [
    AsOf(0xaa, 5),
    AsOf(0xaa, 6),
    AsOf(0xaa, 9),
    AsOf(0xaa, 10),
    AsOf(0xaa, 1000),
    AsOf(0xbb, 3),
    Latest(0xbb),
    Latest(0xaa),
    Index(Entity::Accounts, 0xaa, 0, u64::MAX, false, 10),
    Index(Entity::LogAddrs, 0xcc, 2, 10, true, 2),
    Index(Entity::LogAddrs, 0xcc, 2, 10, true, 3),
    Index(Entity::LogAddrs, 0xcc, 0, 6, false, 5),
    Index(Entity::LogAddrs, 0xcc, 4, 4, false, 5),
    Index(Entity::LogAddrs, 0xcc, 0, 10, false, 1),
    Index(Entity::LogAddrs, 0xcc, 0, 10, true, 1000),
    History(1, 4, 0, 10),
    History(0, 4, 0, 10),
    History(4, 4, 0, 10),
    History(0, 10, 0, 1),
    History(0, 10, 0xab, 1000),
    Range(10, 0, 0, 1),
    Range(10, 0, 0, 1000),
    Range(3, 0, 0, 10),
    Range(9, 0xaa, 0xdd, 10),
    Range(0, 0, 0, 10),
];

/// Behind it stands the next key or number.
const MORE: u8 = 0xfe;
/// No row or number comes behind.
const END: u8 = 0xff;

/// What each of the reads has to tell: a value, or 0 for none; numbers; or keys and their values.
const TOLD: [u8; 63] = [
    0, 1, 1, 2, 2, 7, 0, 2, //
    5, 9, END, //
    9, 6, MORE, 4, //
    9, 6, 4, END, //
    1, 4, END, //
    END, //
    1, MORE, 4, //
    9, 6, 4, 1, END, //
    0xbb, 7, END, //
    0xbb, 0, END, //
    END, //
    0xaa, 0, MORE, 0xbb, //
    0xbb, 0, 0xdd, 0, END, //
    0xaa, 2, MORE, 0xdd, //
    0xaa, 2, 0xdd, 3, END, //
    0xbb, 7, END, //
    0xaa, 1, END, //
    END,
];

// The changes with numbers from one on and below another.
fn changes_in(alloc: Global, from: u64, to: u64) -> Result<Batch, Memory> {
    let mut changes = Batch::new(alloc);
    for (entity, key, tx, value) in CHANGES {
        if from <= tx && tx < to {
            let act = if !entity.is_domain() {
                Act::Mark
            } else if value == 0 {
                Act::Del
            } else {
                Act::Put(Bytes::of(alloc, &[value])?)
            };
            let key = Bytes::of(alloc, &[key])?;
            changes.push(Change {
                tx,
                entity,
                key,
                act,
            })?;
        }
    }
    Ok(changes)
}

// The groups of the steps below the border.
fn files_below<H: Threads + Wait + Clock + Sync>(
    rt: &H,
    alloc: Global,
    border: u64,
) -> Result<Inputs, Memory>
    requires { border ≤ 5 }
{
    let mut files = Inputs::new(alloc);
    for step in 0..border {
        let changes = changes_in(alloc, step * SIZE, step * SIZE + SIZE)?;
        add_groups(rt, alloc, &mut files, &StepRows { step, changes }, SIZE)?;
    }
    Ok(files)
}

// The rows of the steps from the border on, over a keeper that fails at one call.
fn rows_from(alloc: Global, border: u64, fails: u64) -> Result<Hot<TreeKeeper>, RowsError>
    requires { border ≤ 5 }
{
    let mut hot = Hot::of(Rows::of(TreeKeeper::new(alloc), 0));
    for change in changes_in(alloc, border * SIZE, NEXT)?.into_vec() {
        add_row(alloc, change, &mut hot)?;
    }
    let epoch = hot.epoch();
    let mut keeper = hot.into_rows().into_keeper();
    keeper.calls = 0;
    keeper.fails = fails;
    Ok(Hot::of(Rows::of(keeper, epoch)))
}

fn byte_of(bytes: &Bytes) -> u8 {
    match bytes.as_slice().first() {
        Some(byte) => *byte,
        None => 0,
    }
}

fn value_told(alloc: Global, value: Option<&Bytes>) -> Result<Vec<u8>, Memory> {
    let mut told = Vec::new(alloc);
    told.push(value.map_or(0, byte_of))?;
    Ok(told)
}

fn end_told(told: &mut Vec<u8>, more: Option<u8>) -> Result<(), Memory> {
    match more {
        Some(byte) => {
            told.push(MORE)?;
            told.push(byte)?;
        }
        None => told.push(END)?,
    }
    Ok(())
}

fn page_told(alloc: Global, page: &Page) -> Result<Vec<u8>, Memory> {
    let mut told = Vec::new(alloc);
    for row in page.rows.as_slice() {
        told.push(byte_of(&row.key))?;
        told.push(row.value.as_ref().map_or(0, byte_of))?;
    }
    end_told(&mut told, page.more.as_ref().map(byte_of))?;
    Ok(told)
}

fn times_told(alloc: Global, page: &TimesPage) -> Result<Vec<u8>, Memory> {
    let mut told = Vec::new(alloc);
    for number in page.items.as_slice() {
        told.push(number.to_le_bytes()[0])?;
    }
    end_told(&mut told, page.more.map(|number| number.to_le_bytes()[0]))?;
    Ok(told)
}

// The bound that the byte stands for.
fn bound(key: &[u8; 1]) -> Option<&[u8]> {
    if key[0] == 0 { None } else { Some(key) }
}

fn told_of<W: Window>(
    lent: Lent<'_>,
    window: &mut W,
    read: Read,
) -> Result<Result<Vec<u8>, Memory>, ReadError> {
    let alloc = lent.alloc;
    let files = lent.files.as_slice();
    let accounts = Entity::Accounts;
    match read {
        Latest(key) => {
            let value = read_latest(alloc, files, window, SIZE, accounts, &[key])?;
            Ok(value_told(alloc, value.as_ref()))
        }
        AsOf(key, n) => {
            let value = read_as_of(alloc, files, window, SIZE, accounts, n, &[key])?;
            Ok(value_told(alloc, value.as_ref()))
        }
        Index(entity, key, a, b, back, limit) => {
            let most = limit.min(1000);
            let page = read_index(alloc, files, window, SIZE, entity, &[key], a, b, back, most)?;
            Ok(times_told(alloc, &page))
        }
        History(a, b, from, limit) => {
            let from = [from];
            let first = bound(&from);
            let page = read_history(alloc, files, window, SIZE, accounts, a, b, first, limit)?;
            Ok(page_told(alloc, &page))
        }
        Range(n, from, to, limit) => {
            let from = [from];
            let to = [to];
            let first = bound(&from);
            let end = bound(&to);
            let page = read_range(alloc, files, window, SIZE, accounts, n, first, end, limit)?;
            Ok(page_told(alloc, &page))
        }
    }
}

/// What all reads told, and how many of them failed for the keeper's fault and were made again.
#[derive(Drop)]
struct AllTold {
    bytes: Vec<u8>,
    failed: u64,
    faults: u64,
}

fn all_told<W: Window>(lent: Lent<'_>, window: &mut W) -> Result<(Vec<u8>, u64), Fail> {
    let mut bytes = Vec::new(lent.alloc);
    let mut failed: u64 = 0;
    for read in READS {
        let told = match told_of(lent, window, read) {
            Err(ReadError::Keeper) => {
                failed = failed.saturating_add(1);
                told_of(lent, window, read)?
            }
            told => told?,
        };
        bytes.extend_from_slice(told?.as_slice())?;
    }
    Ok((bytes, failed))
}

// What all reads tell over files up to the border and the rows behind them, with a keeper that fails at one call.
fn told_over(alloc: Global, files: &Inputs, border: u64, fails: u64) -> Result<AllTold, Fail>
    requires { border ≤ 5 }
{
    let mut hot = rows_from(alloc, border, fails)?;
    let epoch = hot.epoch();
    let mut window = EpochWindow::of(&mut hot, epoch, border, SIZE, NEXT);
    let sizes = Sizes {
        keys: SIZE,
        groups: border,
    };
    let lent = Lent {
        alloc,
        files,
        sizes,
    };
    let (bytes, failed) = all_told(lent, &mut window)?;
    let keeper = hot.into_rows().into_keeper();
    Ok(AllTold {
        bytes,
        failed,
        faults: keeper.faults,
    })
}

#[test]
fn the_reads_tell_the_same_over_every_border(rt: HostRuntime) -> Result<(), Fail> {
    let alloc = rt.alloc();
    for border in 0..STEPS + 1 {
        let files = files_below(&rt, alloc, border)?;
        let all = told_over(alloc, &files, border, 0)?;
        assert_eq!(rt; all.bytes.as_slice(), TOLD.as_slice(), "border {border}");
        assert_eq!(rt; all.faults, 0);
    }
    Ok(())
}

#[test]
fn a_fault_at_any_call_fails_one_read_and_is_counted(rt: HostRuntime) -> Result<(), Fail> {
    let alloc = rt.alloc();
    let files = files_below(&rt, alloc, 2)?;
    let mut faults: u64 = 0;
    for fails in 1..1000 {
        let all = told_over(alloc, &files, 2, fails)?;
        assert_eq!(rt; all.bytes.as_slice(), TOLD.as_slice(), "call {fails}");
        assert_eq!(rt; all.failed, all.faults, "call {fails}");
        faults = faults.saturating_add(all.faults);
    }
    // Each read but those that end below the border looks at rows, so there are more calls than such reads.
    assert!(rt; faults > 20 && faults < 999);
    Ok(())
}
