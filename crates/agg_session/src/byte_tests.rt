ghost use Rattle.std.specs.Prelude.{◌≤◌, ◌^◌};

use crate::made_sessions::Draws;
use crate::*;
use agg_outside::{FileMap, KeeperStart, Memory, Rowlist};
use memory_side::{SureDisk, SureKeeper, SureSink, SureSource};
use std::alloc::Global;
use std::rt::Clock;
use std::sync::Wait;
use std::test::Fail;
use std::thread::Threads;

// The disk that a run leaves which began with an empty one; `None` where it isn't done.
fn disk_left<H: Threads + Wait + Clock + Sync>(
    rt: &H,
    alloc: Global,
    size: u64,
    text: &[u8],
    sink: &mut SureSink,
) -> Result<Option<SureDisk>, Memory>
    requires from_one { 1 ≤ size }
    requires within { size ≤ 2 ^ 32 }
{
    let disk = SureDisk::new(alloc, &FileMap::new(alloc))?;
    let rows = KeeperStart {
        rows: Rowlist::new(alloc),
        floor: 0,
    };
    let keeper = SureKeeper::new(alloc, &rows)?;
    let mut source = SureSource::new(alloc, text)?;
    let limits = Limits::usual();
    let ended = run_plain(rt, alloc, disk, keeper, size, &limits, &mut source, sink);
    if ended.status != Status::Done {
        return Ok(None);
    }
    Ok(Some(ended.disk))
}

// The hash of no bytes: it is FNV-1a with 64 bits.
const EMPTY_HASH: u64 = 0xcbf2_9ce4_8422_2325;

// The hash of more bytes behind those of a hash.
fn hashed(before: u64, bytes: &[u8]) -> u64 {
    let mut hash = before;
    for byte in bytes {
        hash = (hash ^ *byte as u64).wrapping_mul(0x100_0000_01b3);
    }
    hash
}

// Of each file its name and then its bytes, the names ascending.
fn hashed_files(before: u64, files: &FileMap) -> u64 {
    let mut hash = before;
    for file in files.as_slice() {
        hash = hashed(hashed(hash, file.name.as_slice()), file.bytes.as_slice());
    }
    hash
}

// The lines of examples/blocks.txt.
const BLOCKS: &[u8] = b"\
    tx 0\nput accounts a1 64\nput accounts a2 32\ncommit\ntx 1\nput accounts a1 5a\nput accounts a2 3c\n\
    commit\ntx 2\nput code c1 6001\nput storage c101 00\nmark logaddrs c1\nmark tracesfrom a1\n\
    mark tracesto c1\ncommit\ntx 5\nput storage c101 2a\nput accounts a1 50\nmark logaddrs c1\n\
    mark logtopics dd\ncommit\nsettle\ntx 9\ndel accounts a2\nput storage c101 2b\nmark logaddrs c1\ncommit\n\
    settle\nopen\nlatest 1 accounts a1\nlatest 1 accounts a2\nlatest 1 code c1\nasof 1 accounts 2 a2\n\
    asof 1 storage 9 c101\nasof 1 storage 2 c101\nrange 1 accounts 9 - - 10\nrange 1 accounts 10 - - 10\n\
    range 1 accounts 1 - - 1\nhistory 1 storage 3 10 - 10\nhistory 1 accounts 0 2 - 10\n\
    index 1 logaddrs c1 0 10 asc 2\nindex 1 logaddrs c1 - - desc 10\nindex 1 tracesto c1 3 10 asc 10\n\
    close 1\n";

// What examples/file_bytes.py says of them; it writes the files from docs/formats.md.
const BLOCKS_HASH: u64 = 12549730969641508042;

#[test]
fn the_files_of_the_blocks_have_their_bytes(rt: HostRuntime) -> Result<(), Fail> {
    let mut sink = SureSink::empty(rt.alloc());
    let Some(disk) = disk_left(&rt, rt.alloc(), 4, BLOCKS, &mut sink)? else {
        return Err(Fail::new("not done"));
    };
    assert_eq!(rt; disk.files().len(), 58);
    assert_eq!(rt; hashed_files(EMPTY_HASH, disk.files()), BLOCKS_HASH);
    Ok(())
}

// Of thirty sessions the replies and then the files; `None` where one isn't done.
fn hashed_sessions<H: Threads + Wait + Clock + Sync>(
    rt: &H,
    alloc: Global,
    seed: u64,
) -> Result<Option<u64>, Memory> {
    let mut draws = Draws::new(seed);
    let mut hash = EMPTY_HASH;
    for _ in 0..30 {
        let size = draws.size();
        let text = draws.session(alloc, size)?;
        let mut sink = SureSink::empty(alloc);
        let Some(disk) = disk_left(rt, alloc, size, text.as_bytes(), &mut sink)? else {
            return Ok(None);
        };
        hash = hashed_files(hashed(hash, sink.bytes()), disk.files());
    }
    Ok(Some(hash))
}

// For each seed what examples/made_sessions.py says, by the plain list.
const MADE: [(u64, u64); 10] = [
    (1, 1376747881449795132),
    (2, 8566798159797080196),
    (3, 1155063677213729848),
    (4, 15525106391029562685),
    (5, 13049198434836172651),
    (6, 12486161579554553488),
    (7, 14434195902557782911),
    (8, 14133204568138717837),
    (9, 3264346785201306544),
    (10, 13802508592742549752),
];

#[test]
fn made_sessions_have_the_replies_and_files_of_the_plain_list(rt: HostRuntime) -> Result<(), Fail> {
    for (seed, hash) in MADE {
        assert_eq!(rt;
            hashed_sessions(&rt, rt.alloc(), seed)?,
            Some(hash),
            "of seed {seed}"
        );
    }
    Ok(())
}
