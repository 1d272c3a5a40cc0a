ghost use Rattle.std.specs.Prelude.{◌≡◌, ◌≤◌, ◌^◌, IfOk};
ghost use Rattle.agg_session.specs.Top.{empty_held};
ghost use Rattle.memory_side.specs.MemoryKeepers.{mem_held};

use crate::*;
use agg_outside::*;
use memory_side::*;
use std::alloc::Global;
use std::process::Abort;
use std::rt::Clock;
use std::sync::Wait;
use std::test::Fail;
use std::thread::Threads;

pub(crate) const FIRST_PATH: &[u8] =
    b"tx 0\nput accounts aa 01\ncommit\nopen\nlatest 1 accounts aa\nlatest 1 accounts bb\nclose 1\n";

pub(crate) const FIRST_REPLIES: &[u8] = b"ok\nok\ncommitted 1 1\nopened 1 1\nvalue 01\nnone\nok\n";

// A keeper without a row, of which these calls fail.
pub(crate) fn empty_keeper(alloc: Global, fails: &[u64]) -> Result<MemKeeper, Memory>
    ensures { IfOk result (λ k. mem_held k ≡ empty_held) }
{
    let rows = KeeperStart {
        rows: Rowlist::new(alloc),
        floor: 0,
    };
    MemKeeper::new(alloc, &rows, fails)
}

// How a run at the usual step size ends, and how many rows it leaves.
pub(crate) fn ends<H: Threads + Wait + Clock + Sync, I: Source, O: Sink>(
    rt: &H,
    alloc: Global,
    limits: &Limits,
    keeper_fails: &[u64],
    source: &mut I,
    sink: &mut O,
) -> Result<(Status, usize), Memory>
    requires limit { limits.now.content ≤ 2 ^ 28 }
    requires bytes { limits.now.bytes ≤ 2 ^ 40 }
{
    let keeper = empty_keeper(alloc, keeper_fails)?;
    let disk = SureDisk::new(alloc, &FileMap::new(alloc))?;
    let ended = run_plain(rt, alloc, disk, keeper, 1_562_500, limits, source, sink);
    Ok((ended.status, ended.keeper.rows().len()))
}

pub(crate) fn words_of(alloc: Global, texts: &[&str]) -> Result<Vec<String>, Memory> {
    let mut words = Vec::new(alloc);
    for text in texts {
        words.push(String::from_str(alloc, text)?)?;
    }
    Ok(words)
}

// The top call over an empty disk and keeper, and no doors.
pub(crate) fn status_of_words<H: Threads + Wait + Clock + Sync, I: Source, O: Sink>(
    rt: &H,
    alloc: Global,
    words: &[String],
    source: &mut I,
    sink: &mut O,
) -> Result<Status, Memory> {
    let disk = SureDisk::new(alloc, &FileMap::new(alloc))?;
    let rows = KeeperStart {
        rows: Rowlist::new(alloc),
        floor: 0,
    };
    let keeper = SureKeeper::new(alloc, &rows)?;
    let mut doors = SureDoors::new(alloc, &Keys::new(alloc))?;
    let ended = aggregate(
        rt, alloc, words, source, sink, &mut doors, disk, keeper, &NoGate,
    );
    Ok(ended.status)
}

#[test]
fn pieces_of_one_byte_get_the_same_replies(rt: HostRuntime) -> Result<(), Fail> {
    let alloc = rt.alloc();
    let mut source = SureSource::new(alloc, FIRST_PATH)?;
    source.piece(1);
    let mut sink = SureSink::new(alloc, &[])?;
    let end = ends(&rt, alloc, &Limits::usual(), &[], &mut source, &mut sink)?;
    assert_eq!(rt; end, (Status::Done, 1));
    assert_eq!(rt; sink.bytes(), FIRST_REPLIES);
    Ok(())
}
