ghost use Rattle.std.specs.Prelude.{◌≡◌, [], IfOk};

use crate::tests::empty_keeper;
use crate::*;
use agg_outside::*;
use memory_side::*;
use std::alloc::Global;
use std::rt::Clock;
use std::sync::Wait;
use std::test::Fail;
use std::thread::Threads;

// A disk without a file, of which these calls fail.
fn empty_disk(alloc: Global, fails: &[u64]) -> Result<MemDisk, Memory>
    ensures { IfOk result (λ d. d.files ≡ []) }
{
    MemDisk::new(alloc, &FileMap::new(alloc), fails)
}

// How a run in steps of four numbers ends, and how many files it leaves, temporary ones too.
fn files_left<H: Threads + Wait + Clock + Sync>(
    rt: &H,
    alloc: Global,
    fails: &[u64],
    text: &[u8],
    sink: &mut SureSink,
) -> Result<(Status, usize), Memory> {
    let disk = empty_disk(alloc, fails)?;
    let keeper = empty_keeper(alloc, &[])?;
    let mut source = SureSource::new(alloc, text)?;
    let limits = Limits::usual();
    let ended = run_plain(rt, alloc, disk, keeper, 4, &limits, &mut source, sink);
    Ok((ended.status, ended.disk.files().len()))
}

// A step that is complete at the first commit, and one at the second.
const TWO_STEPS: &[u8] =
    b"tx 0\nput accounts aa 01\ntx 5\nput accounts bb 02\ncommit\ntx 8\nput accounts aa 03\ncommit\n";

const TWO_STEPS_REPLIES: &[u8] = b"ok\nok\nok\nok\ncommitted 2 6\nok\nok\ncommitted 1 9\n";

// Of the run in which this call of the disk fails there are so many files.
const FILES_LEFT: [(u64, usize); 6] = [(1, 0), (2, 1), (3, 1), (4, 2), (59, 29), (60, 30)];

#[test]
fn a_disk_that_fails_leaves_whole_files_and_one_temporary_name(
    rt: HostRuntime,
) -> Result<(), Fail> {
    let alloc = rt.alloc();
    for (call, files) in FILES_LEFT {
        let mut sink = SureSink::empty(alloc);
        let left = files_left(&rt, alloc, &[call], TWO_STEPS, &mut sink)?;
        assert_eq!(rt; left, (Status::DiskFault, files));
        assert_eq!(rt; sink.bytes(), TWO_STEPS_REPLIES);
    }
    Ok(())
}
