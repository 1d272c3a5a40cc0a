ghost use Rattle.std.specs.Prelude.{◌≡◌, [], ◌≤◌, ◌^◌, ◌*◌, ◌+◌, length, IfOk};
ghost use Rattle.std.specs.Option.{ForSome};
ghost use Rattle.agg_model.specs.Batch.{content_of, value_length};
ghost use Rattle.state_store.specs.Store.{IsStore};

use super::*;
use agg_model::{Act, Batch, Change, Entity, check_batch};
use agg_outside::{Bytes, Disk, FileMap, Keeper, KeeperStart, Memory, Rowlist};
use memory_side::{MemDisk, MemKeeper};
use std::alloc::Global;
use std::process::Abort;
use std::rt::Clock;
use std::sync::Wait;
use std::test::Fail;
use std::thread::Threads;

// A key and a value of one byte each, put at number 5.
fn one_put(alloc: Global) -> Result<Batch, Memory>
    ensures { IfOk result (λ batch. content_of batch ≤ 2 ^ 28) }
{
    let mut batch = Batch::new(alloc);
    batch.push(Change {
        tx: 5,
        entity: Entity::Accounts,
        key: Bytes::of(alloc, &[0xaa])?,
        act: Act::Put(Bytes::of(alloc, &[1])?),
    })?;
    Ok(batch)
}

// A store that the put is accepted in, and a view from before. Its first step is complete then.
fn put_in<D: Disk, K: Keeper>(
    alloc: Global,
    disk: D,
    keeper: K,
) -> Result<(View, Store<D, K>), Fail>
    requires { ForSome (K.held keeper) (λ h. h.rows ≡ []) }
    ensures { IfOk result (λ r. IsStore (2 ^ 28) r.1) }
{
    let Ok(mut store) = Store::new(alloc, disk, keeper, 6) else {
        return Err(Fail::new("no store"));
    };
    let view = store.open()?;
    let batch = one_put(alloc)?;
    let Ok(()) = check_batch(0, 4096 * 6, &batch) else {
        return Err(Fail::new("a batch that can't be"));
    };
    let Ok(Some(accepted)) = store.accept(alloc, 1 << 28, batch) else {
        return Err(Fail::new("not accepted"));
    };
    if accepted
        != (Accepted {
            changes: 1,
            next: 6,
        })
    {
        return Err(Fail::new("something else is accepted"));
    }
    Ok((view, store))
}

// The same over an empty disk of which these calls fail.
fn store_over(alloc: Global, fails: &[u64]) -> Result<(View, Store<MemDisk, MemKeeper>), Fail>
    ensures { IfOk result (λ r. IsStore (2 ^ 28) r.1) }
{
    let rows = KeeperStart {
        rows: Rowlist::new(alloc),
        floor: 0,
    };
    let keeper = MemKeeper::new(alloc, &rows, &[])?;
    let disk = MemDisk::new(alloc, &FileMap::new(alloc), fails)?;
    put_in(alloc, disk, keeper)
}

#[test]
fn a_view_keeps_the_next_number_of_its_opening(rt: HostRuntime) -> Result<(), Fail> {
    let alloc = rt.alloc();
    let (early, mut store) = store_over(alloc, &[])?;
    let late = store.open()?;
    assert_eq!(rt; (early.next(), early.epoch), (0, 1));
    assert_eq!(rt; (late.next(), late.epoch), (6, 2));
    assert_eq!(rt; store.names(alloc)?.len(), 0);
    assert_eq!(rt; store.size(), 6);
    let (disk, keeper) = store.into_parts();
    assert_eq!(rt; disk.files().len(), 0);
    assert_eq!(rt; keeper.rows().len(), 1);
    Ok(())
}

fn settled<H: Threads + Wait + Clock + Sync, D: Disk, K: Keeper>(
    rt: &H,
    alloc: Global,
    store: &mut Store<D, K>,
) -> Result<(), Stop>
    requires { IsStore (2 ^ 28) store.old }
    ensures { IsStore (2 ^ 28) store.new }
{
    store.settle(rt, alloc)
}

fn expect_same_files(rt: &impl Abort, files: &FileMap, others: &FileMap) {
    assert_eq!(rt; files.len(), others.len());
    for file in files.as_slice() {
        let found = others.find(file.name.as_slice());
        assert!(rt; found.is_some());
        if let Some(bytes) = found {
            assert_eq!(rt; bytes.as_slice(), file.bytes.as_slice());
        }
    }
}

// The rename of the sixteenth file, and of the fourth of those that are written again.
const FAULTS: [u64; 2] = [32, 40];

#[test]
fn a_step_that_a_fault_stopped_is_written_whole_later(rt: HostRuntime) -> Result<(), Fail> {
    let alloc = rt.alloc();
    let (_, mut whole) = store_over(alloc, &[])?;
    settled(&rt, alloc, &mut whole)?;
    assert_eq!(rt; whole.disk.files().len(), 29);
    let (_, mut stopped) = store_over(alloc, &FAULTS)?;
    assert_eq!(rt; settled(&rt, alloc, &mut stopped), Err(Stop::Disk));
    assert_eq!(rt; stopped.disk.files().len(), 16);
    assert_eq!(rt; settled(&rt, alloc, &mut stopped), Err(Stop::Disk));
    assert_eq!(rt; stopped.disk.files().len(), 17);
    settled(&rt, alloc, &mut stopped)?;
    expect_same_files(&rt, stopped.disk.files(), whole.disk.files());
    Ok(())
}
