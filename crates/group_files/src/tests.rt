ghost use Rattle.std.specs.Prelude.{◌<◌};

use super::*;
use agg_model::{Act, Batch, Change, Entity, StepRows};
use agg_outside::{Bytes, Disk, DiskError, FileMap};
use collate_step::{Inputs, collate};
use memory_side::MemDisk;
use std::alloc::Global;
use std::rt::Clock;
use std::sync::{Arc, Wait};
use std::test::Fail;
use std::thread::Threads;

// The first of the 29 files of a step, and what it holds of one put at number 0 with steps of one number.
const FIRST: &[u8] = b"v1-accounts.0-1.kv";

const BYTES: [u8; 50] = [
    0x41, 0x47, 0x57, 0x31, 0, 0, 0, 1, 0, 0, 0, 0, 0, 0, 0, 1, 0, 0, 0, 0, 0, 0, 0, 0, 0, 0, 0, 0,
    0, 0, 0, 1, 0, 0, 0, 0, 0, 0, 0, 2, 0, 0, 0, 1, 0xaa, 0, 0, 0, 1, 1,
];

// The eighth.
const EIGHTH: &[u8] = b"v1-storage.0-1.kv";

const EIGHTH_TEMPORARY: &[u8] = b"v1-storage.0-1.kv.tmp";

// The call that renames the eighth: each file has two.
const EIGHTH_RENAME: u64 = 16;

const FILES_OF_A_STEP: usize = 29;

fn one_put<H: Threads + Wait + Clock + Sync>(rt: &H, alloc: Global) -> Result<Inputs, Fail> {
    let mut changes = Batch::new(alloc);
    changes.push(Change {
        tx: 0,
        entity: Entity::Accounts,
        key: Bytes::of(alloc, &[0xaa])?,
        act: Act::Put(Bytes::of(alloc, &[1])?),
    })?;
    let rows = StepRows { step: 0, changes };
    let groups = collate(rt, alloc, &rows, &[], 1)?;
    let mut shared = Inputs::new(alloc);
    for group in groups.into_vec() {
        shared.push(Arc::new(alloc, group)?)?;
    }
    Ok(shared)
}

#[test]
fn a_step_comes_to_its_names(rt: HostRuntime) -> Result<(), Fail> {
    let alloc = rt.alloc();
    let groups = one_put(&rt, alloc)?;
    let mut disk = MemDisk::new(alloc, &FileMap::new(alloc), &[])?;
    assert_eq!(rt; publish_groups(alloc, &mut disk, groups.as_slice()), Ok(()));
    assert_eq!(rt; disk.files().len(), FILES_OF_A_STEP);
    let found = disk.files().find(FIRST);
    assert!(rt; found.is_some_and(|bytes| bytes.as_slice() == BYTES.as_slice()));
    let names = group_names(alloc, groups.as_slice())?;
    assert_eq!(rt; names.len(), FILES_OF_A_STEP);
    assert!(rt; names.get(0).is_some_and(|name| name.as_slice() == FIRST));
    assert!(rt; names.get(7).is_some_and(|name| name.as_slice() == EIGHTH));
    Ok(())
}

#[test]
fn a_fault_leaves_whole_files_and_one_temporary_name(rt: HostRuntime) -> Result<(), Fail> {
    let alloc = rt.alloc();
    let groups = one_put(&rt, alloc)?;
    let mut disk = MemDisk::new(alloc, &FileMap::new(alloc), &[EIGHTH_RENAME])?;
    assert_eq!(rt;
        publish_groups(alloc, &mut disk, groups.as_slice()),
        Err(DiskError::Failed)
    );
    assert_eq!(rt; disk.files().len(), 8);
    assert!(rt; disk.files().find(EIGHTH).is_none());
    assert!(rt; disk.files().find(EIGHTH_TEMPORARY).is_some());
    assert_eq!(rt; publish_groups(alloc, &mut disk, groups.as_slice()), Ok(()));
    assert_eq!(rt; disk.files().len(), FILES_OF_A_STEP);
    Ok(())
}
