//! Files that are written and renamed.

use agg_outside::{Disk, DiskError};
use real_devices::DirDisk;
use std::alloc::Global;
use std::rt::Files;

const TEMPORARY: &[u8] = b"new";

// Writes a file under a temporary name and then gives it that of its number.
fn put_file<R: Files + AllocGlobal + Clone + Drop + Sync>(
    alloc: Global,
    disk: &mut DirDisk<'_, R>,
    number: u64,
    bytes: &[u8],
) -> Result<(), DiskError> {
    let name = format!(in alloc; "{number}").map_err(|_| DiskError::Memory)?;
    disk.write_new(alloc, TEMPORARY, bytes)?;
    disk.rename(alloc, TEMPORARY, name.as_bytes())
}

/// Puts so many files of so many bytes; answers how many the disk then lists.
pub fn put_files<R: Files + AllocGlobal + Clone + Drop + Sync>(
    alloc: Global,
    disk: &mut DirDisk<'_, R>,
    count: u64,
    size: u64,
) -> Result<u64, DiskError> {
    let mut bytes = Vec::new(alloc);
    for number in 0..size {
        bytes
            .push(number.to_le_bytes()[0])
            .map_err(|_| DiskError::Memory)?;
    }
    for number in 0..count {
        put_file(alloc, disk, number, bytes.as_slice())?;
    }
    Ok(disk.list(alloc)?.len() as u64)
}
