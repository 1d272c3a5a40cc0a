//! Devices that keep what they are given, which `bench/devices` measures from outside:
//! `bench_devices PART COUNT MORE` works in the current folder and prints a checksum.
#![tactic(auto)]

mod files;
mod numbers;
mod rows;

use agg_outside::{DiskError, KeeperError, Memory};
use files::put_files;
use real_devices::DirDisk;
use real_rows::SqlTable;
use rows::{applied, looked, scanned};
use std::alloc::Global;
use std::process::ExitCode;
use std::{env, fs};

// Why a part ended early.
#[derive(Debug, Drop)]
enum Stop {
    Disk,
    Keeper,
    Memory,
}

impl From<DiskError> for Stop {
    fn from(error: DiskError) -> Stop {
        match error {
            DiskError::Failed => Stop::Disk,
            DiskError::Memory => Stop::Memory,
        }
    }
}

impl From<KeeperError> for Stop {
    fn from(error: KeeperError) -> Stop {
        match error {
            KeeperError::Failed => Stop::Keeper,
            KeeperError::Memory => Stop::Memory,
        }
    }
}

impl From<Memory> for Stop {
    fn from(_: Memory) -> Stop {
        Stop::Memory
    }
}

// What an earlier run left in the current folder goes away.
fn clear(rt: &HostRuntime) {
    let _ = fs::remove_file(rt, "agg-rows.db");
    let _ = fs::remove_file(rt, "agg-rows.db-wal");
    let _ = fs::remove_dir_all(rt, "agg-data");
}

// All parts over new devices, which are then taken away.
fn sum_of_all(rt: &HostRuntime, alloc: Global, count: u64, more: u64) -> Result<u64, Stop> {
    clear(rt);
    let rows = applied(alloc, SqlTable::new(rt), count, more)?;
    let found = looked(alloc, SqlTable::new(rt), count, more)?;
    let read = scanned(alloc, SqlTable::new(rt), more)?;
    let files = put_files(alloc, &mut DirDisk::new(rt), more, count)?;
    clear(rt);
    Ok(
        [rows, found, read, files].iter().fold(
            0u64,
            |sum, part| sum.wrapping_mul(1000).wrapping_add(*part),
        ),
    )
}

// The checksum of a part; none where there is no such part.
fn sum_of_part(rt: &HostRuntime, part: &str, count: u64, more: u64) -> Result<Option<u64>, Stop> {
    let alloc = rt.alloc();
    Ok(Some(match part {
        "all" => sum_of_all(rt, alloc, count, more)?,
        "applied" => applied(alloc, SqlTable::new(rt), count, more)?,
        "looked" => looked(alloc, SqlTable::new(rt), count, more)?,
        "scanned" => scanned(alloc, SqlTable::new(rt), more)?,
        "files" => put_files(alloc, &mut DirDisk::new(rt), count, more)?,
        _ => return Ok(None),
    }))
}

// The checksum that the arguments ask for; none where they ask for no part.
fn sum_of_args(rt: &HostRuntime) -> Result<Option<u64>, Stop> {
    let Ok(mut args) = env::args(rt) else {
        return Err(Stop::Memory);
    };
    let _ = args.next();
    let Some(part) = args.next() else {
        return Ok(None);
    };
    let (Some(count), Some(more)) = (
        args.next().and_then(|word| word.parse::<u64>().ok()),
        args.next().and_then(|word| word.parse::<u64>().ok()),
    ) else {
        return Ok(None);
    };
    sum_of_part(rt, part.as_str(), count, more)
}

fn main(rt: HostRuntime) -> ExitCode {
    match sum_of_args(&rt) {
        Ok(Some(sum)) => {
            let _ = println!(rt; "{sum}");
            ExitCode::from(0u8)
        }
        Ok(None) => ExitCode::from(1u8),
        Err(Stop::Memory) => ExitCode::from(2u8),
        Err(Stop::Disk) => ExitCode::from(3u8),
        Err(Stop::Keeper) => ExitCode::from(4u8),
    }
}
