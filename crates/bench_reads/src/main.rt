//! Reads over the groups of several steps and a window of rows behind them, that `bench/reads` measures from outside:
//! `bench_reads PART KEYS GROUPS COUNT` makes the groups and the rows, reads, and prints a checksum and how many rows
//! or numbers were read.
#![tactic(auto)]

mod changes;
mod keys;
mod parts;
mod reads;
mod tree_keeper;

use agg_outside::Memory;
use changes::Sizes;
use parts::found_by;
use reads::Found;
use std::env;
use std::process::ExitCode;
use std::rt::{Clock, Env};
use std::sync::Wait;
use std::thread::Threads;

// What the part finds that the arguments ask for; none where they ask for no part.
fn found_by_args<R: AllocGlobal + Env + Threads + Wait + Clock + Sync>(
    rt: &R,
) -> Result<Option<Found>, Memory> {
    let Ok(mut args) = env::args(rt) else {
        return Err(Memory);
    };
    let _ = args.next();
    let Some(part) = args.next() else {
        return Ok(None);
    };
    let (Some(keys), Some(groups), Some(count)) = (
        args.next().and_then(|word| word.parse::<u64>().ok()),
        args.next().and_then(|word| word.parse::<u64>().ok()),
        args.next().and_then(|word| word.parse::<u64>().ok()),
    ) else {
        return Ok(None);
    };
    let sizes = Sizes { keys, groups };
    found_by(rt, rt.alloc(), part.as_str(), sizes, count)
}

fn main(rt: HostRuntime) -> ExitCode {
    match found_by_args(&rt) {
        Ok(Some(found)) => {
            let _ = println!(rt; "{} {}", found.sum, found.rows);
            ExitCode::from(0u8)
        }
        Ok(None) => ExitCode::from(1u8),
        Err(Memory) => ExitCode::from(2u8),
    }
}

#[cfg(test)]
mod tests;
