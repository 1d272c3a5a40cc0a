//! Files of pairs, and the groups of a step, that `bench/files` and `bench/collate` measure from outside:
//! `bench_files PART COUNT MORE LESS` makes them, or looks into them, and prints a checksum.
#![tactic(auto)]

mod accessors;
mod keys;
mod numbers;
mod pairs;
mod steps;

use agg_outside::Memory;
use numbers::{sum_of_befores, sum_of_numbers};
use pairs::sum_of_pairs;
use std::env;
use std::process::ExitCode;
use std::rt::{Clock, Env};
use std::sync::Wait;
use std::thread::Threads;
use steps::{Sizes, sum_of_steps};

// The checksum of a part; none where there is no such part.
fn sum_of_part<R: AllocGlobal + Threads + Wait + Clock + Sync>(
    rt: &R,
    part: &str,
    sizes: Sizes,
) -> Result<Option<u64>, Memory> {
    let alloc = rt.alloc();
    let (count, more, less) = (sizes.count, sizes.more, sizes.less);
    match part {
        "pairs" | "built" | "kv" | "bt" | "kvi" | "got" | "sought" => {
            Ok(Some(sum_of_pairs(alloc, part, count, more)?))
        }
        "v" | "vi" => Ok(Some(sum_of_befores(alloc, part, count)?)),
        "ef" | "efi" | "first" => Ok(Some(sum_of_numbers(alloc, part, count, more, less)?)),
        "below" | "collated" | "summed" | "accessors" => Ok(Some(sum_of_steps(
            rt, alloc, part, sizes,
        )?)),
        _ => Ok(None),
    }
}

// The checksum that the arguments ask for; none where they ask for no part.
fn sum_of_args<R: AllocGlobal + Env + Threads + Wait + Clock + Sync>(
    rt: &R,
) -> Result<Option<u64>, Memory> {
    let Ok(mut args) = env::args(rt) else {
        return Err(Memory);
    };
    let _ = args.next();
    let Some(part) = args.next() else {
        return Ok(None);
    };
    let (Some(count), Some(more), Some(less)) = (
        args.next().and_then(|word| word.parse::<u64>().ok()),
        args.next().and_then(|word| word.parse::<u64>().ok()),
        args.next().and_then(|word| word.parse::<u64>().ok()),
    ) else {
        return Ok(None);
    };
    sum_of_part(rt, part.as_str(), Sizes { count, more, less })
}

fn main(rt: HostRuntime) -> ExitCode {
    match sum_of_args(&rt) {
        Ok(Some(sum)) => {
            let _ = println!(rt; "{sum}");
            ExitCode::from(0u8)
        }
        Ok(None) => ExitCode::from(1u8),
        Err(Memory) => ExitCode::from(2u8),
    }
}
