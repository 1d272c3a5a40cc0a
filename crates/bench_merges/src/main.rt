//! The merge of groups that `bench/merge` measures from outside: `bench_merges PART KEYS GROUPS SHARED` prints how many
//! groups it made, merges them, and prints a checksum.
#![tactic(auto)]

mod keys;
mod merging;

use agg_outside::Memory;
use keys::Sizes;
use merging::{files_length, inputs_of, merged, words_sum};
use std::env;
use std::process::ExitCode;
use std::rt::{Clock, Env};
use std::sync::Wait;
use std::thread::Threads;

// Makes the groups and prints their number, and then what the part asks; false where there is no such part.
fn run_part<R: AllocGlobal + Print + Threads + Wait + Clock + Sync>(
    rt: &R,
    part: &str,
    sizes: Sizes,
) -> Result<bool, Memory> {
    let alloc = rt.alloc();
    let inputs = inputs_of(rt, alloc, sizes)?;
    let _ = println!(rt; "{}", inputs.len());
    if part == "built" {
        return Ok(true);
    }
    let group = merged(alloc, &inputs)?;
    let sum = match part {
        "merged" => files_length(&group),
        "summed" => words_sum(&group),
        _ => return Ok(false),
    };
    let _ = println!(rt; "{sum}");
    Ok(true)
}

// Runs the part that the arguments ask for; false where they ask for none.
fn run_args<R: AllocGlobal + Env + Print + Threads + Wait + Clock + Sync>(
    rt: &R,
) -> Result<bool, Memory> {
    let Ok(mut args) = env::args(rt) else {
        return Err(Memory);
    };
    let _ = args.next();
    let Some(part) = args.next() else {
        return Ok(false);
    };
    let (Some(keys), Some(groups), Some(shared)) = (
        args.next().and_then(|word| word.parse::<u64>().ok()),
        args.next().and_then(|word| word.parse::<u64>().ok()),
        args.next().and_then(|word| word.parse::<u64>().ok()),
    ) else {
        return Ok(false);
    };
    let sizes = Sizes {
        keys,
        groups,
        shared,
    };
    run_part(rt, part.as_str(), sizes)
}

fn main(rt: HostRuntime) -> ExitCode {
    match run_args(&rt) {
        Ok(true) => ExitCode::from(0u8),
        Ok(false) => ExitCode::from(1u8),
        Err(Memory) => ExitCode::from(2u8),
    }
}
