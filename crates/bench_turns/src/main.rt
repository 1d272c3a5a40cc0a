//! Threads that take turns, for `bench/turn`: `bench_turns THREADS TURNS ROUNDS` lets so many threads take so
//! many turns each, each of so many rounds of work, and prints the number that all rounds make.
#![tactic(auto)]

mod counter;
mod threads;

use agg_outside::Memory;
use std::env;
use std::process::ExitCode;
use std::rt::Env;
use std::sync::Wait;
use std::thread::Threads;
use threads::{MOST_THREADS, counted};

// The number that the arguments ask for; none where they aren't three numbers, or ask for too many threads.
fn number_of<R: AllocGlobal + Env + Threads + Wait + Sync>(rt: &R) -> Result<Option<u64>, Memory> {
    let Ok(mut args) = env::args(rt) else {
        return Err(Memory);
    };
    let _ = args.next();
    let (Some(threads), Some(count), Some(rounds)) = (args.next(), args.next(), args.next()) else {
        return Ok(None);
    };
    let (Ok(threads), Ok(count), Ok(rounds)) = (
        threads.parse::<u64>(),
        count.parse::<u64>(),
        rounds.parse::<u64>(),
    ) else {
        return Ok(None);
    };
    if threads > MOST_THREADS {
        return Ok(None);
    }
    let counter = counted(rt, rt.alloc(), threads, count, rounds)?;
    Ok(Some(counter.value))
}

fn main(rt: HostRuntime) -> ExitCode {
    match number_of(&rt) {
        Ok(Some(number)) => {
            let _ = println!(rt; "{number}");
            ExitCode::from(0u8)
        }
        Ok(None) => ExitCode::from(1u8),
        Err(Memory) => ExitCode::from(2u8),
    }
}
