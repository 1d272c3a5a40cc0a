//! Sets of visible groups that `bench/visible` measures from outside: `bench_sets PART COUNT ROUNDS`
//! runs one part over so many groups of each entity, and prints a count.
#![tactic(auto)]

mod groups;
mod parts;

use agg_outside::Memory;
use parts::{names_dropped, sets_pinned, sets_published};
use std::env;
use std::process::ExitCode;
use std::rt::Env;

// The count that the arguments ask for; none where they ask for no part.
fn count_of_part<R: AllocGlobal + Env>(rt: &R) -> Result<Option<u64>, Memory> {
    let Ok(mut args) = env::args(rt) else {
        return Err(Memory);
    };
    let _ = args.next();
    let (Some(part), Some(count), Some(rounds)) = (
        args.next(),
        args.next().and_then(|word| word.parse::<u64>().ok()),
        args.next().and_then(|word| word.parse::<u64>().ok()),
    ) else {
        return Ok(None);
    };
    match part.as_str() {
        "pins" => sets_pinned(rt.alloc(), count, rounds),
        "publish" => sets_published(rt.alloc(), count, rounds),
        "retired" => names_dropped(rt.alloc(), count, rounds),
        _ => Ok(None),
    }
}

fn main(rt: HostRuntime) -> ExitCode {
    match count_of_part(&rt) {
        Ok(Some(count)) => {
            let _ = println!(rt; "{count}");
            ExitCode::from(0u8)
        }
        Ok(None) => ExitCode::from(1u8),
        Err(Memory) => ExitCode::from(2u8),
    }
}

#[cfg(test)]
mod tests;
