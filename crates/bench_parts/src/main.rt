//! The parts of the store that `bench/` measures from outside: `bench_parts PART COUNT` runs one
//! over COUNT items, and prints a checksum.
#![tactic(auto)]

mod hashed;
mod keys;
mod lists;
mod opened;
mod ordered;
mod words;

use agg_outside::Memory;
use hashed::sum_of_hashed;
use lists::sum_of_lists;
use opened::{Lists, sum_of_opened};
use ordered::sum_of_ordered;
use std::env;
use std::marker::Brand;
use std::process::ExitCode;
use std::rt::Env;
use std::sync::ledger::Blank;
use words::sum_of_words;

// The checksum that the arguments ask for; none where they ask for no part.
fn sum_of_part<R: AllocGlobal + Env>(rt: &R) -> Result<Option<u64>, Memory> {
    let Ok(mut args) = env::args(rt) else {
        return Err(Memory);
    };
    let _ = args.next();
    let (Some(part), Some(count)) = (args.next(), args.next()) else {
        return Ok(None);
    };
    let Ok(count) = count.parse::<u64>() else {
        return Ok(None);
    };
    match part.as_str() {
        "words" => Ok(Some(sum_of_words::<Brand>(rt.alloc(), count, Blank::new(1))?)),
        "hashed_pairs" | "hashed" | "hashed_find" => {
            Ok(Some(sum_of_hashed(rt.alloc(), part.as_str(), count)?))
        }
        "lists" | "lists_encode" | "lists_get" | "lists_seek" => {
            Ok(Some(sum_of_lists(rt.alloc(), part.as_str(), count)?))
        }
        "opened" => {
            let (Some(least), Some(most), Some(rounds)) = (
                args.next().and_then(|word| word.parse::<u64>().ok()),
                args.next().and_then(|word| word.parse::<u64>().ok()),
                args.next().and_then(|word| word.parse::<u64>().ok()),
            ) else {
                return Ok(None);
            };
            let lists = Lists { count, least, most };
            Ok(Some(sum_of_opened(rt.alloc(), lists, rounds)?))
        }
        "ordered" => {
            let Some(looks) = args.next().and_then(|word| word.parse::<u64>().ok()) else {
                return Ok(None);
            };
            Ok(Some(sum_of_ordered::<Brand>(rt.alloc(), count, looks, Blank::new(1))?))
        }
        _ => Ok(None),
    }
}

fn main(rt: HostRuntime) -> ExitCode {
    match sum_of_part(&rt) {
        Ok(Some(sum)) => {
            let _ = println!(rt; "{sum}");
            ExitCode::from(0u8)
        }
        Ok(None) => ExitCode::from(1u8),
        Err(Memory) => ExitCode::from(2u8),
    }
}
