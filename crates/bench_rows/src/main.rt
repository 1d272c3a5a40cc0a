//! Versioned rows that `bench/rows` measures from outside: `bench_rows PART COUNT MORE STORES` puts so
//! many changes into each of so many stores in memory, makes the calls of one part, and prints a checksum.
#![tactic(auto)]

mod reads;
mod store;
mod tree_keeper;

use agg_outside::Memory;
use reads::sum_of_reads;
use std::env;
use std::process::ExitCode;
use std::rt::Env;

// The checksum that the arguments ask for; none where they ask for no part.
fn sum_of_part<R: AllocGlobal + Env>(rt: &R) -> Result<Option<u64>, Memory> {
    let Ok(mut args) = env::args(rt) else {
        return Err(Memory);
    };
    let _ = args.next();
    let (Some(part), Some(count), Some(more)) = (args.next(), args.next(), args.next()) else {
        return Ok(None);
    };
    let Some(stores) = args.next() else {
        return Ok(None);
    };
    let (Ok(count), Ok(more)) = (count.parse::<u64>(), more.parse::<u64>()) else {
        return Ok(None);
    };
    let Ok(stores) = stores.parse::<u64>() else {
        return Ok(None);
    };
    sum_of_reads(rt.alloc(), part.as_str(), count, more, stores)
}

fn main(rt: HostRuntime) -> ExitCode {
    match sum_of_part(&rt) {
        Ok(Some(sum)) => {
            let _ = println!(rt; "{sum}");
            ExitCode::from(0u8)
        }
        Ok(None) => ExitCode::from(1u8),
        Err(Memory) => ExitCode::from(2u8),
    }
}
