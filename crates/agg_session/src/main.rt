//! A whole session: lines in, replies out, over a keeper of rows; and the program that runs one over its
//! standard input and output.
#![tactic(auto)]

#[cfg(test)]
mod byte_tests;
#[cfg(test)]
mod ending_tests;
mod ends;
#[cfg(test)]
mod file_tests;
#[cfg(test)]
mod made_sessions;
mod run;
mod served;
mod status;
mod taking;
#[cfg(test)]
mod tests;
mod writing;

use agg_outside::{FileMap, KeeperStart, Keys, Memory, NoGate, Rowlist};
pub use ends::LinkEnd;
use memory_side::{SureDisk, SureDoors, SureKeeper};
use real_side::{StdSink, StdSource};
pub use run::{Ended, aggregate, run_plain};
pub use served::Served;
pub use session_link::{Limits, Link, Session, Transaction};
pub use status::Status;
use std::env;
use std::io::ErrorKind;
use std::process::ExitCode;
use std::rt::{Clock, Env};
use std::sync::Wait;
use std::thread::Threads;
pub use taking::serve;
pub use writing::put_all;

// Runs the command of the words over an empty disk and an empty keeper in memory.
fn run_words<R>(rt: &R) -> Result<Status, Memory>
where
    R: AllocGlobal + Env + Input + Print + Clock + Threads + Wait + Sync,
    R::Reader: Drop,
{
    let alloc = rt.alloc();
    let mut words = Vec::new(alloc);
    let args = match env::args(rt) {
        Ok(args) => args,
        // A word that is no text is no command.
        Err(error) if error.kind() == ErrorKind::InvalidData => return Ok(Status::Usage),
        Err(_) => return Err(Memory),
    };
    for word in args.skip(1) {
        words.push(word)?;
    }
    let disk = SureDisk::new(alloc, &FileMap::new(alloc))?;
    let rows = KeeperStart {
        rows: Rowlist::new(alloc),
        floor: 0,
    };
    let keeper = SureKeeper::new(alloc, &rows)?;
    let mut doors = SureDoors::new(alloc, &Keys::new(alloc))?;
    let mut source = StdSource::new(rt);
    let mut sink = StdSink::new(rt);
    let ended = aggregate(
        rt,
        alloc,
        words.as_slice(),
        &mut source,
        &mut sink,
        &mut doors,
        disk,
        keeper,
        &NoGate,
    );
    Ok(ended.status)
}

fn main(rt: HostRuntime) -> ExitCode {
    let status = run_words(&rt).unwrap_or(Status::Memory);
    if let Some(text) = status.text() {
        let _ = rt.eprintln(text);
    }
    ExitCode::from(status.number())
}
