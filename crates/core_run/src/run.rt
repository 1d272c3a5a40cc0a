ghost use Rattle.std.specs.Prelude.{◌≡◌, IfOk, IfErr, OnOk};
ghost use Rattle.core_machine.specs.Entries.{ArePossible, replay};
ghost use Rattle.core_machine.specs.Sound.{IsSound};
ghost use Rattle.core_run.specs.Runs.{IsRefused};

use crate::error::CoreError;
use crate::running::{machine_of, running_of};
use crate::steps::step;
use core_machine::{Entry, Machine};
use std::alloc::Global;

/// The machine after all entries, or the place of the first that isn't possible where it stands. Names are judged
/// here; the bytes behind them aren't.
pub fn run_core(alloc: Global, start: Machine, entries: &[Entry]) -> Result<Machine, CoreError>
    requires { IsSound start }
    // Each entry was possible where it stood.
    ensures possible { OnOk result (ArePossible start entries.now) }
    ensures ok { IfOk result (λ machine. machine ≡ replay start entries.now) }
    ensures sound { IfOk result IsSound }
    // Exactly the first entry that isn't possible is refused.
    ensures err { IfErr result (IsRefused start entries.now) }
{
    let mut running = running_of(alloc, start)?;
    let mut place: u64 = 0;
    for entry in entries {
        let taken = step(alloc, &mut running, entry)?;
        if !taken {
            return Err(CoreError::NotLegal { place });
        }
        place += 1;
    }
    let machine = machine_of(alloc, running)?;
    Ok(machine)
}
