ghost use Rattle.std.specs.Prelude.{◌≡◌};
ghost use Rattle.state_store.specs.Stop.{stop_of, stop_of_disk, stop_of_read};
ghost use Rattle.state_store.specs.declared.stop.Stop.TheVariants.{Memory as wants_memory};

use agg_outside::{DiskError, Memory};
use hot_keeper::ReadError;
use row_epochs::RowsError;

/// Why a line could not be worked on.
#[derive(Clone, Copy, Debug, PartialEq, Eq)]
pub enum Stop {
    /// The disk counted a fault.
    Disk,
    /// The keeper counted a fault.
    Keeper,
    /// The epoch stands at its limit and can't rise.
    Worn,
    /// Memory could not be had.
    Memory,
}

impl From<Memory> for Stop {
    ghost from_gives = { λ _ stop. stop ≡ wants_memory };

    fn from(_: Memory) -> Stop {
        Stop::Memory
    }
}

impl From<DiskError> for Stop {
    ghost from_gives = { λ error stop. stop ≡ stop_of_disk error };

    fn from(error: DiskError) -> Stop {
        match error {
            DiskError::Failed => Stop::Disk,
            DiskError::Memory => Stop::Memory,
        }
    }
}

impl From<RowsError> for Stop {
    ghost from_gives = { λ error stop. stop ≡ stop_of error };

    fn from(error: RowsError) -> Stop {
        match error {
            RowsError::Keeper => Stop::Keeper,
            RowsError::Worn { .. } => Stop::Worn,
            RowsError::Memory => Stop::Memory,
        }
    }
}

impl From<ReadError> for Stop {
    ghost from_gives = { λ error stop. stop ≡ stop_of_read error };

    fn from(error: ReadError) -> Stop {
        match error {
            ReadError::Keeper => Stop::Keeper,
            ReadError::Memory => Stop::Memory,
        }
    }
}
