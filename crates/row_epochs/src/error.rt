ghost use Rattle.std.specs.Prelude.{◌≡◌};
ghost use Rattle.row_epochs.specs.declared.error.RowsError.TheVariants.{Memory as wants_memory};
ghost use Rattle.row_epochs.specs.Errors.{error_of};

use agg_outside::{KeeperError, Memory};

/// Why a call on versioned rows did nothing.
#[derive(Clone, Copy, Debug, PartialEq, Eq)]
pub enum RowsError {
    /// The keeper counted a fault.
    Keeper,
    /// The epoch stands at its limit and can't rise.
    Worn { epoch: u64 },
    /// Memory could not be had.
    Memory,
}

impl From<Memory> for RowsError {
    ghost from_gives = { λ _ error. error ≡ wants_memory };

    fn from(_: Memory) -> RowsError {
        RowsError::Memory
    }
}

impl From<KeeperError> for RowsError {
    ghost from_gives = { λ cause error. error ≡ error_of cause };

    fn from(cause: KeeperError) -> RowsError {
        match cause {
            KeeperError::Failed => RowsError::Keeper,
            KeeperError::Memory => RowsError::Memory,
        }
    }
}
