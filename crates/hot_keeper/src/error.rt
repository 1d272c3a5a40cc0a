ghost use Rattle.std.specs.Prelude.{◌≡◌};
ghost use Rattle.hot_keeper.specs.Errors.{read_error_of};

use row_epochs::RowsError;

/// Why a read answered nothing.
#[derive(Clone, Copy, Debug, PartialEq, Eq)]
pub enum ReadError {
    /// The keeper counted a fault.
    Keeper,
    /// Memory could not be had.
    Memory,
}

impl From<RowsError> for ReadError {
    ghost from_gives = { λ cause error. error ≡ read_error_of cause };

    // No read raises the epoch, so `Worn` comes of none.
    fn from(cause: RowsError) -> ReadError {
        match cause {
            RowsError::Keeper => ReadError::Keeper,
            RowsError::Worn { .. } => ReadError::Memory,
            RowsError::Memory => ReadError::Memory,
        }
    }
}
