use std::alloc::{AllocError, AllocFailed};

/// Memory could not be had.
#[derive(Clone, Copy, Debug, PartialEq, Eq)]
pub struct Memory;

impl From<AllocError> for Memory {
    fn from(_: AllocError) -> Memory {
        Memory
    }
}

impl<T: Drop> From<AllocFailed<T>> for Memory {
    fn from(_: AllocFailed<T>) -> Memory {
        Memory
    }
}

/// A device refused a call, and counted a fault.
#[derive(Clone, Copy, Debug, PartialEq, Eq)]
pub struct Failed;

/// Why a sink took nothing.
#[derive(Clone, Copy, Debug, PartialEq, Eq)]
pub enum SinkError {
    /// The sink counted a fault.
    Failed,
    /// Memory could not be had.
    Memory,
}

/// Why a disk refused a call.
#[derive(Clone, Copy, Debug, PartialEq, Eq)]
pub enum DiskError {
    /// The disk counted a fault.
    Failed,
    /// Memory could not be had.
    Memory,
}

/// Why a keeper refused a call.
#[derive(Clone, Copy, Debug, PartialEq, Eq)]
pub enum KeeperError {
    /// The keeper counted a fault.
    Failed,
    /// Memory could not be had.
    Memory,
}

impl From<Memory> for SinkError {
    ghost use Rattle.std.specs.Prelude.{◌≡◌};
    ghost use Rattle.agg_outside.specs.declared.errors.SinkError.TheVariants as cause;

    ghost from_gives = { λ _ e. e ≡ cause.Memory };

    fn from(_: Memory) -> SinkError {
        SinkError::Memory
    }
}

impl From<Memory> for DiskError {
    ghost use Rattle.std.specs.Prelude.{◌≡◌};
    ghost use Rattle.agg_outside.specs.declared.errors.DiskError.TheVariants as cause;

    ghost from_gives = { λ _ e. e ≡ cause.Memory };

    fn from(_: Memory) -> DiskError {
        DiskError::Memory
    }
}

impl From<Memory> for KeeperError {
    ghost use Rattle.std.specs.Prelude.{◌≡◌};
    ghost use Rattle.agg_outside.specs.declared.errors.KeeperError.TheVariants as cause;

    ghost from_gives = { λ _ e. e ≡ cause.Memory };

    fn from(_: Memory) -> KeeperError {
        KeeperError::Memory
    }
}
