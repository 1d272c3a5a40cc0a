use agg_outside::Memory;

/// Why entries weren't run.
#[derive(Clone, Copy, Debug, PartialEq, Eq)]
pub enum CoreError {
    /// The entry at this place, counted from 0, is the first that isn't possible where it stands.
    NotLegal { place: u64 },
    /// Memory could not be had.
    Memory,
}

impl From<Memory> for CoreError {
    ghost use Rattle.std.specs.Prelude.{◌≡◌};
    ghost use Rattle.core_run.specs.declared.error.CoreError.TheVariants as cause;

    ghost from_gives = { λ _ e. e ≡ cause.Memory };

    fn from(_: Memory) -> CoreError {
        CoreError::Memory
    }
}
