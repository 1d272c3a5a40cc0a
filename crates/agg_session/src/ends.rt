ghost use Rattle.std.specs.Prelude.{◌≡◌};
ghost use Rattle.agg_session.specs.Ends.{end_of_stop, end_of_sink};
ghost use Rattle.agg_session.specs.declared.ends.LinkEnd.TheVariants.{Memory as wants_memory};

use agg_outside::{Memory, SinkError};
use state_store::Stop;

/// How a link ended.
#[derive(Clone, Copy, Debug, PartialEq, Eq)]
pub enum LinkEnd {
    /// The source was read to its end, and every line was answered.
    Done,
    /// The source counted a fault.
    Source,
    /// The sink counted a fault.
    Sink,
    /// The disk counted a fault.
    Disk,
    /// The keeper counted a fault.
    Keeper,
    /// As many bytes were taken as may be.
    Long,
    /// Memory could not be had.
    Memory,
}

impl From<Stop> for LinkEnd {
    ghost from_gives = { λ stop end. end ≡ end_of_stop stop };

    fn from(stop: Stop) -> LinkEnd {
        match stop {
            Stop::Disk => LinkEnd::Disk,
            Stop::Keeper => LinkEnd::Keeper,
            // It never comes to this: a run takes fewer lines than there are epochs.
            Stop::Worn => LinkEnd::Long,
            Stop::Memory => LinkEnd::Memory,
        }
    }
}

impl From<Memory> for LinkEnd {
    ghost from_gives = { λ _ end. end ≡ wants_memory };

    fn from(_: Memory) -> LinkEnd {
        LinkEnd::Memory
    }
}

impl From<SinkError> for LinkEnd {
    ghost from_gives = { λ error end. end ≡ end_of_sink error };

    fn from(error: SinkError) -> LinkEnd {
        match error {
            SinkError::Failed => LinkEnd::Sink,
            SinkError::Memory => LinkEnd::Memory,
        }
    }
}
