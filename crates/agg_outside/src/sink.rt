//! Where replies go.
ghost use Rattle.std.specs.Prelude.{◌≡◌, ◌<◌, ◌≤◌, ◌++◌, ℕ, List, Option, Some, None, IfSome, IfNone, IfOk, OnErr, length, take};
ghost use Rattle.agg_outside.specs.Counts.{HasCause};

use crate::errors::SinkError;

/// Takes bytes in order.
///
/// A contract can name the bytes that were written only if the sink tells them. Each sink either always
/// tells them or never does: no call makes it begin or stop.
pub trait Sink {
    /// How often the sink has failed.
    ghost faults: { Self → ℕ };

    /// All bytes that were written, where it tells them.
    ghost bytes: { Self → Option (List ℕ) };

    /// Appends that many first bytes of `piece`, at least one of a piece that isn't empty.
    /// After an error nothing was appended.
    fn put(&mut self, piece: &[u8]) -> Result<usize, SinkError>
        ensures fits { IfOk result (λ count. count ≤ length piece.now) }
        ensures some { IfOk result (λ count. 0 < length piece.now → 0 < count) }
        ensures appended { IfSome (bytes self.old) (λ before. IfOk result (λ count. bytes self.new ≡ Some (before ++ take count piece.now))) }
        ensures err { OnErr result (bytes self.new ≡ bytes self.old) }
        ensures silent { IfNone (bytes self.old) (bytes self.new ≡ None) }
        ensures cause { HasCause SinkError.Failed (faults self.old) (faults self.new) result };
}
