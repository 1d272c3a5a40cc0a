//! Where input comes from.
ghost use Rattle.std.specs.Prelude.{◌≡◌, ◌≢◌, ◌<◌, ◌≤◌, ◌↔◌, ℕ, List, [], Option, Some, None, IfSome, IfNone, IfOk, OnErr, length, take, drop};
ghost use Rattle.agg_outside.specs.Counts.{FailsForCause};

use crate::errors::Failed;

/// Gives bytes in order.
///
/// A contract can name the bytes that are left only if the source tells them. Each source either always
/// tells them or never does: no call makes it begin or stop.
pub trait Source {
    /// How often the source has failed.
    ghost faults: { Self → ℕ };

    /// The bytes that are left, where it tells them.
    ghost left: { Self → Option (List ℕ) };

    /// Moves the next bytes into the front of `buf`, and answers their number.
    /// After `Failed` no byte was taken.
    fn take(&mut self, buf: &mut [u8]) -> Result<usize, Failed>
        ensures fits { IfOk result (λ count. count ≤ length buf.old) }
        ensures moved { IfSome (left self.old) (λ bytes. IfOk result (λ count.
            (left self.new ≡ Some (drop count bytes)) × (take count buf.new ≡ take count bytes) × (count ≤ length bytes))) }

        // Nothing comes exactly where no byte is left.
        ensures end { IfSome (left self.old) (λ bytes. IfOk result (λ count. 0 < length buf.old → (count ≡ 0 ↔ bytes ≡ []))) }
        ensures err { OnErr result (left self.new ≡ left self.old) }
        ensures silent { IfNone (left self.old) (left self.new ≡ None) }
        ensures cause { FailsForCause (faults self.old) (faults self.new) result };
}
