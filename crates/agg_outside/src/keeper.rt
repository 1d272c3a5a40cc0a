//! The store of rows as the session sees it.
ghost use Rattle.std.specs.Prelude.{◌≡◌, ℕ, Option, Some, None, IfSome, IfNone, IfOk, OnOk, OnErr, IsTrue, take};
ghost use Rattle.std.specs.Option.{ForSome};
ghost use Rattle.agg_outside.specs.Counts.{HasCause};
ghost use Rattle.agg_outside.specs.Rows.{Held, ascends, first_from, last_before, rows_from, applied, CanApply};

use crate::errors::KeeperError;
use crate::rows::{Row, RowId, RowWrite, Rowlist};
use std::alloc::Global;

/// Holds one list of rows, whose ids ascend strictly, and the floor.
///
/// A contract can name the rows and the floor only if the keeper tells them. Each keeper either always tells them or
/// never does: no call makes it begin or stop.
pub trait Keeper: Drop {
    /// How often the keeper has failed.
    ghost faults: { Self → ℕ };

    /// The rows in order and the floor, where it tells them.
    ghost held: { Self → Option Held };

    /// The first row not before `from`.
    fn seek(&mut self, alloc: Global, from: &RowId) -> Result<Option<Row>, KeeperError>
        ensures row { IfSome (held self.old) (λ h. IfOk result (λ row. row ≡ first_from from.now h.rows)) }
        ensures held { held self.new ≡ held self.old }
        ensures cause { HasCause KeeperError.Failed (faults self.old) (faults self.new) result };

    /// The last row before `before`.
    fn seek_back(&mut self, alloc: Global, before: &RowId) -> Result<Option<Row>, KeeperError>
        ensures row { IfSome (held self.old) (λ h. IfOk result (λ row. row ≡ last_before before.now h.rows)) }
        ensures held { held self.new ≡ held self.old }
        ensures cause { HasCause KeeperError.Failed (faults self.old) (faults self.new) result };

    /// The first `limit` rows not before `from`.
    fn scan_some(
        &mut self,
        alloc: Global,
        from: &RowId,
        limit: usize,
    ) -> Result<Rowlist, KeeperError>
        ensures rows { IfSome (held self.old) (λ h. IfOk result (λ rows. rows ≡ take limit (rows_from from.now h.rows))) }
        ensures held { held self.new ≡ held self.old }
        ensures cause { HasCause KeeperError.Failed (faults self.old) (faults self.new) result };

    /// The floor: rows of steps below it may have been pruned.
    fn floor(&mut self) -> Result<u64, KeeperError>
        ensures floor { IfSome (held self.old) (λ h. IfOk result (λ floor. floor ≡ h.floor)) }
        ensures held { held self.new ≡ held self.old }
        ensures cause { HasCause KeeperError.Failed (faults self.old) (faults self.new) result };

    /// All writes in order, and after an error none of them.
    fn apply(&mut self, alloc: Global, writes: &[RowWrite]) -> Result<(), KeeperError>
        requires { ForSome (held self.old) (CanApply writes.now) }
        ensures ok { IfSome (held self.old) (λ h. OnOk result (held self.new ≡ Some (applied writes.now h))) }
        ensures silent { IfNone (held self.old) (held self.new ≡ None) }
        ensures err { OnErr result (held self.new ≡ held self.old) }
        ensures cause { HasCause KeeperError.Failed (faults self.old) (faults self.new) result };

    ghost in_order: { (keeper : Self) → IfSome (held keeper) (λ h. IsTrue (ascends h.rows)) };
}
