//! A keeper in memory that fails at chosen calls.
ghost use Rattle.std.specs.Prelude.{◌≡◌, ◌↔◌, ◌<◌, IfOk, IsTrue, Some, Err, OnErr, OnOk, take};
ghost use Rattle.std.specs.Option.{ForSome};
ghost use Rattle.agg_outside.specs.Counts.{HasCause};
ghost use Rattle.memory_side.specs.Memory.{CallCount, called, fails_next};
ghost use Rattle.agg_outside.specs.Rows.{Held, ascends, first_from, last_before, rows_from, applied, CanApply};

use crate::calls::Calls;
use crate::row_places::{copy_rows, first_row_from, last_row_before, some_rows_from};
use crate::row_writes::apply_all;
use agg_outside::{Keeper, KeeperError, KeeperStart, Memory, Row, RowId, RowWrite, Rowlist};
use std::alloc::Global;

/// Keeps its rows in order in memory; the calls whose numbers it was made with answer `Failed`.
#[derive(Debug, Drop)]
pub struct MemKeeper {
    rows: Rowlist,
    floor: u64,
    calls: Calls,
    ghost in_order: { IsTrue (ascends rows) },
}

impl MemKeeper {
    ghost use Rattle.memory_side.specs.MemoryKeepers.{mem_held, keeper_calls};

    /// A keeper with a copy of these rows, and this floor. The calls whose numbers, counted from 1,
    /// stand in `fails` will fail.
    pub fn new(alloc: Global, start: &KeeperStart, fails: &[u64]) -> Result<MemKeeper, Memory>
        requires { IsTrue (ascends start.now.rows) }
        ensures held { IfOk result (λ k. mem_held k ≡ record { rows = start.now.rows; floor = start.now.floor }) }
        ensures count { IfOk result (λ k. keeper_calls k ≡ record { calls = 0; fails = fails.now; faults = 0 }) }
    {
        let rows = copy_rows(alloc, start.rows.as_slice())?;
        let calls = Calls::new(alloc, fails)?;
        Ok(MemKeeper {
            rows,
            floor: start.floor,
            calls,
        })
    }

    /// The rows in order.
    pub fn rows(&self) -> &Rowlist
        ensures { result.now ≡ (mem_held self.now).rows }
    {
        &self.rows
    }

    // Counts a call.
    fn begin(&mut self) -> Result<(), KeeperError>
        ensures fails { (result ≡ Err KeeperError.Failed) ↔ IsTrue (fails_next (keeper_calls self.old)) }
        ensures failed_only { OnErr result (result ≡ Err KeeperError.Failed) }
        ensures counted { keeper_calls self.new ≡ called (keeper_calls self.old) }
        ensures held { mem_held self.new ≡ mem_held self.old }
    {
        if self.calls.begin().is_err() {
            return Err(KeeperError::Failed);
        }
        Ok(())
    }
}

impl Keeper for MemKeeper {
    ghost use Rattle.std.specs.Prelude.{Some};
    ghost use Rattle.memory_side.specs.MemoryKeepers.{mem_held, keeper_calls};

    ghost faults = { λ k. (keeper_calls k).faults };

    ghost held = { λ k. Some (mem_held k) };

    ghost in_order = { λ k. k.in_order };

    fn seek(&mut self, alloc: Global, from: &RowId) -> Result<Option<Row>, KeeperError>
        ensures fails { (result ≡ Err KeeperError.Failed) ↔ IsTrue (fails_next (keeper_calls self.old)) }
        ensures counted { keeper_calls self.new ≡ called (keeper_calls self.old) }
        ensures row { IfOk result (λ row. row ≡ first_from from.now (mem_held self.old).rows) }
        ensures held { mem_held self.new ≡ mem_held self.old }
    {
        self.begin()?;
        Ok(first_row_from(alloc, self.rows.as_slice(), from)?)
    }

    fn seek_back(&mut self, alloc: Global, before: &RowId) -> Result<Option<Row>, KeeperError>
        ensures fails { (result ≡ Err KeeperError.Failed) ↔ IsTrue (fails_next (keeper_calls self.old)) }
        ensures counted { keeper_calls self.new ≡ called (keeper_calls self.old) }
        ensures row { IfOk result (λ row. row ≡ last_before before.now (mem_held self.old).rows) }
        ensures held { mem_held self.new ≡ mem_held self.old }
    {
        self.begin()?;
        Ok(last_row_before(alloc, self.rows.as_slice(), before)?)
    }

    fn scan_some(
        &mut self,
        alloc: Global,
        from: &RowId,
        limit: usize,
    ) -> Result<Rowlist, KeeperError>
        ensures fails { (result ≡ Err KeeperError.Failed) ↔ IsTrue (fails_next (keeper_calls self.old)) }
        ensures counted { keeper_calls self.new ≡ called (keeper_calls self.old) }
        ensures rows { IfOk result (λ rows. rows ≡ take limit (rows_from from.now (mem_held self.old).rows)) }
        ensures held { mem_held self.new ≡ mem_held self.old }
    {
        self.begin()?;
        Ok(some_rows_from(alloc, self.rows.as_slice(), from, limit)?)
    }

    fn floor(&mut self) -> Result<u64, KeeperError>
        ensures fails { (result ≡ Err KeeperError.Failed) ↔ IsTrue (fails_next (keeper_calls self.old)) }
        ensures counted { keeper_calls self.new ≡ called (keeper_calls self.old) }
        ensures floor { IfOk result (λ floor. floor ≡ (mem_held self.old).floor) }
        ensures held { mem_held self.new ≡ mem_held self.old }
    {
        self.begin()?;
        Ok(self.floor)
    }

    fn apply(&mut self, alloc: Global, writes: &[RowWrite]) -> Result<(), KeeperError>
        requires { CanApply writes.now (mem_held self.old) }
        ensures fails { (result ≡ Err KeeperError.Failed) ↔ IsTrue (fails_next (keeper_calls self.old)) }
        ensures counted { keeper_calls self.new ≡ called (keeper_calls self.old) }
        ensures ok { OnOk result (mem_held self.new ≡ applied writes.now (mem_held self.old)) }
        ensures err { OnErr result (mem_held self.new ≡ mem_held self.old) }
    {
        self.begin()?;
        Ok(apply_all(alloc, &mut self.rows, &mut self.floor, writes)?)
    }
}
