//! A keeper of rows in memory.
ghost use Rattle.std.specs.Prelude.{◌≡◌, IfOk, IsTrue};
ghost use Rattle.agg_outside.specs.Rows.{ascends};
ghost use Rattle.memory_side.specs.RowTree.{rows_of};

use crate::row_tree::{
    RowTree, all_rows, first_row_from, last_row_before, some_rows_from, tree_of,
};
use crate::tree_writes::apply_all;
use agg_outside::{Keeper, KeeperError, KeeperStart, Memory, Row, RowId, RowWrite, Rowlist};
use std::alloc::Global;

/// Keeps its rows in a tree in memory, and never fails.
#[derive(Debug, Drop)]
pub struct SureKeeper {
    rows: RowTree,
    floor: u64,
    ghost in_order: { IsTrue (ascends (rows_of rows.entries)) },
}

impl SureKeeper {
    ghost use Rattle.memory_side.specs.MemoryKeepers.{sure_held};

    /// A keeper with a copy of these rows, and this floor.
    pub fn new(alloc: Global, start: &KeeperStart) -> Result<SureKeeper, Memory>
        requires { IsTrue (ascends start.now.rows) }
        ensures { IfOk result (λ k. sure_held k ≡ record { rows = start.now.rows; floor = start.now.floor }) }
    {
        let rows = tree_of(alloc, start.rows.as_slice())?;
        Ok(SureKeeper {
            rows,
            floor: start.floor,
        })
    }

    /// A copy of the rows in order: they stand in a tree, which can't lend a list.
    pub fn rows(&self, alloc: Global) -> Result<Rowlist, Memory>
        ensures { IfOk result (λ rows. rows ≡ (sure_held self.now).rows) }
    {
        all_rows(alloc, &self.rows)
    }
}

impl Keeper for SureKeeper {
    ghost use Rattle.std.specs.Prelude.{Some};
    ghost use Rattle.memory_side.specs.MemoryKeepers.{sure_held};

    ghost faults = { λ _. 0 };

    ghost held = { λ k. Some (sure_held k) };

    ghost in_order = { λ k. k.in_order };

    fn seek(&mut self, alloc: Global, from: &RowId) -> Result<Option<Row>, KeeperError> {
        Ok(first_row_from(alloc, &self.rows, from)?)
    }

    fn seek_back(&mut self, alloc: Global, before: &RowId) -> Result<Option<Row>, KeeperError> {
        Ok(last_row_before(alloc, &self.rows, before)?)
    }

    fn scan_some(
        &mut self,
        alloc: Global,
        from: &RowId,
        limit: usize,
    ) -> Result<Rowlist, KeeperError> {
        Ok(some_rows_from(alloc, &self.rows, from, limit)?)
    }

    fn floor(&mut self) -> Result<u64, KeeperError> {
        Ok(self.floor)
    }

    fn apply(&mut self, alloc: Global, writes: &[RowWrite]) -> Result<(), KeeperError> {
        Ok(apply_all(alloc, &mut self.rows, &mut self.floor, writes)?)
    }
}
