//! A keeper for tests: a sorted list that tells nothing, and fails at one call.
ghost use Rattle.std.specs.Prelude.{◌≤◌, length};
ghost use Rattle.agg_outside.specs.Counts.{HasCause};

use agg_outside::{Keeper, KeeperError, Memory, Row, RowId, RowWrite, Rowlist};
use std::alloc::Global;

#[derive(Drop)]
pub struct PlainKeeper {
    pub rows: Vec<Row>,
    pub floor: u64,
    /// How many calls there were.
    pub calls: u64,
    /// The call that fails, counted from 1.
    pub fails: u64,
    pub faults: u64,
}

impl PlainKeeper {
    pub fn new(alloc: Global, fails: u64) -> PlainKeeper {
        PlainKeeper {
            rows: Vec::new(alloc),
            floor: 0,
            calls: 0,
            fails,
            faults: 0,
        }
    }

    fn begin(&mut self) -> Result<(), KeeperError>
        ensures { HasCause KeeperError.Failed self.old.faults self.new.faults result }
    {
        self.calls = self.calls.saturating_add(1);
        if self.calls == self.fails {
            self.faults = self.faults.saturating_add(1);
            return Err(KeeperError::Failed);
        }
        Ok(())
    }
}

// How many rows come before the id.
fn place_of(rows: &[Row], id: &RowId) -> usize
    ensures { result ≤ length rows.now }
{
    rows.partition_point(|row| row.id.cmp(id).is_lt())
}

fn row_at(alloc: Global, rows: &[Row], place: usize) -> Result<Option<Row>, Memory> {
    match rows.get(place) {
        None => Ok(None),
        Some(row) => Ok(Some(row.copy(alloc)?)),
    }
}

fn some_from(alloc: Global, rows: &[Row], place: usize, limit: usize) -> Result<Rowlist, Memory> {
    let mut found = Rowlist::new(alloc);
    for row in rows.iter().skip(place).take(limit) {
        found.push(row.copy(alloc)?)?;
    }
    Ok(found)
}

// Makes the writes in order.
fn write_all(
    alloc: Global,
    rows: &mut Vec<Row>,
    floor: &mut u64,
    writes: &[RowWrite],
) -> Result<(), Memory> {
    for write in writes {
        match write {
            RowWrite::Insert(row) => {
                let place = place_of(rows, &row.id);
                rows.insert(place, row.copy(alloc)?)?;
            }
            RowWrite::Kill(id, epoch) => {
                for row in rows.iter_mut() {
                    if row.id.cmp(id).is_eq() {
                        row.killed = *epoch;
                    }
                }
            }
            RowWrite::Remove(id) => {
                let place = place_of(rows, id);
                if place < rows.len() {
                    let _row = rows.remove(place);
                }
            }
            RowWrite::Floor(step) => *floor = *step,
        }
    }
    Ok(())
}

impl Keeper for PlainKeeper {
    ghost use Rattle.std.specs.Prelude.{None};

    ghost faults = { λ k. k.faults };

    ghost held = { λ _. None };

    ghost in_order = { λ _. tt };

    fn seek(&mut self, alloc: Global, from: &RowId) -> Result<Option<Row>, KeeperError> {
        self.begin()?;
        let place = place_of(&self.rows, from);
        Ok(row_at(alloc, &self.rows, place)?)
    }

    fn seek_back(&mut self, alloc: Global, before: &RowId) -> Result<Option<Row>, KeeperError> {
        self.begin()?;
        let place = place_of(&self.rows, before);
        if place == 0 {
            return Ok(None);
        }
        Ok(row_at(alloc, &self.rows, place - 1)?)
    }

    fn scan_some(
        &mut self,
        alloc: Global,
        from: &RowId,
        limit: usize,
    ) -> Result<Rowlist, KeeperError> {
        self.begin()?;
        let place = place_of(&self.rows, from);
        Ok(some_from(alloc, &self.rows, place, limit)?)
    }

    fn floor(&mut self) -> Result<u64, KeeperError> {
        self.begin()?;
        Ok(self.floor)
    }

    fn apply(&mut self, alloc: Global, writes: &[RowWrite]) -> Result<(), KeeperError> {
        self.begin()?;
        Ok(write_all(alloc, &mut self.rows, &mut self.floor, writes)?)
    }
}
