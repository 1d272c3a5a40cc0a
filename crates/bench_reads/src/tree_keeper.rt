//! A keeper of rows in a tree in memory that tells nothing, so that no call has a condition on content, and that fails
//! at one call.
ghost use Rattle.agg_outside.specs.Counts.{HasCause};

use agg_outside::{Bytes, Keeper, KeeperError, Memory, Row, RowId, RowWrite, Rowlist};
use std::alloc::Global;
use std::collections::BTreeMap;

#[derive(Drop)]
struct Body {
    killed: u64,
    act: u8,
    value: Bytes,
}

impl Body {
    fn row(&self, alloc: Global, id: &RowId) -> Result<Row, Memory> {
        Ok(Row {
            id: id.copy(alloc)?,
            killed: self.killed,
            act: self.act,
            value: self.value.copy(alloc)?,
        })
    }
}

#[derive(Drop)]
pub struct TreeKeeper {
    rows: BTreeMap<RowId, Body>,
    floor: u64,
    /// How many calls there were.
    pub calls: u64,
    /// The call that fails, counted from 1.
    pub fails: u64,
    /// How many calls failed.
    pub faults: u64,
}

impl TreeKeeper {
    pub fn new(alloc: Global) -> TreeKeeper {
        TreeKeeper {
            rows: BTreeMap::new(alloc),
            floor: 0,
            calls: 0,
            fails: 0,
            faults: 0,
        }
    }

    fn begin(&mut self) -> Result<(), KeeperError>
        ensures { HasCause KeeperError.Failed self.old.faults self.new.faults result }
    {
        self.calls = self.calls.saturating_add(1);
        if self.calls == self.fails {
            self.faults = self.faults.saturating_add(1);
            return Err(KeeperError::Failed);
        }
        Ok(())
    }
}

fn insert(alloc: Global, rows: &mut BTreeMap<RowId, Body>, row: &Row) -> Result<(), Memory> {
    let body = Body {
        killed: row.killed,
        act: row.act,
        value: row.value.copy(alloc)?,
    };
    match rows.insert(row.id.copy(alloc)?, body) {
        Ok(_) => Ok(()),
        Err(_) => Err(Memory),
    }
}

fn kill(rows: &mut BTreeMap<RowId, Body>, id: &RowId, epoch: u64) {
    if let Some(body) = rows.get_mut(id) {
        body.killed = epoch;
    }
}

// Makes the writes in order.
fn write_all(
    alloc: Global,
    rows: &mut BTreeMap<RowId, Body>,
    floor: &mut u64,
    writes: &[RowWrite],
) -> Result<(), Memory> {
    for write in writes {
        match write {
            RowWrite::Insert(row) => insert(alloc, rows, row)?,
            RowWrite::Kill(id, epoch) => kill(rows, id, *epoch),
            RowWrite::Remove(id) => {
                let _body = rows.remove(id);
            }
            RowWrite::Floor(step) => *floor = *step,
        }
    }
    Ok(())
}

impl Keeper for TreeKeeper {
    ghost use Rattle.std.specs.Prelude.{None};

    ghost faults = { λ k. k.faults };

    ghost held = { λ _. None };

    ghost in_order = { λ _. tt };

    fn seek(&mut self, alloc: Global, from: &RowId) -> Result<Option<Row>, KeeperError> {
        self.begin()?;
        let mut rest = self.rows.range(from..);
        match rest.next() {
            Some((id, body)) => Ok(Some(body.row(alloc, id)?)),
            None => Ok(None),
        }
    }

    fn seek_back(&mut self, alloc: Global, before: &RowId) -> Result<Option<Row>, KeeperError> {
        self.begin()?;
        let mut front = self.rows.range(..before);
        match front.next_back() {
            Some((id, body)) => Ok(Some(body.row(alloc, id)?)),
            None => Ok(None),
        }
    }

    fn scan_some(
        &mut self,
        alloc: Global,
        from: &RowId,
        limit: usize,
    ) -> Result<Rowlist, KeeperError> {
        self.begin()?;
        let mut found = Rowlist::new(alloc);
        for (id, body) in self.rows.range(from..) {
            if found.len() >= limit {
                return Ok(found);
            }
            found.push(body.row(alloc, id)?)?;
        }
        Ok(found)
    }

    fn floor(&mut self) -> Result<u64, KeeperError> {
        self.begin()?;
        Ok(self.floor)
    }

    fn apply(&mut self, alloc: Global, writes: &[RowWrite]) -> Result<(), KeeperError> {
        self.begin()?;
        Ok(write_all(alloc, &mut self.rows, &mut self.floor, writes)?)
    }
}
