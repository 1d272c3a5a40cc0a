//! A keeper of rows in a tree in memory that tells nothing, so that no call has a condition on content.
use agg_outside::{Bytes, Keeper, KeeperError, Memory, Row, RowId, RowWrite, Rowlist};
use std::alloc::Global;
use std::collections::BTreeMap;

#[derive(Drop)]
struct Body {
    killed: u64,
    act: u8,
    value: Bytes,
}

impl Body {
    fn row(&self, alloc: Global, id: &RowId) -> Result<Row, Memory> {
        Ok(Row {
            id: id.copy(alloc)?,
            killed: self.killed,
            act: self.act,
            value: self.value.copy(alloc)?,
        })
    }
}

#[derive(Drop)]
pub struct TreeKeeper {
    rows: BTreeMap<RowId, Body>,
    floor: u64,
}

impl TreeKeeper {
    pub fn new(alloc: Global) -> TreeKeeper {
        TreeKeeper {
            rows: BTreeMap::new(alloc),
            floor: 0,
        }
    }

    fn insert(&mut self, alloc: Global, row: &Row) -> Result<(), Memory> {
        let body = Body {
            killed: row.killed,
            act: row.act,
            value: row.value.copy(alloc)?,
        };
        match self.rows.insert(row.id.copy(alloc)?, body) {
            Ok(_) => Ok(()),
            Err(_) => Err(Memory),
        }
    }

    fn kill(&mut self, id: &RowId, epoch: u64) {
        if let Some(body) = self.rows.get_mut(id) {
            body.killed = epoch;
        }
    }
}

impl Keeper for TreeKeeper {
    ghost use Rattle.std.specs.Prelude.{None};

    ghost faults = { λ _. 0 };

    ghost held = { λ _. None };

    ghost in_order = { λ _. tt };

    fn seek(&mut self, alloc: Global, from: &RowId) -> Result<Option<Row>, KeeperError> {
        let mut rest = self.rows.range(from..);
        match rest.next() {
            Some((id, body)) => Ok(Some(body.row(alloc, id)?)),
            None => Ok(None),
        }
    }

    fn seek_back(&mut self, alloc: Global, before: &RowId) -> Result<Option<Row>, KeeperError> {
        let mut front = self.rows.range(..before);
        match front.next_back() {
            Some((id, body)) => Ok(Some(body.row(alloc, id)?)),
            None => Ok(None),
        }
    }

    fn scan_some(
        &mut self,
        alloc: Global,
        from: &RowId,
        limit: usize,
    ) -> Result<Rowlist, KeeperError> {
        let mut found = Rowlist::new(alloc);
        for (id, body) in self.rows.range(from..) {
            if found.len() >= limit {
                return Ok(found);
            }
            found.push(body.row(alloc, id)?)?;
        }
        Ok(found)
    }

    fn floor(&mut self) -> Result<u64, KeeperError> {
        Ok(self.floor)
    }

    fn apply(&mut self, alloc: Global, writes: &[RowWrite]) -> Result<(), KeeperError> {
        for write in writes {
            match write {
                RowWrite::Insert(row) => self.insert(alloc, row)?,
                RowWrite::Kill(id, epoch) => self.kill(id, *epoch),
                RowWrite::Remove(id) => {
                    let _body = self.rows.remove(id);
                }
                RowWrite::Floor(step) => self.floor = *step,
            }
        }
        Ok(())
    }
}
