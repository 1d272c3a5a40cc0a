//! Rows of so many changes, one in a batch, each of a key of its own.
ghost use Rattle.std.specs.Prelude.{◌≡◌, ◌≤◌, None, IfOk};
ghost use Rattle.agg_model.specs.Batch.{HasNoRepeats};

use crate::tree_keeper::TreeKeeper;
use agg_model::{Act, Batch, Change, Entity};
use agg_outside::{Bytes, Memory, RowId};
use hot_keeper::{Hot, RowsError};
use prune_rows::prune_some;
use row_epochs::Rows;
use std::alloc::Global;

/// The greatest epoch.
const MOST_EPOCH: u64 = 1 << 62;

/// The rows that one prune kills.
const PRUNED: usize = 1000;

/// The keys that one call answers, and the rows of one view.
const PAGE: usize = 100;

/// The key of a change: different numbers have different keys, spread over all that eight bytes can be.
pub fn key_of(number: u64) -> [u8; 8] {
    number.wrapping_mul(0x9e37_79b9_7f4a_7c15).to_be_bytes()
}

// The change with this number.
fn batch_of(alloc: Global, tx: u64) -> Result<Batch, Memory>
    ensures { IfOk result HasNoRepeats }
{
    let change = Change {
        tx,
        entity: Entity::Accounts,
        key: Bytes::of(alloc, &key_of(tx))?,
        act: Act::Put(Bytes::of(alloc, &tx.to_be_bytes())?),
    };
    let mut batch = Batch::new(alloc);
    batch.push(change)?;
    Ok(batch)
}

fn filled(alloc: Global, count: u64) -> Result<Hot<TreeKeeper>, RowsError>
    ensures { IfOk result (λ hot. hot.told ≡ None) }
{
    let mut hot = Hot::of(Rows::of(TreeKeeper::new(alloc), 0));
    for tx in 0..count {
        let batch = batch_of(alloc, tx)?;
        hot.ingest(alloc, &batch)?;
    }
    Ok(hot)
}

/// Rows of a keeper that tells nothing, so that no call has a condition on content.
#[derive(Drop)]
pub struct Store {
    hot: Hot<TreeKeeper>,
    ghost silent: { hot.told ≡ None },
}

impl Store {
    /// The rows of so many changes, with numbers from 0 on.
    pub fn of(alloc: Global, count: u64) -> Result<Store, RowsError> {
        Ok(Store {
            hot: filled(alloc, count)?,
        })
    }

    pub fn epoch(&self) -> u64 {
        self.hot.epoch()
    }

    /// The last byte of the last value of a key.
    pub fn last(&mut self, alloc: Global, key: &[u8]) -> Result<u64, RowsError> {
        let present = self.hot.epoch();
        let act = self
            .hot
            .last(alloc, present, Entity::Accounts, key, 0, u64::MAX)?;
        match act {
            Some(Act::Put(value)) => Ok(u64::from(value.as_slice().last().copied().unwrap_or(0))),
            _ => Ok(0),
        }
    }

    /// The sum of a page of a key's numbers.
    pub fn times(&mut self, alloc: Global, key: &[u8], back: bool) -> Result<u64, RowsError> {
        let present = self.hot.epoch();
        let found = self.hot.times(
            alloc,
            present,
            Entity::Accounts,
            key,
            0,
            u64::MAX,
            back,
            PAGE,
        )?;
        let mut sum = 0u64;
        for number in found.as_slice() {
            sum = sum.wrapping_add(*number);
        }
        Ok(sum)
    }

    /// The sum of the first bytes of a page of the keys that changed from a number on.
    pub fn keys(&mut self, alloc: Global, from: &[u8], first: u64) -> Result<u64, RowsError> {
        let present = self.hot.epoch();
        let found = self.hot.keys(
            alloc,
            present,
            Entity::Accounts,
            from,
            first,
            u64::MAX,
            PAGE,
        )?;
        let mut sum = 0u64;
        for key in found.as_slice() {
            sum = sum.wrapping_add(u64::from(key.as_slice().first().copied().unwrap_or(0)));
        }
        Ok(sum)
    }

    /// How many alive rows stand below a number.
    pub fn low(&mut self, alloc: Global, below: u64) -> Result<u64, RowsError> {
        Ok(self.hot.low(alloc, below)?.alive)
    }

    /// The sum of the numbers of so many steps of equal size, in order.
    pub fn steps(&mut self, alloc: Global, count: u64, steps: u64) -> Result<u64, RowsError> {
        let steps = steps.min(4096);
        let size = (count / steps.max(1)).saturating_add(1).min(1 << 32);
        let mut sum = 0u64;
        for step in 0..steps {
            let found = self.hot.step_rows(alloc, step, size)?;
            for change in found.changes.as_slice() {
                sum = sum.wrapping_add(change.tx);
            }
        }
        Ok(sum)
    }

    /// How many rows so many prunes of all numbers below `size` kill.
    pub fn prunes(&mut self, alloc: Global, size: u64, rounds: u64) -> Result<u64, RowsError> {
        let size = size.min(1 << 32);
        let mut sum = 0u64;
        for _ in 0..rounds {
            let pruned = prune_some(alloc, &mut self.hot, 1, size, MOST_EPOCH, PRUNED)?;
            sum = sum.wrapping_add(pruned.killed);
            if pruned.left == 0 {
                return Ok(sum);
            }
        }
        Ok(sum)
    }

    /// The same rows for views of them.
    pub fn into_viewed(self) -> Viewed {
        let present = self.hot.epoch();
        Viewed {
            present,
            rows: self.hot.into_rows(),
        }
    }
}

/// Rows that pages of rows are viewed of.
#[derive(Drop)]
pub struct Viewed {
    present: u64,
    rows: Rows<TreeKeeper>,
    ghost silent: { rows.told ≡ None },
}

impl Viewed {
    /// The sum of the numbers of a page of rows.
    pub fn page(&mut self, alloc: Global, from: &[u8]) -> Result<u64, RowsError> {
        let from = RowId {
            entity: 0,
            key: Bytes::of(alloc, from)?,
            tx: 0,
            born: 0,
        };
        let found = self.rows.view_some(alloc, self.present, &from, PAGE)?;
        let mut sum = 0u64;
        for row in found.as_slice() {
            sum = sum.wrapping_add(row.id.tx);
        }
        Ok(sum)
    }
}
