ghost use Rattle.std.specs.Prelude.{◌≡◌, ◌<◌, ◌^◌, Some};
ghost use Rattle.agg_model.specs.Act.{act_number, act_value, act_in};
ghost use Rattle.agg_model.specs.Batch.{content_of_change};
ghost use Rattle.agg_model.specs.ChangeList.{value_of_act};
ghost use Rattle.agg_model.specs.Contents.{word_of};

use crate::entity::Entity;
use agg_outside::{Bytes, ListOf};
use std::alloc::Global;

/// What a change does to its key.
#[derive(Debug, Drop, PartialEq, Eq)]
pub enum Act {
    /// The key has this value from the next number on (domains).
    Put(Bytes),
    /// The key has no value from the next number on (domains).
    Del,
    /// The key occurs at this number (indexes).
    Mark,
}

/// One change: what happened to a key of an entity at a transaction number.
#[derive(Debug, Drop, PartialEq, Eq)]
pub struct Change {
    pub tx: u64,
    pub entity: Entity,
    pub key: Bytes,
    pub act: Act,
}

/// Changes in the order in which they came.
pub type Batch = ListOf<Change>;

/// The changes of one step, sorted by entity, key and transaction number.
#[derive(Debug, Drop)]
pub struct StepRows {
    pub step: u64,
    pub changes: Batch,
}

impl Act {
    /// The number in a row; with the value there it tells the act again.
    pub fn number(&self) -> u8
        ensures number { result ≡ act_number self.now }
        ensures back { act_in result (act_value self.now) ≡ Some self.now }
    {
        match self {
            Act::Put(_) => 0,
            Act::Del => 1,
            Act::Mark => 2,
        }
    }

    /// The value in a row, which is empty where the act has none.
    pub fn value(&self) -> &[u8]
        ensures value { result.now ≡ act_value self.now }
        ensures word { result.now ≡ word_of (value_of_act self.now) }
    {
        match self {
            Act::Put(value) => value.as_slice(),
            Act::Del => &[],
            Act::Mark => &[],
        }
    }

    /// The value in a row, without a copy.
    pub fn into_value(self, alloc: Global) -> Bytes
        ensures { result ≡ act_value self }
    {
        match self {
            Act::Put(value) => value,
            Act::Del => Bytes::from_vec(Vec::new(alloc)),
            Act::Mark => Bytes::from_vec(Vec::new(alloc)),
        }
    }

    /// The act of a row's number and value; `None` where no act has the number. The value counts
    /// for a put alone.
    pub fn of_number(number: u8, value: Bytes) -> Option<Act>
        ensures { result ≡ act_in number value }
    {
        match number {
            0 => Some(Act::Put(value)),
            1 => Some(Act::Del),
            2 => Some(Act::Mark),
            _ => None,
        }
    }
}

impl Change {
    /// The bytes of key and value, and 64: what limits count.
    pub fn content(&self) -> u64
        requires { content_of_change self.now < 2 ^ 63 }
        ensures { result ≡ content_of_change self.now }
    {
        self.key.as_slice().len() as u64 + self.act.value().len() as u64 + 64
    }
}
