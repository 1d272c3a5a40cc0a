//! A table of rows by the bytes of their ids.

use agg_outside::{KeeperError, Row};
use std::alloc::Global;

/// A row as the table has it.
#[derive(Debug, Drop)]
pub struct Record {
    /// The bytes of the row's id.
    pub place: Vec<u8>,
    pub killed: u64,
    pub act: u8,
    pub value: Vec<u8>,
}

/// One write of `Table::apply`; a row is named by the bytes of its id.
#[derive(Debug, Drop)]
pub enum TableWrite<'a> {
    /// A row whose place is new.
    Insert(Vec<u8>, &'a Row),
    /// Sets `killed` of the row at the place.
    Kill(Vec<u8>, u64),
    /// Takes the row at the place away.
    Remove(Vec<u8>),
    /// Sets the floor.
    Floor(u64),
}

/// Rows by their places, which are compared byte by byte, and the floor.
///
/// No contract says what a table holds. An error is `Memory` where memory was wanting, and else
/// `Failed`.
pub trait Table: Drop {
    /// The first row whose place isn't below `from`.
    fn row_from(&mut self, alloc: Global, from: &[u8]) -> Result<Option<Record>, KeeperError>;

    /// The last row whose place is below `before`.
    fn row_before(&mut self, alloc: Global, before: &[u8]) -> Result<Option<Record>, KeeperError>;

    /// The first `limit` rows whose places aren't below `from`, in order.
    fn rows_from(
        &mut self,
        alloc: Global,
        from: &[u8],
        limit: usize,
    ) -> Result<Vec<Record>, KeeperError>;

    fn floor(&mut self) -> Result<u64, KeeperError>;

    /// All writes in order, and after an error none of them.
    fn apply(&mut self, alloc: Global, writes: &[TableWrite<'_>]) -> Result<(), KeeperError>;
}
