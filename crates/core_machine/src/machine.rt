use agg_model::Batch;
use agg_outside::{ListOf, Names};

/// A row that a caller opened: what it may read.
#[derive(Debug, Drop)]
pub struct Opening {
    /// Who opened it.
    pub caller: u32,
    /// The caller's number for it.
    pub number: u64,
    /// The next number of the list at its opening.
    pub at: u64,
    /// The names that were visible at its opening.
    pub names: Names,
}

/// Open rows, in the order in which they were opened.
pub type OpenRows = ListOf<Opening>;

/// The list of changes, the open rows and the names of files, after the entries so far.
#[derive(Debug, Drop)]
pub struct Machine {
    pub changes: Batch,
    /// The number from which on the next changes come.
    pub next: u64,
    /// How many numbers a step has.
    pub size: u64,
    pub opened: OpenRows,
    /// The names of files and temporary files that may stand on the disk.
    pub present: Names,
    /// The names of the files that new rows see.
    pub visible: Names,
}
