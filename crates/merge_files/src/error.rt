use agg_outside::Memory;

/// Why groups are not merged.
#[derive(Clone, Copy, Debug, PartialEq, Eq)]
pub enum MergeError {
    /// The group at this place is the first that is of another entity, or doesn't go on where the one before it
    /// ended; the first and the last have to begin and end as the whole range does.
    NotAdjacent(usize),
    /// Memory could not be had.
    Memory,
}

impl From<Memory> for MergeError {
    fn from(_: Memory) -> MergeError {
        MergeError::Memory
    }
}
