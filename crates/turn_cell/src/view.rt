//! What the proofs know of a pass. No value of these types is made.
use std::collections::LinkedList;

/// A pass with no ticket, one that waits with a ticket, and one that has its turn.
pub enum Stage {
    Idle,
    Waits,
    HasTurn,
}

/// A pass's place in the queue: its ticket, and with its turn the history that it found.
pub struct QueuePlace<R> {
    pub stage: Stage,
    pub ticket: u64,
    pub found: LinkedList<R>,
}

/// The number and the records of a pass that was joined.
pub struct Ended<R> {
    pub number: u64,
    pub records: LinkedList<R>,
}

/// What a pass knows: its number, the start of the cell's states, the history that it has seen, and
/// its own records in it. A pass that was joined doesn't live.
pub struct Knowledge<R, T> {
    pub live: bool,
    pub number: u64,
    pub start: Option<T>,
    pub seen: LinkedList<R>,
    pub mine: LinkedList<R>,
    /// Of the two histories that were joined last, the shorter.
    pub shorter: LinkedList<R>,
    /// Of pass 0 alone: how many numbers were given out.
    pub made: u64,
    /// Of pass 0 alone: how many passes were split from it and not joined.
    pub out: u64,
    /// Of pass 0 alone: those that were joined, in this order.
    pub ended: LinkedList<Ended<R>>,
    /// Of pass 0 alone: whether a number was drawn for a split that isn't done.
    pub splitting: bool,
}

/// What the seat of a pass knows.
pub struct View<R, T> {
    pub place: QueuePlace<R>,
    pub knowledge: Knowledge<R, T>,
}
