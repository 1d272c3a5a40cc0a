//! Where a test can hold a thread.

/// A place at which the session or a worker calls its gate.
#[derive(Clone, Copy, Debug, PartialEq, Eq)]
pub enum Point {
    /// A worker has built the files of a step.
    Collated,
    /// A worker has merged files.
    Merged,
    /// The session is about to read.
    BeforeRead,
    /// The session has put the reply of a read.
    Answered,
}

/// Is told where the threads are. It may wait, and changes nothing.
pub trait Gate: Sync {
    fn at(&self, point: Point);
}

/// Returns at once.
#[derive(Clone, Copy, Debug, PartialEq, Eq)]
pub struct NoGate;

impl Gate for NoGate {
    fn at(&self, _: Point) {}
}
