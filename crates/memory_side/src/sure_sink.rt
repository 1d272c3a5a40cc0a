//! A sink into memory.
ghost use Rattle.std.specs.Prelude.{◌≡◌, ◌++◌, [], IfOk, Some, OnErr, IsErr, length};

use agg_outside::{Memory, Sink, SinkError};
use std::alloc::Global;
use std::marker::Model;

/// Takes all that is put, and never fails.
#[derive(Debug, Drop)]
pub struct SureSink {
    bytes: Vec<u8>,
}

impl Model for SureSink {
    ghost use Rattle.std.specs.Prelude.{List, ℕ};

    ghost Value = { List ℕ };

    ghost view = { λ s. s.bytes.items };
}

impl SureSink {
    /// A sink to which a copy of these bytes was written.
    pub fn new(alloc: Global, start: &[u8]) -> Result<SureSink, Memory>
        ensures { IfOk result (λ s. s ≡ start.now) }
    {
        let bytes = Vec::from_slice(alloc, start)?;
        Ok(SureSink { bytes })
    }

    /// A sink to which nothing was written; takes no memory.
    pub fn empty(alloc: Global) -> SureSink
        ensures { result ≡ [] }
    {
        SureSink {
            bytes: Vec::new(alloc),
        }
    }

    /// All that was written.
    pub fn bytes(&self) -> &[u8]
        ensures { result.now ≡ self.now }
    {
        self.bytes.as_slice()
    }
}

impl Sink for SureSink {
    ghost faults = { λ _. 0 };

    ghost bytes = { λ s. Some s };

    fn put(&mut self, piece: &[u8]) -> Result<usize, SinkError>
        ensures all { IfOk result (λ count. count ≡ length piece.now) }
        ensures appended { IfOk result (λ count. self.new ≡ self.old ++ piece.now) }
        ensures err { OnErr result (self.new ≡ self.old) }
        ensures memory_only { IsErr result → result ≡ Err SinkError.Memory }
    {
        if self.bytes.extend_from_slice(piece).is_err() {
            return Err(SinkError::Memory);
        }
        Ok(piece.len())
    }
}
