//! A sink that fails at chosen calls.
ghost use Rattle.std.specs.Prelude.{◌≡◌, ◌++◌, ◌↔◌, IfOk, Some, Err, OnErr, IsTrue, length};
ghost use Rattle.memory_side.specs.Memory.{FailingSink, CallCount, called, fails_next};

use crate::calls::Calls;
use agg_outside::{Memory, Sink, SinkError};
use std::alloc::Global;
use std::marker::Model;

/// Takes all that is put; the calls whose numbers it was made with answer `Failed`.
#[derive(Debug, Drop)]
pub struct MemSink {
    bytes: Vec<u8>,
    calls: Calls,
}

impl Model for MemSink {
    ghost use Rattle.memory_side.specs.Memory.{FailingSink};

    ghost Value = { FailingSink };

    ghost view = { λ s. record { bytes = s.bytes.items; count = s.calls } };
}

impl MemSink {
    /// A sink to which a copy of these bytes was written. The calls whose numbers, counted from 1,
    /// stand in `fails` will fail.
    pub fn new(alloc: Global, start: &[u8], fails: &[u64]) -> Result<MemSink, Memory>
        ensures bytes { IfOk result (λ s. s.bytes ≡ start.now) }
        ensures count { IfOk result (λ s. s.count ≡ record { calls = 0; fails = fails.now; faults = 0 }) }
    {
        let bytes = Vec::from_slice(alloc, start)?;
        let calls = Calls::new(alloc, fails)?;
        Ok(MemSink { bytes, calls })
    }

    /// All that was written.
    pub fn bytes(&self) -> &[u8]
        ensures { result.now ≡ self.now.bytes }
    {
        self.bytes.as_slice()
    }
}

impl Sink for MemSink {
    ghost faults = { λ s. s.count.faults };

    ghost bytes = { λ s. Some s.bytes };

    fn put(&mut self, piece: &[u8]) -> Result<usize, SinkError>
        ensures fails { (result ≡ Err SinkError.Failed) ↔ IsTrue (fails_next self.old.count) }
        ensures counted { self.new.count ≡ called self.old.count }
        ensures all { IfOk result (λ count. count ≡ length piece.now) }
        ensures appended { IfOk result (λ count. self.new.bytes ≡ self.old.bytes ++ piece.now) }
        ensures err { OnErr result (self.new.bytes ≡ self.old.bytes) }
    {
        if self.calls.begin().is_err() {
            return Err(SinkError::Failed);
        }
        if self.bytes.extend_from_slice(piece).is_err() {
            return Err(SinkError::Memory);
        }
        Ok(piece.len())
    }
}
