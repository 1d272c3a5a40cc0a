//! A source that fails at chosen calls.
ghost use Rattle.std.specs.Prelude.{◌≡◌, ◌≤◌, ◌↔◌, IfOk, IsErr, IsTrue, OnOk, OnErr, Some, drop, take, length};
ghost use Rattle.memory_side.specs.Memory.{FailingSupply, Supply, CallCount, given_count, called, fails_next};

use crate::calls::Calls;
use crate::pieces::Pieces;
use agg_outside::{Failed, Memory, Source};
use std::alloc::Global;
use std::marker::Model;

/// Gives its bytes in order; the calls whose numbers it was made with answer `Failed`.
#[derive(Debug, Drop)]
pub struct MemSource {
    pieces: Pieces,
    calls: Calls,
}

impl Model for MemSource {
    ghost use Rattle.memory_side.specs.Memory.{FailingSupply};

    ghost Value = { FailingSupply };

    ghost view = { λ s. record { supply = s.pieces; count = s.calls } };
}

impl MemSource {
    /// A source with a copy of these bytes, of which a call may give all. The calls whose numbers,
    /// counted from 1, stand in `fails` will fail.
    pub fn new(alloc: Global, start: &[u8], fails: &[u64]) -> Result<MemSource, Memory>
        ensures supply { IfOk result (λ s. s.supply ≡ record { left = start.now; most = usize.MAX }) }
        ensures count { IfOk result (λ s. s.count ≡ record { calls = 0; fails = fails.now; faults = 0 }) }
    {
        let pieces = Pieces::new(alloc, start)?;
        let calls = Calls::new(alloc, fails)?;
        Ok(MemSource { pieces, calls })
    }

    /// From now on a call gives at most so many bytes.
    pub fn piece(&mut self, most: usize)
        requires { 1 ≤ most }
        ensures supply { self.new.supply ≡ record self.old.supply { most = most } }
        ensures count { self.new.count ≡ self.old.count }
    {
        self.pieces.set_most(most);
    }
}

impl Source for MemSource {
    ghost faults = { λ s. s.count.faults };

    ghost left = { λ s. Some s.supply.left };

    fn take(&mut self, buf: &mut [u8]) -> Result<usize, Failed>
        ensures fails { IsErr result ↔ IsTrue (fails_next self.old.count) }
        ensures counted { self.new.count ≡ called self.old.count }
        ensures err { OnErr result (self.new.supply ≡ self.old.supply) }
        ensures count { IfOk result (λ count. count ≡ given_count (length buf.old) self.old.supply) }
        ensures left { IfOk result (λ count. self.new.supply ≡ record self.old.supply { left = drop count self.old.supply.left }) }
        ensures moved { IfOk result (λ count. take count buf.new ≡ take count self.old.supply.left) }
        ensures some { OnOk result (1 ≤ self.old.supply.most) }
    {
        self.calls.begin()?;
        Ok(self.pieces.take(buf))
    }
}
