//! A source over bytes that are all there.
ghost use Rattle.std.specs.Prelude.{◌≡◌, ◌≤◌, IfOk, Some, drop, take, length, Ok};
ghost use Rattle.memory_side.specs.Memory.{Supply, given_count};

use crate::pieces::Pieces;
use agg_outside::{Failed, Memory, Source};
use std::alloc::Global;
use std::marker::Model;

/// Gives its bytes in order and never fails.
#[derive(Debug, Drop)]
pub struct SureSource {
    pieces: Pieces,
}

impl Model for SureSource {
    ghost use Rattle.memory_side.specs.Memory.{Supply};

    ghost Value = { Supply };

    ghost view = { λ s. s.pieces };
}

impl SureSource {
    /// A source with a copy of these bytes, of which a call may give all.
    pub fn new(alloc: Global, start: &[u8]) -> Result<SureSource, Memory>
        ensures { IfOk result (λ s. s ≡ record { left = start.now; most = usize.MAX }) }
    {
        let pieces = Pieces::new(alloc, start)?;
        Ok(SureSource { pieces })
    }

    /// From now on a call gives at most so many bytes.
    pub fn piece(&mut self, most: usize)
        requires { 1 ≤ most }
        ensures { self.new ≡ record self.old { most = most } }
    {
        self.pieces.set_most(most);
    }
}

impl Source for SureSource {
    ghost faults = { λ _. 0 };

    ghost left = { λ s. Some s.left };

    fn take(&mut self, buf: &mut [u8]) -> Result<usize, Failed>
        ensures count { result ≡ Ok (given_count (length buf.old) self.old) }
        ensures left { IfOk result (λ count. self.new ≡ record self.old { left = drop count self.old.left }) }
        ensures moved { IfOk result (λ count. take count buf.new ≡ take count self.old.left) }
        ensures some { 1 ≤ self.old.most }
    {
        Ok(self.pieces.take(buf))
    }
}
