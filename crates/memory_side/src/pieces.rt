ghost use Rattle.std.specs.Prelude.{◌≡◌, ◌≤◌, IfOk, take, drop, length};
ghost use Rattle.memory_side.specs.Memory.{Supply, given_count};

use agg_outside::Memory;
use std::alloc::Global;
use std::marker::Model;

/// Bytes that are given out in order, in pieces of at most so many.
#[derive(Debug, Drop)]
pub struct Pieces {
    bytes: Vec<u8>,
    at: usize,
    most: usize,
}

impl Model for Pieces {
    ghost use Rattle.std.specs.Prelude.{◌≤◌, drop, length};
    ghost use Rattle.memory_side.specs.Memory.{Supply};

    ghost Value = { Supply };

    ghost view = { λ p. record { left = drop p.at p.bytes.items; most = p.most } };

    ghost invariant = { λ p. (p.at ≤ length p.bytes.items) × (1 ≤ p.most) };
}

impl Pieces {
    pub fn new(alloc: Global, bytes: &[u8]) -> Result<Pieces, Memory>
        ensures { IfOk result (λ p. p ≡ record { left = bytes.now; most = usize.MAX }) }
    {
        let bytes = Vec::from_slice(alloc, bytes)?;
        Ok(Pieces {
            bytes,
            at: 0,
            most: usize::MAX,
        })
    }

    pub fn set_most(&mut self, most: usize)
        requires { 1 ≤ most }
        ensures { self.new ≡ record self.old { most = most } }
    {
        self.most = most;
    }

    /// Moves the next bytes into the front of `buf`, and answers their number.
    pub fn take(&mut self, buf: &mut [u8]) -> usize
        ensures count { result ≡ given_count (length buf.old) self.old }
        ensures left { self.new ≡ record self.old { left = drop result self.old.left } }
        ensures moved { take result buf.new ≡ take result self.old.left }
        ensures some { 1 ≤ self.old.most }
    {
        let left = self.bytes.len() - self.at;
        let count = buf.len().min(self.most).min(left);
        let end = self.at + count;
        buf[..count].copy_from_slice(&self.bytes[self.at..end]);
        self.at = end;
        count
    }
}
