ghost use Rattle.std.specs.Prelude.{◌≡◌, ◌≤◌, ◌+◌, ◌*◌, ◌%◌, ◌^◌, ◌++◌, [], false, length, replicate, IfOk};
ghost use Rattle.bit_store.specs.Bits.{low_bits, text_of, bits_of};

use crate::bits::{low_part, put};
use agg_outside::{Bytes, Memory, slice_fits};
use std::alloc::Global;
use std::marker::Model;

/// A list of bits that grows at its end within room that it took at the start, as a text. Only the start takes memory.
#[derive(Debug, Drop)]
pub struct ReservedBits {
    bytes: Vec<u8>,
    len: u64,
    room: u64,
}

impl Model for ReservedBits {
    ghost use Rattle.std.specs.Prelude.{take, ◌≤◌, ◌^◌};
    ghost use Rattle.std.specs.Vec.{vec_capacity};
    ghost use Rattle.bit_store.specs.Bits.{bits_of, bytes_for, IsHeld};
    ghost use Rattle.bit_store.specs.Reserved.{Reserved};

    ghost Value = { Reserved };

    ghost view = { λ it. record { bits = take it.len (bits_of it.bytes.items); room = it.room } };

    ghost invariant = { λ it. IsHeld it.len it.bytes.items
        × ((it.len ≤ it.room) × ((it.room ≤ 2 ^ 62) × (bytes_for it.room ≤ vec_capacity it.bytes))) };
}

impl ReservedBits {
    /// No bits yet, and room for so many.
    pub fn with_room(alloc: Global, room: u64) -> Result<ReservedBits, Memory>
        requires { room ≤ 2 ^ 62 }
        ensures { IfOk result (λ it. it ≡ record { bits = []; room = room }) }
    {
        let bytes = Vec::with_capacity(alloc, ((room + 7) / 8) as usize)?;
        Ok(ReservedBits {
            bytes,
            len: 0,
            room,
        })
    }

    /// Appends the low `width` bits of `value`, the least significant first.
    pub fn push(&mut self, value: u64, width: u32)
        requires wide { width ≤ 64 }
        requires room { length self.old.bits + width ≤ self.old.room }
        ensures { self.new ≡ record { bits = self.old.bits ++ low_bits width value; room = self.old.room } }
    {
        match put(&mut self.bytes, self.len, low_part(value, width), width) {
            Ok(()) => self.len += width as u64,
            Err(_) => unreachable!(),
        }
    }

    /// Appends so many bits 0.
    pub fn push_zeros(&mut self, count: u64)
        requires { length self.old.bits + count ≤ self.old.room }
        ensures { self.new ≡ record { bits = self.old.bits ++ replicate count false; room = self.old.room } }
    {
        let len = self.len + count;
        match self.bytes.resize(((len + 7) / 8) as usize, 0) {
            Ok(()) => self.len = len,
            Err(_) => unreachable!(),
        }
    }

    /// Appends the bits of a text, behind whole bytes.
    pub fn push_text(&mut self, text: &[u8])
        requires aligned { length self.old.bits % 8 ≡ 0 }
        requires room { length self.old.bits + 8 * length text.now ≤ self.old.room }
        ensures { self.new ≡ record { bits = self.old.bits ++ bits_of text.now; room = self.old.room } }
    {
        match self.bytes.extend_from_slice(text) {
            Ok(()) => self.len += 8 * text.len() as u64,
            Err(_) => unreachable!(),
        }
    }

    /// Appends the others, behind whole bytes.
    pub fn append(&mut self, others: ReservedBits)
        requires aligned { length self.old.bits % 8 ≡ 0 }
        requires room { length self.old.bits + length others.bits ≤ self.old.room }
        ensures { self.new ≡ record { bits = self.old.bits ++ others.bits; room = self.old.room } }
    {
        match self.bytes.extend_from_slice(others.bytes.as_slice()) {
            Ok(()) => self.len += others.len,
            Err(_) => unreachable!(),
        }
    }

    /// The number of bits.
    pub fn len(&self) -> u64
        ensures { result ≡ length self.now.bits }
    {
        self.len
    }

    /// The bits as a text; unused bits of its last byte are 0.
    pub fn finish(self) -> Bytes
        ensures { result ≡ text_of self.bits }
    {
        let ReservedBits { bytes, .. } = self;
        slice_fits(bytes.as_slice());
        Bytes::from_vec(bytes)
    }
}
