ghost use Rattle.std.specs.Prelude.{◌≡◌, ◌<◌, ◌≤◌, ◌+◌, ◌*◌, ◌%◌, ◌/◌, ◌^◌, ◌++◌, [], false, length, take, set, slice_index, replicate, OnOk, OnErr};
ghost use Rattle.std.specs.Vec.{vec_capacity};
ghost use Rattle.bit_store.specs.Bits.{low_bits, text_of, IsHeld, bits_of, bytes_for};
ghost use Rattle.bit_store.specs.Counts.{number_in};

use crate::view::BitView;
use agg_outside::{Bytes, Memory, slice_fits};
use std::alloc::Global;
use std::marker::Model;

// More bits than any machine holds: a list that long takes no more, so that its length stays in 64 bits.
const MOST_BITS: u64 = 1 << 62;

/// A list of bits that grows at its end, as a text.
#[derive(Debug, Drop)]
pub struct Bits {
    bytes: Vec<u8>,
    len: u64,
}

impl Model for Bits {
    ghost use Rattle.std.specs.Prelude.{List, Bool, take};
    ghost use Rattle.bit_store.specs.Bits.{bits_of, IsHeld};

    ghost Value = { List Bool };

    ghost view = { λ it. take it.len (bits_of it.bytes.items) };

    ghost invariant = { λ it. IsHeld it.len it.bytes.items };
}

/// The low `width` bits of a number.
pub(crate) fn low_part(value: u64, width: u32) -> u64
    requires { width ≤ 64 }
    ensures { result ≡ value % 2 ^ width }
{
    if width < 64 {
        value & ((1 << width) - 1)
    } else {
        value
    }
}

// Sets bits of one byte above its first `used`, which are all that are set.
fn fill(bytes: &mut Vec<u8>, at: usize, part: u64, used: u32)
    requires within { at < length bytes.old.items }
    requires used { used < 8 }
    requires low { slice_index bytes.old.items at < 2 ^ used }
    requires part { 2 ^ used * part + 2 ^ used ≤ 256 }
    ensures items { bytes.new.items ≡ set bytes.old.items at (slice_index bytes.old.items at + 2 ^ used * part) }
    ensures capacity { vec_capacity bytes.new ≡ vec_capacity bytes.old }
{
    let more = (part << used) as u8;
    bytes[at] += more;
}

/// Puts a value of `width` bits behind the first `len` bits of the bytes; where they have the room, it takes no memory.
pub(crate) fn put(bytes: &mut Vec<u8>, len: u64, value: u64, width: u32) -> Result<(), Memory>
    requires held { IsHeld len bytes.old.items }
    requires few { len ≤ 2 ^ 62 }
    requires wide { width ≤ 64 }
    requires part { value < 2 ^ width }
    ensures ok { OnOk result (number_in bytes.new.items ≡ number_in bytes.old.items + 2 ^ len * value) }
    ensures count { OnOk result (length bytes.new.items ≡ bytes_for (len + width)) }
    ensures err { OnErr result (bytes.new.items ≡ bytes.old.items) }
    ensures capacity { vec_capacity bytes.old ≤ vec_capacity bytes.new }
    ensures full { OnErr result (vec_capacity bytes.old < bytes_for (len + width)) }
{
    let used = (len % 8) as u32;
    let room = (8 - used) % 8;
    let spill = ((width.saturating_sub(room) + 7) / 8) as usize;
    let end = bytes.len();
    let rest = value >> room;
    bytes.extend_from_slice(&rest.to_le_bytes()[..spill])?;
    if room > 0 {
        slice_fits(bytes.as_slice());
        let part = value % (1 << room);
        fill(bytes, end - 1, part, used);
    }
    Ok(())
}

// Keeps the first `len` bits.
fn cut(bytes: &mut Vec<u8>, len: u64)
    requires { len ≤ 8 * length bytes.old.items }
    ensures value { number_in bytes.new.items ≡ number_in bytes.old.items % 2 ^ len }
    ensures count { length bytes.new.items ≡ bytes_for len }
{
    let whole = (len / 8) as usize;
    let used = (len % 8) as u32;
    if used == 0 {
        bytes.truncate(whole);
        return;
    }
    bytes.truncate(whole + 1);
    slice_fits(bytes.as_slice());
    let last = bytes[whole];
    bytes[whole] = last % (1 << used);
}

impl Bits {
    /// No bits yet; takes no memory.
    pub fn new(alloc: Global) -> Bits
        ensures { result ≡ [] }
    {
        Bits {
            bytes: Vec::new(alloc),
            len: 0,
        }
    }

    /// The bits of a text, so that more are put behind them; the text's room is kept.
    pub fn of(text: Bytes) -> Bits
        requires { length text < 2 ^ 60 }
        ensures { result ≡ bits_of text }
    {
        let bytes = text.into_vec();
        let len = 8 * bytes.len() as u64;
        Bits { bytes, len }
    }

    /// Appends the low `width` bits of `value`, the least significant first; after want of memory the
    /// list is as before.
    pub fn push(&mut self, value: u64, width: u32) -> Result<(), Memory>
        requires { width ≤ 64 }
        ensures ok { OnOk result (self.new ≡ self.old ++ low_bits width value) }
        ensures err { OnErr result (self.new ≡ self.old) }
    {
        if self.len > MOST_BITS {
            return Err(Memory);
        }
        put(&mut self.bytes, self.len, low_part(value, width), width)?;
        self.len += width as u64;
        Ok(())
    }

    /// Appends so many bits 0; after want of memory the list is as before.
    pub fn push_zeros(&mut self, count: u64) -> Result<(), Memory>
        ensures ok { OnOk result (self.new ≡ self.old ++ replicate count false) }
        ensures err { OnErr result (self.new ≡ self.old) }
    {
        if self.len > MOST_BITS || count > MOST_BITS {
            return Err(Memory);
        }
        let len = self.len + count;
        self.bytes.resize(((len + 7) / 8) as usize, 0)?;
        self.len = len;
        Ok(())
    }

    /// Takes the bits from place `len` on away.
    pub fn truncate(&mut self, len: u64)
        requires { len ≤ length self.old }
        ensures { self.new ≡ take len self.old }
    {
        cut(&mut self.bytes, len);
        self.len = len;
    }

    /// The number of bits.
    pub fn len(&self) -> u64
        ensures { result ≡ length self.now }
    {
        self.len
    }

    /// The bits, to be read.
    pub fn view(&self) -> BitView<'_>
        ensures { result ≡ self.now }
    {
        BitView::of(self.bytes.as_slice(), self.len)
    }

    /// The bits as a text; unused bits of its last byte are 0. Takes no memory.
    pub fn finish(self) -> Bytes
        ensures text { result ≡ text_of self }
        // What was pushed is read back.
        ensures back { take (length self) (bits_of result) ≡ self }
    {
        let Bits { bytes, len: _ } = self;
        slice_fits(bytes.as_slice());
        Bytes::from_vec(bytes)
    }
}
