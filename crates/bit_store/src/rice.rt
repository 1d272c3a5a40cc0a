ghost use Rattle.std.specs.Prelude.{◌≡◌, ℕ, ◌<◌, ◌≤◌, ◌+◌, ◌^◌, ◌++◌, [], length, take, IfSome, IfNone, IsSomeAnd, OnOk, OnErr};
ghost use Rattle.bit_store.specs.Bits.{text_of, bits_of};
ghost use Rattle.bit_store.specs.Rice.{rice_code, StandsAt, Reading};

use crate::bits::Bits;
use crate::view::BitView;
use agg_outside::{Bytes, Memory};
use std::alloc::Global;
use std::marker::Model;

/// Rice codes one behind the other, as a text. The reader is told each code's parameter anew.
#[derive(Debug, Drop)]
pub struct RiceWriter {
    bits: Bits,
}

impl Model for RiceWriter {
    ghost use Rattle.std.specs.Prelude.{List, Bool};

    ghost Value = { List Bool };

    ghost view = { λ it. it.bits };
}

// Puts a code down, or a part of it where memory is short.
fn put_code(bits: &mut Bits, value: u64, r: u32) -> Result<(), Memory>
    requires parameter { r ≤ 16 }
    requires small { value < 2 ^ 20 }
    ensures ok { OnOk result (bits.new ≡ bits.old ++ rice_code r value) }
    ensures keeps { take (length bits.old) bits.new ≡ bits.old }
    ensures grows { length bits.old ≤ length bits.new }
{
    bits.push_zeros(value >> r)?;
    bits.push(1, 1)?;
    bits.push(value, r)
}

// Puts all bits of a view down, or a part of them where memory is short.
fn put_view(bits: &mut Bits, others: &BitView<'_>) -> Result<(), Memory>
    ensures ok { OnOk result (bits.new ≡ bits.old ++ others.now) }
    ensures keeps { take (length bits.old) bits.new ≡ bits.old }
    ensures grows { length bits.old ≤ length bits.new }
{
    let len = others.len();
    let mut at = 0u64;
    while at < len {
        let width = (len - at).min(64);
        bits.push(others.field(at, width as u32), width as u32)?;
        at += width;
    }
    Ok(())
}

impl RiceWriter {
    /// No codes yet; takes no memory.
    pub fn new(alloc: Global) -> RiceWriter
        ensures { result ≡ [] }
    {
        RiceWriter {
            bits: Bits::new(alloc),
        }
    }

    /// Appends the code of `value` with parameter `r`; after want of memory the bits are as before.
    pub fn push(&mut self, value: u64, r: u32) -> Result<(), Memory>
        requires parameter { r ≤ 16 }
        requires small { value < 2 ^ 20 }
        ensures ok { OnOk result (self.new ≡ self.old ++ rice_code r value) }
        ensures err { OnErr result (self.new ≡ self.old) }
    {
        let before = self.bits.len();
        match put_code(&mut self.bits, value, r) {
            Ok(()) => Ok(()),
            Err(refused) => {
                self.bits.truncate(before);
                Err(refused)
            }
        }
    }

    /// Appends the codes of another writer; after want of memory the bits are as before.
    pub fn append(&mut self, others: &RiceWriter) -> Result<(), Memory>
        ensures ok { OnOk result (self.new ≡ self.old ++ others.now) }
        ensures err { OnErr result (self.new ≡ self.old) }
    {
        let before = self.bits.len();
        match put_view(&mut self.bits, &others.bits.view()) {
            Ok(()) => Ok(()),
            Err(refused) => {
                self.bits.truncate(before);
                Err(refused)
            }
        }
    }

    /// The number of bits.
    pub fn len(&self) -> u64
        ensures { result ≡ length self.now }
    {
        self.bits.len()
    }

    /// The codes as a text; unused bits of its last byte are 0. Takes no memory.
    pub fn finish(self) -> Bytes
        ensures text { result ≡ text_of self }
        // What was pushed is read back.
        ensures back { take (length self) (bits_of result) ≡ self }
    {
        let RiceWriter { bits } = self;
        bits.finish()
    }
}

/// Reads Rice codes one behind the other.
#[derive(Debug, Drop)]
pub struct RiceReader<'a> {
    view: BitView<'a>,
    at: u64,
}

impl<'a> Model for RiceReader<'a> {
    ghost use Rattle.bit_store.specs.Rice.{Reading};

    ghost Value = { Reading };

    ghost view = { λ it. record { bits = it.view; at = it.at } };
}

// The number whose code stands at a place, and the place behind the code.
fn code_at(view: &BitView<'_>, at: u64, r: u32) -> Option<(u64, u64)>
    requires { r ≤ 16 }
    ensures value { IfSome result (λ x. (x.0 < 2 ^ 64) × StandsAt view.now at (rice_code r x.0)) }
    ensures end { IfSome result (λ x. x.1 ≡ at + length (rice_code r x.0)) }
    ensures only { (v : ℕ) → v < 2 ^ 64 → StandsAt view.now at (rice_code r v) → IsSomeAnd result (λ x. x.0 ≡ v) }
{
    let len = view.len();
    if at >= len {
        return None;
    }
    let one = view.next_one(at)?;
    let zeros = one - at;
    let start = one + 1;
    let width = u64::from(r);
    if len - start < width || zeros > u64::MAX >> r {
        return None;
    }
    let value = (zeros << r) + view.field(start, r);
    Some((value, start + width))
}

impl<'a> RiceReader<'a> {
    /// Reads from bit `at` on; past the end there is no code.
    pub fn of(view: BitView<'a>, at: u64) -> RiceReader<'a>
        ensures { result ≡ record { bits = view.entry; at = at } }
    {
        RiceReader { view, at }
    }

    /// The number whose code with parameter `r` stands next, and goes behind it. Where no whole code of
    /// a number below 2^64 stands there the answer is `None`, and the reader stays.
    pub fn next(&mut self, r: u32) -> Option<u64>
        requires { r ≤ 16 }
        ensures value { IfSome result (λ v. (v < 2 ^ 64) × StandsAt self.old.bits self.old.at (rice_code r v)) }
        ensures moves { IfSome result (λ v. self.new ≡ record self.old { at = self.old.at + length (rice_code r v) }) }
        ensures only { (v : ℕ) → v < 2 ^ 64 → StandsAt self.old.bits self.old.at (rice_code r v) → result ≡ Some v }
        ensures none { IfNone result (self.new ≡ self.old) }
    {
        let (value, end) = code_at(&self.view, self.at, r)?;
        self.at = end;
        Some(value)
    }
}
