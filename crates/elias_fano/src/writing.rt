ghost use Rattle.std.specs.Prelude.{◌≡◌, ◌<◌, ◌≤◌, ◌+◌, ◌-◌, ◌*◌, ◌/◌, ◌%◌, ◌^◌, ◌++◌, false, length, replicate, IfOk, OnOk};
ghost use Rattle.std.specs.Int.{w64, to_be_bytes};
ghost use Rattle.std.specs.List.Sorted.{IsNonDecreasing};
ghost use Rattle.bit_store.specs.Bits.{bits_of, bytes_for};
ghost use Rattle.elias_fano.specs.Spelling.{spelling, lower_bits, upper_bits};

use crate::opening::width_for;
use agg_outside::{Bytes, Memory};
use bit_store::Bits;
use file_numbers::put_u64;
use std::alloc::Global;

// Bits that wait to be pushed together: fewer than 64, as a number.
const FULL: u32 = 63;

fn low_of(value: u64, width: u32) -> u64
    requires { width < 64 }
    ensures { result ≡ value % 2 ^ width }
{
    value & ((1 << width) - 1)
}

// Appends the low bits of each item.
fn put_lower(bits: &mut Bits, items: &[u64], width: u32) -> Result<(), Memory>
    requires { width < 64 }
    ensures { OnOk result (bits.new ≡ bits.old ++ lower_bits width items.now) }
{
    let mut word = 0u64;
    let mut used = 0u32;
    for item in items {
        if used + width > FULL {
            bits.push(word, used)?;
            word = 0;
            used = 0;
        }
        word += low_of(*item, width) << used;
        used += width;
    }
    bits.push(word, used)
}

// Appends a 1 for each item, behind as many zeros as its upper part rose.
fn put_upper(bits: &mut Bits, items: &[u64], width: u32) -> Result<(), Memory>
    requires narrow { width < 64 }
    requires some { 0 < length items.now }
    requires ascends { IsNonDecreasing items.now }
    ensures { OnOk result (bits.new ≡ bits.old ++ upper_bits width items.now) }
{
    let mut word = 0u64;
    let mut used = 0u32;
    let mut high = 0;
    for item in items {
        let next = *item >> width;
        let rise = next - high;
        if rise < u64::from(FULL - used) {
            used += rise as u32;
            word += 1 << used;
            used += 1;
        } else {
            bits.push(word, used)?;
            bits.push_zeros(rise)?;
            word = 1;
            used = 1;
        }
        high = next;
    }
    bits.push(word, used)
}

// Appends zeros up to the end of the last byte.
fn fill_byte(bits: &mut Bits) -> Result<(), Memory>
    ensures { OnOk result (bits.new ≡ bits.old ++ replicate (8 * bytes_for (length bits.old) - length bits.old) false) }
{
    let used = bits.len() % 8;
    bits.push_zeros((8 - used) % 8)
}

// The header, with room behind it for the parts of so many items up to the last.
fn begun(alloc: Global, count: u64, last: u64, width: u32) -> Result<Bits, Memory>
    requires few { count < 2 ^ 32 }
    requires narrow { width < 64 }
    requires short { last / 2 ^ width ≤ 2 * count }
    ensures { IfOk result (λ bits. bits ≡ bits_of (to_be_bytes w64 count ++ to_be_bytes w64 last)) }
{
    let lower = (count * u64::from(width) + 7) / 8;
    let upper = ((last >> width) + count + 7) / 8;
    let mut text = Vec::with_capacity(alloc, (16 + lower + upper) as usize)?;
    put_u64(&mut text, count)?;
    put_u64(&mut text, last)?;
    Ok(Bits::of(Bytes::from_vec(text)))
}

/// The text of a list, in one piece of its size.
pub fn encode(alloc: Global, items: &[u64]) -> Result<Bytes, Memory>
    requires some { 0 < length items.now }
    requires few { length items.now < 2 ^ 32 }
    requires ascends { IsNonDecreasing items.now }
    ensures { IfOk result (λ text. text ≡ spelling items.now) }
{
    let count = items.len() as u64;
    let last = items[items.len() - 1];
    let width = width_for(count, last);
    let mut text = begun(alloc, count, last, width)?;
    put_lower(&mut text, items, width)?;
    fill_byte(&mut text)?;
    put_upper(&mut text, items, width)?;
    Ok(text.finish())
}
