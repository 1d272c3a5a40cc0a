ghost use Rattle.std.specs.Prelude.{◌≡◌, ◌<◌, ◌≤◌, ◌+◌, ◌*◌, ◌%◌, ◌/◌, ◌^◌, false, length, take, drop, slice_index_or, count_ones, IfSome, IfNone};
ghost use Rattle.std.specs.Int.{w64, from_le_bytes};
ghost use Rattle.bit_store.specs.Bits.{number_of, bits_of, ones_of, IsOneAt, IsZeroAt};
ghost use Rattle.bit_store.specs.Counts.{number_in, IsPlaceIn};

use crate::bits::low_part;
use agg_outside::slice_fits;
use std::marker::Model;

/// The first bits of a text.
#[derive(Debug, Drop)]
pub struct BitView<'a> {
    bytes: &'a [u8],
    len: u64,
}

impl<'a> Model for BitView<'a> {
    ghost use Rattle.std.specs.Prelude.{List, Bool, take, length, ◌≤◌, ◌*◌};
    ghost use Rattle.bit_store.specs.Bits.{bits_of};

    ghost Value = { List Bool };

    ghost view = { λ it. take it.len (bits_of it.bytes.now) };

    ghost invariant = { λ it. it.len ≤ 8 * length it.bytes.now };
}

// At most eight bytes as a number, the first the least.
fn few(bytes: &[u8]) -> u64
    requires { length bytes.now ≤ 8 }
    ensures { result ≡ number_in bytes.now }
{
    let len = bytes.len();
    let mut number = 0;
    for k in 0..len {
        number = number * 256 + u64::from(bytes[len - 1 - k]);
    }
    number
}

// Eight bytes as a number, the first the least.
fn word_at(bytes: &[u8], at: usize) -> u64
    requires { at + 8 ≤ length bytes.now }
    ensures { result ≡ from_le_bytes w64 (take 8 (drop at bytes.now)) }
{
    u64::from_le_bytes([
        bytes[at],
        bytes[at + 1],
        bytes[at + 2],
        bytes[at + 3],
        bytes[at + 4],
        bytes[at + 5],
        bytes[at + 6],
        bytes[at + 7],
    ])
}

// The next eight bytes as a number, the first the least; past the end they are 0.
fn window(bytes: &[u8], start: usize) -> u64
    requires { start ≤ length bytes.now }
    ensures { result ≡ number_in (take 8 (drop start bytes.now)) }
{
    if bytes.len() - start < 8 {
        few(&bytes[start..])
    } else {
        word_at(bytes, start)
    }
}

// One byte as a number.
fn byte_at(bytes: &[u8], at: usize) -> u64
    requires { at < length bytes.now }
    ensures value { result ≡ slice_index_or bytes.now at 0 }
    ensures byte { result < 256 }
{
    u64::from(bytes[at])
}

// From the start of a byte on, counts the ones of whole words of 64 bits: the place behind them, and
// how many ones they have.
fn whole_ones(bytes: &[u8], len: u64, from: u64, to: u64) -> (u64, u64)
    requires fits { len ≤ 8 * length bytes.now }
    requires inside { to ≤ len }
    requires order { from ≤ to }
    ensures order { from ≤ result.0 }
    ensures within { result.0 ≤ to }
    ensures counted { ones_of (take from (take len (bits_of bytes.now))) + result.1 ≡ ones_of (take result.0 (take len (bits_of bytes.now))) }
{
    let mut at = from;
    let mut total = 0;
    if from % 8 == 0 {
        while to - at >= 64 {
            total += u64::from(word_at(bytes, (at / 8) as usize).count_ones());
            at += 64;
        }
    }
    (at, total)
}

// From the start of a byte on, goes past words of 64 bits in which the k-th 1 doesn't lie: the place
// behind them, and how many ones are left to go past there.
fn past_ones(bytes: &[u8], len: u64, from: u64, k: u64) -> (u64, u64)
    requires fits { len ≤ 8 * length bytes.now }
    requires inside { from ≤ len }
    ensures order { from ≤ result.0 }
    ensures within { result.0 ≤ len }
    ensures left { ones_of (take result.0 (take len (bits_of bytes.now))) + result.1 ≡ ones_of (take from (take len (bits_of bytes.now))) + k }
{
    let mut at = from;
    let mut left = k;
    if from % 8 == 0 {
        while len - at >= 64 {
            let here = u64::from(word_at(bytes, (at / 8) as usize).count_ones());
            if here > left {
                break;
            }
            left -= here;
            at += 64;
        }
    }
    (at, left)
}

// The same for the k-th 0.
fn past_zeros(bytes: &[u8], len: u64, from: u64, k: u64) -> (u64, u64)
    requires fits { len ≤ 8 * length bytes.now }
    requires inside { from ≤ len }
    ensures order { from ≤ result.0 }
    ensures within { result.0 ≤ len }
    ensures left { result.0 + ones_of (take from (take len (bits_of bytes.now))) + result.1 ≡ from + ones_of (take result.0 (take len (bits_of bytes.now))) + k }
{
    let mut at = from;
    let mut left = k;
    if from % 8 == 0 {
        while len - at >= 64 {
            let here = 64 - u64::from(word_at(bytes, (at / 8) as usize).count_ones());
            if here > left {
                break;
            }
            left -= here;
            at += 64;
        }
    }
    (at, left)
}

// The place of the k-th 1 of a number, by halves.
fn place_in(word: u64, k: u32) -> u32
    requires { k < count_ones word }
    ensures { IsPlaceIn word k result }
{
    let mut left = k;
    let mut at = 0;
    let mut size = 6u32;
    while size > 0 {
        size -= 1;
        let half = 1u32 << size;
        let low = low_part(word >> at, half).count_ones();
        if low <= left {
            left -= low;
            at += half;
        }
    }
    at
}

impl<'a> BitView<'a> {
    /// The first `len` bits of the text.
    pub fn of(bytes: &'a [u8], len: u64) -> BitView<'a>
        requires { len ≤ 8 * length bytes.now }
        ensures { result ≡ take len (bits_of bytes.now) }
    {
        BitView { bytes, len }
    }

    /// The same view once more.
    pub fn again(&self) -> BitView<'a>
        ensures { result ≡ self.now }
    {
        BitView {
            bytes: self.bytes,
            len: self.len,
        }
    }

    /// The first `len` bits of the view, or all of it.
    pub fn front(&self, len: u64) -> BitView<'a>
        ensures { result ≡ take len self.now }
    {
        BitView {
            bytes: self.bytes,
            len: len.min(self.len),
        }
    }

    /// The number of bits.
    pub fn len(&self) -> u64
        ensures { result ≡ length self.now }
    {
        self.len
    }

    pub fn get(&self, i: u64) -> bool
        requires { i < length self.now }
        ensures { result ≡ slice_index_or self.now i false }
    {
        slice_fits(self.bytes);
        let byte = self.bytes[(i / 8) as usize];
        (byte >> (i % 8)) & 1 == 1
    }

    /// The number whose digits are the next `width` bits from `i` on, the first the least significant.
    pub fn field(&self, i: u64, width: u32) -> u64
        requires inside { i + width ≤ length self.now }
        requires wide { width ≤ 64 }
        ensures { result ≡ number_of (take width (drop i self.now)) }
    {
        let start = (i / 8) as usize;
        let used = (i % 8) as u32;
        let low = window(self.bytes, start) >> used;
        if used + width <= 64 {
            return low_part(low, width);
        }
        let last = byte_at(self.bytes, start + 8);
        low + (low_part(last, used + width - 64) << (64 - used))
    }

    /// How many of the first `i` bits are 1.
    pub fn ones_before(&self, i: u64) -> u64
        requires { i ≤ length self.now }
        ensures { result ≡ ones_of (take i self.now) }
    {
        self.ones_between(0, i)
    }

    /// How many of the bits from `from` up to `to` are 1.
    pub fn ones_between(&self, from: u64, to: u64) -> u64
        requires order { from ≤ to }
        requires inside { to ≤ length self.now }
        ensures { ones_of (take from self.now) + result ≡ ones_of (take to self.now) }
    {
        let (mut at, mut total) = whole_ones(self.bytes, self.len, from, to);
        while to - at > 64 {
            total += u64::from(self.field(at, 64).count_ones());
            at += 64;
        }
        total + u64::from(self.field(at, (to - at) as u32).count_ones())
    }

    /// The place of the k-th 1, counted from 0.
    pub fn select_one(&self, k: u64) -> Option<u64>
        ensures found { IfSome result (λ p. IsOneAt self.now p × (ones_of (take p self.now) ≡ k)) }
        ensures none { IfNone result (ones_of self.now ≤ k) }
    {
        self.select_one_from(0, k)
    }

    /// The place of the k-th 1 from `from` on, counted from 0.
    pub fn select_one_from(&self, from: u64, k: u64) -> Option<u64>
        requires { from ≤ length self.now }
        ensures found { IfSome result (λ p. (from ≤ p) × IsOneAt self.now p × (ones_of (take p self.now) ≡ ones_of (take from self.now) + k)) }
        ensures none { IfNone result (ones_of self.now ≤ ones_of (take from self.now) + k) }
    {
        let (mut at, mut left) = past_ones(self.bytes, self.len, from, k);
        while at < self.len() {
            let width = (self.len() - at).min(64);
            let word = self.field(at, width as u32);
            let ones = u64::from(word.count_ones());
            if left < ones {
                return Some(at + u64::from(place_in(word, left as u32)));
            }
            left -= ones;
            at += width;
        }
        None
    }

    /// The place of the k-th 0 from `from` on, counted from 0.
    pub fn select_zero_from(&self, from: u64, k: u64) -> Option<u64>
        requires { from ≤ length self.now }
        ensures found { IfSome result (λ p. (from ≤ p) × IsZeroAt self.now p × (p + ones_of (take from self.now) ≡ from + ones_of (take p self.now) + k)) }
        ensures none { IfNone result (length self.now + ones_of (take from self.now) ≤ from + ones_of self.now + k) }
    {
        let (mut at, mut left) = past_zeros(self.bytes, self.len, from, k);
        while at < self.len() {
            let width = (self.len() - at).min(64);
            let word = self.field(at, width as u32);
            let zeros = width - u64::from(word.count_ones());
            if left < zeros {
                return Some(at + u64::from(place_in(!word, left as u32)));
            }
            left -= zeros;
            at += width;
        }
        None
    }

    /// The place of the first 1 from `from` on.
    pub fn next_one(&self, from: u64) -> Option<u64>
        requires { from ≤ length self.now }
        ensures found { IfSome result (λ p. (from ≤ p) × IsOneAt self.now p × (ones_of (take p self.now) ≡ ones_of (take from self.now))) }
        ensures none { IfNone result (ones_of self.now ≡ ones_of (take from self.now)) }
    {
        let mut at = from;
        while at < self.len() {
            let width = (self.len() - at).min(64);
            let word = self.field(at, width as u32);
            if word != 0 {
                return Some(at + u64::from(word.trailing_zeros()));
            }
            at += width;
        }
        None
    }

    /// The place of the last 1 before `to`.
    pub fn last_one(&self, to: u64) -> Option<u64>
        requires { to ≤ length self.now }
        ensures found { IfSome result (λ p. (p < to) × IsOneAt self.now p × (ones_of (take to self.now) ≡ ones_of (take p self.now) + 1)) }
        ensures none { IfNone result (ones_of (take to self.now) ≡ 0) }
    {
        let mut at = to;
        while at > 0 {
            let width = at.min(64);
            let word = self.field(at - width, width as u32);
            if word != 0 {
                return Some(at - width + u64::from(word.ilog2()));
            }
            at -= width;
        }
        None
    }
}
