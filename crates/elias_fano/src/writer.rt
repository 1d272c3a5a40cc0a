ghost use Rattle.std.specs.Prelude.{◌≡◌, ◌<◌, ◌≤◌, ◌^◌, ◌++◌, ◌∷◌, [], length, All, IfOk};
ghost use Rattle.std.specs.List.Sorted.{IsNonDecreasing};
ghost use Rattle.elias_fano.specs.Spelling.{last_of, spelling};

use crate::list::EfList;
use crate::opening::width_for;
use agg_outside::{Bytes, Memory};
use bit_store::ReservedBits;
use std::alloc::Global;
use std::marker::Model;

/// A text of a list while it is written, out of lists that follow each other. How many items there will be and which is
/// the last is said at the start, and the room of the whole text taken there; nothing behind takes memory.
#[derive(Debug, Drop)]
pub struct EfWriter {
    count: u64,
    last: u64,
    width: u32,
    placed: u64,
    high: u64,
    lower: ReservedBits,
    upper: ReservedBits,
}

impl Model for EfWriter {
    ghost use Rattle.elias_fano.specs.Writing.{Writing, IsWriting, items_in};

    ghost Value = { Writing };

    ghost view = { λ it. record {
      count = it.count;
      last = it.last;
      items = items_in it.placed it.width it.lower.bits it.upper.bits;
    } };

    ghost invariant = { λ it. IsWriting it.count it.last it.width it.placed it.high it.lower it.upper
        (items_in it.placed it.width it.lower.bits it.upper.bits) };
}

impl EfWriter {
    /// No items yet, of a list that will have so many and end with `last`.
    pub fn of(alloc: Global, count: u64, last: u64) -> Result<EfWriter, Memory>
        requires some { 0 < count }
        requires few { count < 2 ^ 32 }
        ensures { IfOk result (λ it. it ≡ record { count = count; last = last; items = [] }) }
    {
        let width = width_for(count, last);
        let lower_bytes = (count * u64::from(width) + 7) / 8;
        let upper_len = (last >> width) + count;
        let upper_bytes = (upper_len + 7) / 8;
        let mut lower = ReservedBits::with_room(alloc, 128 + 8 * lower_bytes + 8 * upper_bytes)?;
        lower.push_text(&count.to_be_bytes());
        lower.push_text(&last.to_be_bytes());
        let upper = ReservedBits::with_room(alloc, upper_len)?;
        Ok(EfWriter {
            count,
            last,
            width,
            placed: 0,
            high: 0,
            lower,
            upper,
        })
    }

    // Appends one item: its low bits, and a 1 behind as many zeros as its upper part rose.
    fn put(&mut self, item: u64)
        requires fits { length self.old.items < self.old.count }
        requires ascends { last_of self.old.items ≤ item }
        requires most { item ≤ self.old.last }
        ensures { self.new ≡ record self.old { items = self.old.items ++ item ∷ [] } }
    {
        let next = item >> self.width;
        let rise = next - self.high;
        self.lower.push(item, self.width);
        self.upper.push_zeros(rise);
        self.upper.push(1, 1);
        self.high = next;
        self.placed += 1;
    }

    /// Appends the items of a part. Each costs two pushes of bits.
    pub fn add(&mut self, part: &EfList<'_>)
        requires ascends { IsNonDecreasing (self.old.items ++ part.now) }
        requires fits { length (self.old.items ++ part.now) ≤ self.old.count }
        requires most { All (λ item. item ≤ self.old.last) part.now }
        ensures { self.new ≡ record self.old { items = self.old.items ++ part.now } }
    {
        for item in part.iter_from(0) {
            self.put(item);
        }
    }

    /// The text of the items, in one piece of its size.
    pub fn finish(self) -> Bytes
        requires whole { length self.items ≡ self.count }
        requires last { last_of self.items ≡ self.last }
        ensures { result ≡ spelling self.items }
    {
        let EfWriter {
            mut lower,
            upper,
            ..
        } = self;
        let used = lower.len() % 8;
        lower.push_zeros((8 - used) % 8);
        lower.append(upper);
        lower.finish()
    }
}
