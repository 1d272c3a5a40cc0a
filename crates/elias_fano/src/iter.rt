ghost use Rattle.std.specs.Prelude.{◌≡◌, take, drop, reverse};
ghost use Rattle.std.specs.Iterator.{YieldsFirst, item_count};
ghost use Rattle.elias_fano.specs.Reading.{IsOnward, items_of};

use crate::parts::Parts;
use std::marker::Model;

/// The items of a list from one place on; contracts see it as the items that are still to come.
#[derive(Debug, Drop)]
pub struct EfIter<'a> {
    parts: Parts<'a>,
    place: u64,
    bit: u64,
}

impl<'a> Model for EfIter<'a> {
    ghost use Rattle.std.specs.Prelude.{List, ℕ, drop};
    ghost use Rattle.elias_fano.specs.Reading.{IsOnward, items_of};

    ghost Value = { List ℕ };

    ghost view = { λ it. drop it.place (items_of it.parts) };

    ghost invariant = { λ it. IsOnward it.parts it.place it.bit };
}

impl<'a> EfIter<'a> {
    /// The items from `place` on, whose ones stand at `bit` or behind.
    pub(crate) fn new(parts: Parts<'a>, place: u64, bit: u64) -> EfIter<'a>
        requires { IsOnward parts place bit }
        ensures { result ≡ drop place (items_of parts.entry) }
    {
        EfIter { parts, place, bit }
    }
}

impl<'a> Iterator for EfIter<'a> {
    type Item = u64;

    ghost next_gives = { YieldsFirst (λ s. s) };

    ghost remaining = { item_count (λ s. s) };

    fn next(&mut self) -> Option<u64> {
        if self.place >= self.parts.count {
            return None;
        }
        let one = self.parts.upper.next_one(self.bit).unwrap();
        let item = self.parts.item(self.place, one);
        self.place += 1;
        self.bit = one + 1;
        Some(item)
    }
}

/// The items of a list before one place, the last first; contracts see it as the items that are
/// still to come, in this order.
#[derive(Debug, Drop)]
pub struct EfBack<'a> {
    parts: Parts<'a>,
    place: u64,
    bit: u64,
}

impl<'a> Model for EfBack<'a> {
    ghost use Rattle.std.specs.Prelude.{List, ℕ, take, reverse};
    ghost use Rattle.elias_fano.specs.Reading.{IsOnward, items_of};

    ghost Value = { List ℕ };

    ghost view = { λ it. reverse (take it.place (items_of it.parts)) };

    ghost invariant = { λ it. IsOnward it.parts it.place it.bit };
}

impl<'a> EfBack<'a> {
    /// The items before `place`, whose ones stand before `bit`.
    pub(crate) fn new(parts: Parts<'a>, place: u64, bit: u64) -> EfBack<'a>
        requires { IsOnward parts place bit }
        ensures { result ≡ reverse (take place (items_of parts.entry)) }
    {
        EfBack { parts, place, bit }
    }
}

impl<'a> Iterator for EfBack<'a> {
    type Item = u64;

    ghost next_gives = { YieldsFirst (λ s. s) };

    ghost remaining = { item_count (λ s. s) };

    fn next(&mut self) -> Option<u64> {
        if self.place == 0 {
            return None;
        }
        let one = self.parts.upper.last_one(self.bit).unwrap();
        self.place -= 1;
        self.bit = one;
        Some(self.parts.item(self.place, one))
    }
}
