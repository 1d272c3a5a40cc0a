ghost use Rattle.std.specs.Prelude.{◌≡◌, ℕ, ◌<◌, ◌≤◌, ◌*◌, ◌^◌, ◌==◌, List, length, take, drop, reverse, slice_index, if◌then◌else◌, Some, None, IfOk, IfErr, IfSome, IfNone, IsOkAnd};
ghost use Rattle.std.specs.Option.{option_or, option_map};
ghost use Rattle.std.specs.List.Sorted.{IsNonDecreasing};
ghost use Rattle.elias_fano.specs.Spelling.{IsListable, IsSpelled, spelling, upper_len};
ghost use Rattle.elias_fano.specs.Reading.{fault_in, item_fault, items_of, parts_in, IsFine};
ghost use Rattle.elias_fano.specs.Marks.{AreMarksOf};

use crate::error::EfError;
use crate::finding::first_from;
use crate::iter::{EfBack, EfIter};
use crate::marks::{Marks, one_of};
use crate::opening::{header_of, known_header, parts_of, unused_in};
use crate::parts::Parts;
use std::marker::Model;

/// A list of numbers that do not descend, read from its text. It is a few words that point into the text.
#[derive(Debug, Drop)]
pub struct EfList<'a> {
    parts: Parts<'a>,
    marks: Option<&'a Marks>,
}

impl<'a> Model for EfList<'a> {
    ghost use Rattle.std.specs.Prelude.{List, ℕ, IfSome};
    ghost use Rattle.elias_fano.specs.Reading.{items_of};
    ghost use Rattle.elias_fano.specs.Marks.{AreMarks, IsKnown};

    ghost Value = { List ℕ };

    ghost view = { λ it. items_of it.parts };

    ghost invariant = { λ it. IsKnown it.parts × IfSome it.marks (λ m. AreMarks it.parts.upper m.now) };
}

// The first fall: the one known so far, else item `i` where it is one.
fn fall_at(known: Option<u64>, is_fall: bool, i: u64) -> Option<u64>
    ensures { result ≡ option_or known (if is_fall then Some i else None) }
{
    match known {
        Some(item) => Some(item),
        None if is_fall => Some(i),
        None => None,
    }
}

// What is wrong with as many items as the header says: their first fall, or how they end.
fn ending(fall: Option<u64>, found: u64, said: u64) -> Option<EfError>
    ensures { result ≡ option_or (option_map (λ i. EfError.Descends i) fall) (if found == said then None else Some (EfError.Last said found)) }
{
    match fall {
        Some(item) => Some(EfError::Descends { item }),
        None if found == said => None,
        None => Some(EfError::Last { said, found }),
    }
}

// What is wrong with the items and their ones; goes over the items once.
fn fault_of(parts: &Parts<'_>, last: u64) -> Option<EfError>
    requires lower { length parts.now.lower ≡ parts.now.count * parts.now.width }
    requires fits { parts.now.count * parts.now.width < 2 ^ 64 }
    requires narrow { parts.now.width < 64 }
    requires room { length parts.now.upper < 2 ^ 64 }
    requires upper { length parts.now.upper ≡ upper_len parts.now.width parts.now.count last }
    ensures { result ≡ item_fault last parts.now }
{
    let said = parts.count;
    let len = parts.upper.len();
    let most = last >> parts.width;
    let mut fall = None;
    let mut before = 0;
    let mut at = 0;
    for i in 0..said {
        let Some(place) = parts.upper.next_one(at) else {
            return Some(EfError::Count { said, found: i });
        };
        // So far behind, too few ones can follow.
        if place - i > most {
            let found = i + parts.upper.ones_between(at, len);
            return Some(EfError::Count { said, found });
        }
        let item = ((place - i) << parts.width) + parts.low(i);
        fall = fall_at(fall, item < before, i);
        before = item;
        at = place + 1;
    }
    let more = parts.upper.ones_between(at, len);
    if more > 0 {
        return Some(EfError::Count {
            said,
            found: said + more,
        });
    }
    ending(fall, before, last)
}

// The list of a text, or what is wrong with the bytes first.
fn checked(bytes: &[u8]) -> Result<EfList<'_>, EfError>
    requires { length bytes.now < 2 ^ 60 }
    ensures ok { IfOk result (λ list. list ≡ items_of (parts_in bytes.now)) }
    ensures fine { IfOk result (λ list. IsFine bytes.now) }
    ensures err { IfErr result (λ e. fault_in bytes.now ≡ Some e) }
{
    let header = header_of(bytes)?;
    if let Some(bit) = unused_in(bytes, &header) {
        return Err(EfError::Unused { bit });
    }
    let parts = parts_of(bytes, &header);
    match fault_of(&parts, header.last) {
        Some(fault) => Err(fault),
        None => Ok(EfList { parts, marks: None }),
    }
}

impl<'a> EfList<'a> {
    /// The list of a text, without a copy. Every item is looked at once.
    pub fn check(bytes: &'a [u8]) -> Result<EfList<'a>, EfError>
        requires { length bytes.now < 2 ^ 60 }
        // What is read is spelled so.
        ensures found { IfOk result (λ list. IsListable list × (bytes.now ≡ spelling list)) }
        // What is spelled so is read.
        ensures only { (items : List ℕ) → IsListable items → bytes.now ≡ spelling items → IsOkAnd result (λ list. list ≡ items) }
        // Which fault it is.
        ensures exact { IfErr result (λ e. fault_in bytes.now ≡ Some e) }
    {
        checked(bytes)
    }

    /// The list of a text that is known to be one, without a copy. Its header alone is read.
    pub fn of(bytes: &'a [u8]) -> EfList<'a>
        requires small { length bytes.now < 2 ^ 60 }
        requires known { IsSpelled bytes.now }
        ensures found { IsListable result × (bytes.now ≡ spelling result) }
        ensures only { (items : List ℕ) → IsListable items → bytes.now ≡ spelling items → result ≡ items }
    {
        let header = known_header(bytes);
        EfList {
            parts: parts_of(bytes, &header),
            marks: None,
        }
    }

    /// Marks for the looks at a long list; every word of its upper part is read once.
    pub fn marks(&self) -> Marks
        ensures { AreMarksOf self.now result }
    {
        Marks::of(&self.parts.upper)
    }

    /// The same list, whose looks go by its marks.
    pub fn with(&self, marks: &'a Marks) -> EfList<'a>
        requires { AreMarksOf self.now marks.now }
        ensures { result ≡ self.now }
    {
        EfList {
            parts: self.parts.again(),
            marks: Some(marks),
        }
    }

    /// The number of items.
    pub fn len(&self) -> u64
        ensures count { result ≡ length self.now }
        ensures ascends { IsNonDecreasing self.now }
    {
        self.parts.count
    }

    /// Counts the ones of the upper part word by word, from its start or, of a list with marks, from one
    /// of them; README.md says how many words these are.
    pub fn get(&self, i: u64) -> u64
        requires { i < length self.now }
        ensures { result ≡ slice_index self.now i }
    {
        let one = one_of(&self.parts.upper, self.marks, i);
        self.parts.item(i, one)
    }

    /// The place and the value of the first item not below `at`. Goes through at most three times the
    /// words of a `get` and twenty more, all else by halving.
    pub fn seek(&self, at: u64) -> Option<(u64, u64)>
        ensures found { IfSome result (λ x. (x.0 < length self.now) × (x.1 ≡ slice_index self.now x.0) × (at ≤ x.1)) }
        ensures first { IfSome result (λ x. (k : ℕ) → k < x.0 → slice_index self.now k < at) }
        ensures none { IfNone result ((k : ℕ) → k < length self.now → slice_index self.now k < at) }
    {
        let (place, one) = first_from(&self.parts, self.marks, at)?;
        Some((place, self.parts.item(place, one)))
    }

    /// The items from a place on; none from the end on.
    pub fn iter_from(&self, place: u64) -> EfIter<'_>
        ensures { result ≡ drop place self.now }
    {
        let parts = &self.parts;
        if place < parts.count {
            let bit = one_of(&parts.upper, self.marks, place);
            EfIter::new(parts.again(), place, bit)
        } else {
            EfIter::new(parts.again(), parts.count, parts.upper.len())
        }
    }

    /// The items before a place, the last first; all items where the place is past the end.
    pub fn iter_back(&self, place: u64) -> EfBack<'_>
        ensures { result ≡ reverse (take place self.now) }
    {
        let parts = &self.parts;
        if place < parts.count {
            let bit = one_of(&parts.upper, self.marks, place);
            EfBack::new(parts.again(), place, bit)
        } else {
            EfBack::new(parts.again(), parts.count, parts.upper.len())
        }
    }
}
