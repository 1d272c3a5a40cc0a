ghost use Rattle.std.specs.Prelude.{◌≡◌, ℕ, ◌<◌, ◌≤◌, ◌+◌, ◌/◌, ◌^◌, length, take, IfSome, IfNone};
ghost use Rattle.bit_store.specs.Bits.{ones_of};
ghost use Rattle.elias_fano.specs.Reading.{IsSound, IsListed, item_at, place_of_one};
ghost use Rattle.elias_fano.specs.Marks.{AreMarks, AreBelow};

use crate::marks::{Marks, one_of, zero_of};
use crate::parts::Parts;

// So many bits are looked at before a place is sought from the marks.
const NEAR: u64 = 256;

// So many items are looked at one by one before their low bits are halved among.
const FEW: u64 = 4;

// How many items have an upper part below `high`.
fn items_below(parts: &Parts<'_>, marks: Option<&Marks>, high: u64) -> u64
    requires sound { IsSound parts.now }
    requires marks { IfSome marks (λ m. AreMarks parts.now.upper m.now) }
    ensures { AreBelow parts.now high result }
{
    if high == 0 {
        return 0;
    }
    let before = high - 1;
    match zero_of(&parts.upper, marks, before) {
        Some(zero) => zero - before,
        None => parts.count,
    }
}

// How many items have an upper part of at most `high`, where that of `start` items is lower.
fn items_up_to(parts: &Parts<'_>, marks: Option<&Marks>, high: u64, start: u64) -> u64
    requires sound { IsSound parts.now }
    requires marks { IfSome marks (λ m. AreMarks parts.now.upper m.now) }
    requires lower { AreBelow parts.now high start }
    requires more { start < parts.now.count }
    ensures { AreBelow parts.now (high + 1) result }
{
    let from = high + start;
    let near = parts.upper.front(from.saturating_add(NEAR));
    match near.select_zero_from(from, 0) {
        Some(zero) => zero - high,
        None => items_below(parts, marks, high + 1),
    }
}

// The first item that isn't below `at` among those from `start` up to `end`, which have one upper part;
// else `end`.
fn first_in(parts: &Parts<'_>, high: u64, start: u64, end: u64, at: u64) -> u64
    requires listed { IsListed parts.now }
    requires order { start ≤ end }
    requires within { end ≤ parts.now.count }
    requires room { high + end < 2 ^ 64 }
    requires places { (i : ℕ) → start ≤ i → i < end → high + i ≡ place_of_one parts.now.upper i }
    ensures from { start ≤ result }
    ensures to { result ≤ end }
    ensures below { (i : ℕ) → start ≤ i → i < result → item_at parts.now i < at }
    ensures above { (i : ℕ) → result ≤ i → i < end → at ≤ item_at parts.now i }
{
    let mut low = start;
    let mut top = end;
    while low < top {
        let middle = low + (top - low) / 2;
        if parts.item(middle, high + middle) < at {
            low = middle + 1;
        } else {
            top = middle;
        }
    }
    low
}

// The place of the 1 of item `i`, which stands at bit `from` or behind.
fn one_from(parts: &Parts<'_>, marks: Option<&Marks>, i: u64, from: u64) -> u64
    requires sound { IsSound parts.now }
    requires marks { IfSome marks (λ m. AreMarks parts.now.upper m.now) }
    requires within { i < parts.now.count }
    requires inside { from ≤ length parts.now.upper }
    requires before { ones_of (take from parts.now.upper) ≡ i }
    ensures { result ≡ place_of_one parts.now.upper i }
{
    let near = parts.upper.front(from.saturating_add(NEAR));
    match near.next_one(from) {
        Some(one) => one,
        None => one_of(&parts.upper, marks, i),
    }
}

// The first item from `start` on that isn't below `at`, and the place of its 1, where it is among the
// next few; the 1 of `start` stands at bit `from` or behind.
fn first_near(
    parts: &Parts<'_>,
    marks: Option<&Marks>,
    start: u64,
    from: u64,
    at: u64,
) -> Option<(u64, u64)>
    requires sound { IsSound parts.now }
    requires marks { IfSome marks (λ m. AreMarks parts.now.upper m.now) }
    requires within { start ≤ parts.now.count }
    requires inside { from ≤ length parts.now.upper }
    requires before { ones_of (take from parts.now.upper) ≡ start }
    ensures found { IfSome result (λ x. (x.0 < parts.now.count) × (x.1 ≡ place_of_one parts.now.upper x.0) × (at ≤ item_at parts.now x.0)) }
    ensures first { IfSome result (λ x. (i : ℕ) → start ≤ i → i < x.0 → item_at parts.now i < at) }
{
    let mut place = start;
    let mut bit = from;
    for _passed in 0..FEW {
        if place == parts.count {
            return None;
        }
        let one = one_from(parts, marks, place, bit);
        if parts.item(place, one) >= at {
            return Some((place, one));
        }
        place += 1;
        bit = one + 1;
    }
    None
}

// The same among all items from `start` on, which is the first whose upper part isn't below that of `at`.
fn first_far(parts: &Parts<'_>, marks: Option<&Marks>, start: u64, at: u64) -> Option<(u64, u64)>
    requires listed { IsListed parts.now }
    requires marks { IfSome marks (λ m. AreMarks parts.now.upper m.now) }
    requires lower { AreBelow parts.now (at / 2 ^ parts.now.width) start }
    requires more { start < parts.now.count }
    ensures found { IfSome result (λ x. (x.0 < parts.now.count) × (x.1 ≡ place_of_one parts.now.upper x.0) × (at ≤ item_at parts.now x.0)) }
    ensures first { IfSome result (λ x. (i : ℕ) → i < x.0 → item_at parts.now i < at) }
    ensures none { IfNone result ((i : ℕ) → i < parts.now.count → item_at parts.now i < at) }
{
    let high = at >> parts.width;
    let end = items_up_to(parts, marks, high, start);
    let place = first_in(parts, high, start, end, at);
    if place == parts.count {
        return None;
    }
    Some((place, one_from(parts, marks, place, high + place)))
}

/// The place of the first item not below `at`, and the place of its 1; nothing where all are below.
pub fn first_from(parts: &Parts<'_>, marks: Option<&Marks>, at: u64) -> Option<(u64, u64)>
    requires listed { IsListed parts.now }
    requires marks { IfSome marks (λ m. AreMarks parts.now.upper m.now) }
    ensures found { IfSome result (λ x. (x.0 < parts.now.count) × (x.1 ≡ place_of_one parts.now.upper x.0) × (at ≤ item_at parts.now x.0)) }
    ensures first { IfSome result (λ x. (i : ℕ) → i < x.0 → item_at parts.now i < at) }
    ensures none { IfNone result ((i : ℕ) → i < parts.now.count → item_at parts.now i < at) }
{
    let high = at >> parts.width;
    let start = items_below(parts, marks, high);
    if start == parts.count {
        return None;
    }
    match first_near(parts, marks, start, high + start, at) {
        Some(found) => Some(found),
        None => first_far(parts, marks, start, at),
    }
}
