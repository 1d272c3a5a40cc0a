//! The value and the numbers of a key, from the groups that stand at it and the window.
ghost use Rattle.std.specs.Prelude.{◌≡◌, ◌*◌, ◌<◌, ◌||◌, nat_le, find, IfOk, IfSome};
ghost use Rattle.std.specs.Option.{option_copied, option_or};
ghost use Rattle.std.specs.List.{filter};
ghost use Rattle.agg_outside.specs.Counts.{HasCause};
ghost use Rattle.agg_model.specs.Contents.{times};
ghost use Rattle.window_laws.specs.Parts.{is_between};
ghost use Rattle.window_pages.specs.Finds.{has_any, has_between, have_between, word_before, word_from, first_word, word_at, newest_word, value_at_places};

use crate::cursors::Cursor;
use agg_model::{Entity, Range};
use agg_outside::{Bytes, Steps};
use elias_fano::EfList;
use std::alloc::Global;
use std::marker::Brand;
use std::sync::ledger::{Blank, Ledger};
use window_reads::{ReadError, Window, ends_by, value_in, value_of_act};

// The first number that isn't below `n`.
fn first_in(list: &EfList<'_>, n: u64) -> Option<u64>
    ensures { result ≡ find (nat_le n) list.now }
{
    match list.seek(n) {
        Some(found) => Some(found.1),
        None => None,
    }
}

// Whether some number is from one on and below another.
fn has_between(list: &EfList<'_>, numbers: Range) -> bool
    ensures { result ≡ has_any (filter (is_between numbers.from numbers.to) list.now) }
{
    // That they don't descend is a clause of this call.
    let _count = list.len();
    match list.seek(numbers.from) {
        Some(found) => found.1 < numbers.to,
        None => false,
    }
}

// Whether the key has such a number in the group.
fn is_between_in(cursor: &Cursor<'_>, key: &[u8], numbers: Range) -> bool
    ensures { result ≡ has_between key.now numbers.from numbers.to cursor.now }
{
    match cursor.numbers(key) {
        Some(list) => has_between(&list, numbers),
        None => false,
    }
}

// Whether it has one in some group.
fn is_between_in_some(cursors: &[Cursor<'_>], key: &[u8], numbers: Range) -> bool
    ensures { result ≡ have_between key.now numbers.from numbers.to cursors.now }
{
    for cursor in cursors {
        if is_between_in(cursor, key, numbers) {
            return true;
        }
    }
    false
}

/// Whether the key changed at a number from one on and below another: the groups are asked first.
pub(crate) fn has_change<W: Window>(
    alloc: Global,
    cursors: &[Cursor<'_>],
    window: &mut W,
    entity: Entity,
    key: &[u8],
    numbers: Range,
) -> Result<bool, ReadError>
    ensures has { IfSome (W.changes window.old) (λ cs. IfOk result (λ has. has
        ≡ (have_between key.now numbers.from numbers.to cursors.now
        || has_any (times cs entity key.now numbers.from numbers.to)))) }
    ensures later { W.later window.old window.new }
    ensures cause { HasCause ReadError.Keeper (W.faults window.old) (W.faults window.new) result }
{
    if is_between_in_some(cursors, key, numbers) {
        return Ok(true);
    }
    let behind = window.times(alloc, entity, key, numbers.from, numbers.to, false, 1)?;
    Ok(behind.len() > 0)
}

// The stored value before the first change of a key in a group from `n` on.
fn word_before<'a, L: Ledger>(
    cursor: &Cursor<'a>,
    key: &[u8],
    n: u64,
    steps: &mut Steps<L>,
) -> Option<&'a [u8]>
    ensures { option_copied result ≡ word_before key.now n cursor.now }
{
    let numbers = cursor.numbers(key)?;
    let number = first_in(&numbers, n)?;
    let values = cursor.group().v()?;
    values.previous(key, number, steps)
}

// The same, where the group doesn't end by the number.
fn word_from<'a, L: Ledger>(
    cursor: &Cursor<'a>,
    size: u64,
    key: &[u8],
    n: u64,
    steps: &mut Steps<L>,
) -> Option<&'a [u8]>
    ensures { option_copied result ≡ word_from size key.now n cursor.now }
{
    if ends_by(cursor.group(), size, n) {
        return None;
    }
    word_before(cursor, key, n, steps)
}

// In the first group that has such a change.
fn first_word<'a, L: Ledger>(
    cursors: &[Cursor<'a>],
    size: u64,
    key: &[u8],
    n: u64,
    steps: &mut Steps<L>,
) -> Option<&'a [u8]>
    ensures { option_copied result ≡ first_word size key.now n cursors.now }
{
    for cursor in cursors {
        if let Some(word) = word_from(cursor, size, key, n, steps) {
            return Some(word);
        }
    }
    None
}

// The stored value of a key at the end of a group.
fn word_at<'a, L: Ledger>(cursor: &Cursor<'a>, key: &[u8], steps: &mut Steps<L>) -> Option<&'a [u8]>
    ensures { option_copied result ≡ word_at key.now cursor.now }
{
    if !cursor.is_at(key) {
        return None;
    }
    let kv = cursor.group().kv()?;
    kv.get(key, steps)
}

// In the last group that has one.
fn newest_word<'a, L: Ledger>(
    cursors: &[Cursor<'a>],
    key: &[u8],
    steps: &mut Steps<L>,
) -> Option<&'a [u8]>
    ensures { option_copied result ≡ newest_word key.now cursors.now }
{
    let mut left = cursors.len();
    while left > 0 {
        left -= 1;
        if let Some(word) = word_at(&cursors[left], key, steps) {
            return Some(word);
        }
    }
    None
}

fn newest_uncounted<'a, L: Ledger>(
    cursors: &[Cursor<'a>],
    key: &[u8],
    blank: Blank,
) -> Option<&'a [u8]>
    requires name { blank.name ≡ L.name }
    requires parts { blank.parts ≡ L.parts }
    requires some { 0 < L.parts }
    ensures { option_copied result ≡ newest_word key.now cursors.now }
{
    let mut steps = Steps::<L>::of(blank);
    newest_word(cursors, key, &mut steps)
}

fn before_uncounted<'a, L: Ledger>(
    cursors: &[Cursor<'a>],
    size: u64,
    key: &[u8],
    n: u64,
    blank: Blank,
) -> Option<&'a [u8]>
    requires name { blank.name ≡ L.name }
    requires parts { blank.parts ≡ L.parts }
    requires some { 0 < L.parts }
    ensures { option_copied result ≡ option_or (first_word size key.now n cursors.now) (newest_word key.now cursors.now) }
{
    let mut steps = Steps::<L>::of(blank);
    match first_word(cursors, size, key, n, &mut steps) {
        Some(word) => Some(word),
        None => newest_word(cursors, key, &mut steps),
    }
}

// The stored value at the end of the groups.
fn newest_in<'a>(cursors: &[Cursor<'a>], key: &[u8]) -> Option<&'a [u8]>
    ensures { option_copied result ≡ newest_word key.now cursors.now }
{
    newest_uncounted::<Brand>(cursors, key, Blank::new(1))
}

// The stored value just before `n`, which lies below the end of the groups.
fn before_in<'a>(cursors: &[Cursor<'a>], size: u64, key: &[u8], n: u64) -> Option<&'a [u8]>
    ensures { option_copied result ≡ option_or (first_word size key.now n cursors.now) (newest_word key.now cursors.now) }
{
    before_uncounted::<Brand>(cursors, size, key, n, Blank::new(1))
}

/// The value of a key just before `n`, by the groups that stand at it. Below the end of the groups they alone are
/// looked into, and from there on the window first.
pub(crate) fn value_before<W: Window>(
    alloc: Global,
    cursors: &[Cursor<'_>],
    window: &mut W,
    size: u64,
    entity: Entity,
    n: u64,
    key: &[u8],
) -> Result<Option<Bytes>, ReadError>
    ensures value { IfSome (W.changes window.old) (λ cs. IfOk result (λ value. value
        ≡ value_at_places size cursors.now cs entity key.now (W.first_step window.old * size) n)) }
    ensures later { W.later window.old window.new }
    ensures cause { HasCause ReadError.Keeper (W.faults window.old) (W.faults window.new) result }
{
    let end = u128::from(window.end()) * u128::from(size);
    if u128::from(n) < end {
        return value_in(alloc, before_in(cursors, size, key, n));
    }
    let act = window.last(alloc, entity, key, n)?;
    match act {
        Some(act) => Ok(value_of_act(act)),
        None => value_in(alloc, newest_in(cursors, key)),
    }
}
