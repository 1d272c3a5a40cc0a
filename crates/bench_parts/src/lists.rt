//! Lists of rising numbers: made into texts, and looked into at random places.
ghost use Rattle.std.specs.Prelude.{IfOk, IfSome};
ghost use Rattle.elias_fano.specs.Spelling.{IsSpelled};

use agg_outside::{Bytes, Memory};
use elias_fano::{EfList, encode};
use std::alloc::Global;

const ROUNDS: u64 = 8;

/// The number drawn after this one.
pub fn drawn(before: u64) -> u64 {
    let first = before ^ (before << 13);
    let second = first ^ (first >> 7);
    second ^ (second << 17)
}

// `count` numbers, each at most 1,023 above the one before; `draw` goes on.
pub fn rising_by(alloc: Global, count: u64, draw: &mut u64) -> Result<Vec<u64>, Memory> {
    let mut items = Vec::new(alloc);
    let mut item = 0u64;
    for _ in 0..count {
        *draw = drawn(*draw);
        item = item.saturating_add(*draw % 1024);
        items.push(item)?;
    }
    Ok(items)
}

fn rising(alloc: Global, count: u64) -> Result<Vec<u64>, Memory> {
    let mut draw = 88_172_645_463_325_252u64;
    rising_by(alloc, count, &mut draw)
}

/// The text of the numbers; none of no numbers, and of too many.
pub fn text_of(alloc: Global, items: &[u64]) -> Result<Option<Bytes>, Memory>
    ensures { IfOk result (λ o. IfSome o (λ text. IsSpelled text)) }
{
    if items.is_empty() || items.len() >= 1 << 32 || !items.is_sorted() {
        return Ok(None);
    }
    Ok(Some(encode(alloc, items)?))
}

// The sum of as many items as the list has, each at a place drawn anew.
fn sum_of_items(list: &EfList<'_>) -> u64 {
    let len = list.len();
    let mut sum = 0u64;
    let mut draw = 1u64;
    if len > 0 {
        for _ in 0..len {
            draw = drawn(draw);
            sum = sum.wrapping_add(list.get(draw % len));
        }
    }
    sum
}

// The sum of what is found from as many numbers on, each drawn anew up to the last item.
fn sum_of_finds(list: &EfList<'_>, last: u64) -> u64 {
    let mut sum = 0u64;
    let mut draw = 1u64;
    for _ in 0..list.len() {
        draw = drawn(draw);
        if let Some((place, item)) = list.seek(draw % last.max(1)) {
            sum = sum.wrapping_add(place).wrapping_add(item);
        }
    }
    sum
}

/// The length of the list's text after `lists`, as many times the rounds and once more after
/// `lists_encode`, and with it a sum over looks at the list after `lists_get` and `lists_seek`.
pub fn sum_of_lists(alloc: Global, part: &str, count: u64) -> Result<u64, Memory> {
    let items = rising(alloc, count)?;
    let Some(text) = text_of(alloc, items.as_slice())? else {
        return Ok(0);
    };
    let bytes = text.as_slice();
    if bytes.len() >= 1 << 60 {
        return Ok(0);
    }
    let mut sum = bytes.len() as u64;
    if part == "lists_encode" {
        for _ in 0..ROUNDS {
            if let Some(again) = text_of(alloc, items.as_slice())? {
                sum = sum.wrapping_add(again.as_slice().len() as u64);
            }
        }
    }
    if let Ok(list) = EfList::check(bytes) {
        let marks = list.marks();
        let list = list.with(&marks);
        if part == "lists_get" {
            sum = sum.wrapping_add(sum_of_items(&list));
        }
        if part == "lists_seek" {
            let last = items.last().copied().unwrap_or(0);
            sum = sum.wrapping_add(sum_of_finds(&list, last));
        }
    }
    Ok(sum)
}
