//! Which numbers a key may have under a tag.
ghost use Rattle.std.specs.Prelude.{◌≡◌, ◌+◌, ◌*◌, ◌<◌, ◌^◌, ◌&&◌, ℕ, nat_le, nat_lt, true, false, length, IfSome, IfNone};
ghost use Rattle.inverted_index.specs.Climbing.{climbs};
ghost use Rattle.inverted_index.specs.EfFile.{numbers_in};
ghost use Rattle.inverted_index.specs.EfRules.{end_of, are_numbers, is_text, counted_more, count_text};

use elias_fano::EfList;
use word_file::Tag;

/// How many numbers a file may have, and one more.
const NUMBERS_END: u64 = 1 << 23;

/// The first number of the steps.
fn first_of(tag: Tag) -> u128
    ensures { result ≡ tag.from * tag.step }
{
    u128::from(tag.from) * u128::from(tag.step)
}

/// The number behind the last one.
fn end_of(tag: Tag) -> u128
    ensures { result ≡ end_of tag }
{
    let end = u128::from(tag.to) * u128::from(tag.step);
    end.min(1 << 64)
}

fn is_within(from: u128, end: u128, n: u64) -> bool
    ensures { result ≡ (nat_le from n && nat_lt n end) }
{
    let n = u128::from(n);
    from <= n && n < end
}

fn list_climbs(start: u128, end: u128, list: &EfList<'_>) -> bool
    ensures { result ≡ climbs start end list.now }
{
    let mut from = start;
    for item in list.iter_from(0) {
        if !is_within(from, end, item) {
            return false;
        }
        from = u128::from(item) + 1;
    }
    true
}

fn slice_climbs(start: u128, end: u128, items: &[u64]) -> bool
    ensures { result ≡ climbs start end items.now }
{
    let mut from = start;
    for item in items {
        if !is_within(from, end, *item) {
            return false;
        }
        from = u128::from(*item) + 1;
    }
    true
}

/// Whether a key may have these numbers.
pub(crate) fn are_numbers(tag: Tag, items: &[u64]) -> bool
    ensures { result ≡ are_numbers tag items.now }
{
    !items.is_empty() && slice_climbs(first_of(tag), end_of(tag), items)
}

/// The numbers of a text, where a key may have them.
fn read_text(tag: Tag, text: &[u8]) -> Option<EfList<'_>>
    requires { length text.now < 2 ^ 32 }
    ensures found { IfSome result (λ list. (is_text tag text.now ≡ true) × (list ≡ numbers_in text.now)) }
    ensures none { IfNone result (is_text tag text.now ≡ false) }
{
    let Ok(list) = EfList::check(text) else {
        return None;
    };
    if list_climbs(first_of(tag), end_of(tag), &list) {
        Some(list)
    } else {
        None
    }
}

pub(crate) fn counted_more(counted: u64, more: u64) -> Option<u64>
    ensures { result ≡ counted_more counted more }
{
    if more < NUMBERS_END && counted < NUMBERS_END - more {
        Some(counted + more)
    } else {
        None
    }
}

/// How many numbers there are with those of this text; `None` where no key may have them, or they are too many.
pub(crate) fn count_text(tag: Tag, counted: u64, text: &[u8]) -> Option<u64>
    requires { length text.now < 2 ^ 32 }
    ensures { result ≡ count_text tag counted text.now }
{
    match read_text(tag, text) {
        Some(list) => counted_more(counted, list.len()),
        None => None,
    }
}
