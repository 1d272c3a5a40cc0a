//! So many reads of a kind at random places.
ghost use Rattle.std.specs.Prelude.{◌≤◌};

use crate::changes::{OFTEN, Sizes};
use crate::keys::{drawn, key_of, next_random};
use agg_model::Entity;
use agg_outside::Bytes;
use collate_step::Inputs;
use std::alloc::Global;
use window_pages::{Page, read_history, read_range};
use window_reads::{ReadError, TimesPage, Window, read_as_of, read_index, read_latest};

/// How many rows or numbers one page has at most.
const PAGE: usize = 100;

/// A number of all that was read, and how many rows or numbers that was.
#[derive(Clone, Copy, Debug)]
pub struct Found {
    pub sum: u64,
    pub rows: u64,
}

impl Found {
    pub const NONE: Found = Found { sum: 0, rows: 0 };

    fn add_number(&mut self, number: u64) {
        self.sum = self.sum.wrapping_mul(31).wrapping_add(number);
    }

    // The number that the value was made of, and 1 more; 0 where there is none.
    fn add_value(&mut self, value: Option<&Bytes>) {
        let mut number = 0u64;
        if let Some(value) = value {
            for byte in value.as_slice().iter().take(8) {
                number = number.wrapping_mul(256).wrapping_add(u64::from(*byte));
            }
            number = number.wrapping_add(1);
        }
        self.add_number(number);
        self.rows = self.rows.saturating_add(1);
    }

    fn add_page(&mut self, page: &Page) {
        for row in page.rows.as_slice() {
            self.add_value(row.value.as_ref());
        }
        self.add_number(u64::from(page.more.is_some()));
    }

    fn add_times(&mut self, page: &TimesPage) {
        for number in page.items.as_slice() {
            self.add_number(*number);
            self.rows = self.rows.saturating_add(1);
        }
        self.add_number(page.more.unwrap_or(0));
    }
}

/// What each read is lent, but for the window.
#[derive(Clone, Copy)]
pub struct Lent<'a> {
    pub alloc: Global,
    pub files: &'a Inputs,
    pub sizes: Sizes,
}

pub fn latest<W: Window>(lent: Lent<'_>, window: &mut W, looks: u64) -> Result<Found, ReadError> {
    let sizes = lent.sizes;
    let mut random = 1u64;
    let mut found = Found::NONE;
    for _ in 0..looks {
        random = next_random(random);
        let key = key_of(drawn(random, sizes.keys));
        let value = read_latest(
            lent.alloc,
            lent.files.as_slice(),
            window,
            sizes.keys,
            Entity::Accounts,
            &key,
        )?;
        found.add_value(value.as_ref());
    }
    Ok(found)
}

/// As of any number.
pub fn as_of<W: Window>(lent: Lent<'_>, window: &mut W, looks: u64) -> Result<Found, ReadError> {
    let sizes = lent.sizes;
    let mut random = 1u64;
    let mut found = Found::NONE;
    for _ in 0..looks {
        random = next_random(random);
        let key = key_of(drawn(random, sizes.keys));
        random = next_random(random);
        let n = drawn(random, sizes.next());
        let value = read_as_of(
            lent.alloc,
            lent.files.as_slice(),
            window,
            sizes.keys,
            Entity::Accounts,
            n,
            &key,
        )?;
        found.add_value(value.as_ref());
    }
    Ok(found)
}

/// Pages from any key on, as of a number in the upper half.
pub fn range<W: Window>(lent: Lent<'_>, window: &mut W, pages: u64) -> Result<Found, ReadError> {
    let sizes = lent.sizes;
    let half = sizes.next() / 2;
    let mut random = 1u64;
    let mut found = Found::NONE;
    for _ in 0..pages {
        random = next_random(random);
        let from = key_of(drawn(random, sizes.keys));
        random = next_random(random);
        let n = drawn(random, half).wrapping_add(half);
        let page = read_range(
            lent.alloc,
            lent.files.as_slice(),
            window,
            sizes.keys,
            Entity::Accounts,
            n,
            Some(&from),
            None,
            PAGE,
        )?;
        found.add_page(&page);
    }
    Ok(found)
}

/// Pages from any key on, over half of the numbers.
pub fn history<W: Window>(lent: Lent<'_>, window: &mut W, pages: u64) -> Result<Found, ReadError> {
    let sizes = lent.sizes;
    let half = sizes.next() / 2;
    let mut random = 1u64;
    let mut found = Found::NONE;
    for _ in 0..pages {
        random = next_random(random);
        let from = key_of(drawn(random, sizes.keys));
        random = next_random(random);
        let a = drawn(random, half);
        let page = read_history(
            lent.alloc,
            lent.files.as_slice(),
            window,
            sizes.keys,
            Entity::Accounts,
            a,
            a.wrapping_add(half),
            Some(&from),
            PAGE,
        )?;
        found.add_page(&page);
    }
    Ok(found)
}

/// Pages of the numbers of a key that changes often, up or down.
pub fn index<W: Window>(lent: Lent<'_>, window: &mut W, pages: u64) -> Result<Found, ReadError> {
    let sizes = lent.sizes;
    let mut random = 1u64;
    let mut found = Found::NONE;
    for _ in 0..pages {
        random = next_random(random);
        let number = drawn(random, sizes.keys.div_ceil(OFTEN));
        let key = key_of(number.wrapping_mul(OFTEN));
        let page = read_index(
            lent.alloc,
            lent.files.as_slice(),
            window,
            sizes.keys,
            Entity::Accounts,
            &key,
            0,
            sizes.next(),
            random & 1 == 1,
            PAGE,
        )?;
        found.add_times(&page);
    }
    Ok(found)
}
