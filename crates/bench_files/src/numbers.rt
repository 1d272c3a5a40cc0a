//! Files of earlier values and of numbers: their sizes, and looks for the first number not below another.
ghost use Rattle.std.specs.Prelude.{◌≡◌, ◌<◌};

use crate::keys::{drawn, key_of, next_random, value_of};
use agg_model::{Before, Befores, Entity, Lists, Range, Times};
use agg_outside::{Bytes, Memory, Numbers, Steps};
use history_core::{are_befores, build_v, v_tag};
use inverted_index::{EfFile, are_lists, build_ef, ef_tag};
use std::alloc::Global;
use std::marker::Brand;
use std::sync::ledger::{Blank, Ledger};

const FIRST_STEP: Range = Range { from: 0, to: 1 };

/// The length of the file of one change of each of so many keys for `v`, and that of its accessor for `vi`.
pub fn sum_of_befores(alloc: Global, part: &str, count: u64) -> Result<u64, Memory> {
    let mut rows = Befores::new(alloc);
    for tx in 0..count {
        rows.push(Before {
            key: Bytes::of(alloc, &key_of(tx))?,
            tx,
            value: value_of(alloc, tx)?,
        })?;
    }
    let tag = v_tag(Entity::Accounts, count, FIRST_STEP);
    if !are_befores(tag, &rows) {
        return Ok(0);
    }
    let file = build_v(alloc, tag, &rows)?;
    Ok(match part {
        "v" => file.bytes().len() as u64,
        _ => file.vi_bytes().len() as u64,
    })
}

// Every `keys`th number from `first` on, `count` of them.
fn numbers_of(alloc: Global, first: u64, keys: u64, count: u64) -> Result<Numbers, Memory> {
    let mut items = Numbers::new(alloc);
    for i in 0..count {
        items.push(i.wrapping_mul(keys).wrapping_add(first))?;
    }
    Ok(items)
}

fn lists_of(alloc: Global, keys: u64, count: u64) -> Result<Lists, Memory> {
    let mut lists = Lists::new(alloc);
    for number in 0..keys {
        lists.push(Times {
            key: Bytes::of(alloc, &key_of(number))?,
            items: numbers_of(alloc, number, keys, count)?,
        })?;
    }
    Ok(lists)
}

// The sum of the numbers that so many looks find, each from a number at random on.
fn found<L: Ledger>(file: &EfFile, keys: u64, count: u64, looks: u64, steps: &mut Steps<L>) -> u64 {
    let end = keys.wrapping_mul(count);
    let mut random = 1u64;
    let mut sum = 0u64;
    for _ in 0..looks {
        random = next_random(random);
        let key = key_of(drawn(random, keys));
        random = next_random(random);
        let number = file.first_from(&key, drawn(random, end), steps);
        sum = sum.wrapping_add(number.unwrap_or(end));
    }
    sum
}

// What is looked at.
#[derive(Clone, Copy)]
enum Part {
    Ef,
    Efi,
    First,
}

fn sum_of<L: Ledger>(
    alloc: Global,
    part: Part,
    keys: u64,
    count: u64,
    looks: u64,
    blank: Blank,
) -> Result<u64, Memory>
    requires name { blank.name ≡ L.name }
    requires parts { blank.parts ≡ L.parts }
    requires some { 0 < L.parts }
{
    let mut steps = Steps::<L>::of(blank);
    let lists = lists_of(alloc, keys, count)?;
    let tag = ef_tag(Entity::Accounts, keys.wrapping_mul(count), FIRST_STEP);
    if !are_lists(tag, &lists) {
        return Ok(0);
    }
    let file = build_ef(alloc, tag, &lists)?;
    Ok(match part {
        Part::Ef => file.bytes().len() as u64,
        Part::Efi => file.efi_bytes().len() as u64,
        Part::First => found(&file, keys, count, looks, &mut steps),
    })
}

/// Of the file of so many keys with so many numbers each, the length for `ef`, that of its accessor for `efi`, and else
/// the sum of what so many looks find.
pub fn sum_of_numbers(
    alloc: Global,
    part: &str,
    keys: u64,
    count: u64,
    looks: u64,
) -> Result<u64, Memory> {
    let part = match part {
        "ef" => Part::Ef,
        "efi" => Part::Efi,
        _ => Part::First,
    };
    sum_of::<Brand>(alloc, part, keys, count, looks, Blank::new(1))
}
