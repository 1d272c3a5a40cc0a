//! Calls over stores of equal size, each over one of them drawn at random.
use crate::store::{Store, Viewed, key_of};
use agg_outside::Memory;
use hot_keeper::RowsError;
use std::alloc::Global;

/// The last numbers, which a small window has.
const LAST: u64 = 100;

/// A call that is made at random places.
#[derive(Clone, Copy)]
enum Look {
    Last,
    Times,
    /// Of the keys that changed from this number on.
    Keys(u64),
    Low,
}

fn next_random(random: u64) -> u64 {
    random
        .wrapping_mul(6364136223846793005)
        .wrapping_add(1442695040888963407)
}

fn place_in(random: u64, count: u64) -> u64 {
    if count == 0 {
        return 0;
    }
    (random >> 33) % count
}

fn look_of(
    store: &mut Store,
    alloc: Global,
    look: Look,
    random: u64,
    count: u64,
) -> Result<u64, RowsError> {
    let key = key_of(place_in(random, count));
    match look {
        Look::Last => store.last(alloc, &key),
        Look::Times => store.times(alloc, &key, random & 1 == 1),
        Look::Keys(first) => store.keys(alloc, &key, first),
        Look::Low => store.low(alloc, count),
    }
}

fn looks(
    stores: &mut [Store],
    alloc: Global,
    look: Look,
    looks: u64,
    count: u64,
) -> Result<u64, RowsError> {
    let mut random = 1u64;
    let mut sum = 0u64;
    for _ in 0..looks {
        let draw = next_random(random);
        random = next_random(draw);
        let place = place_in(draw, stores.len() as u64) as usize;
        let Some(store) = stores.get_mut(place) else {
            return Ok(sum);
        };
        sum = sum.wrapping_add(look_of(store, alloc, look, random, count)?);
    }
    Ok(sum)
}

// Pages of the keys that changed at the last numbers, beside all others; the rows are noted by a first step.
fn windows(stores: &mut [Store], alloc: Global, more: u64, count: u64) -> Result<u64, RowsError> {
    for store in stores.iter_mut() {
        let _first = store.steps(alloc, 1, 1)?;
    }
    looks(
        stores,
        alloc,
        Look::Keys(count.saturating_sub(LAST)),
        more,
        count,
    )
}

fn views(stores: Vec<Store>, alloc: Global, looks: u64, count: u64) -> Result<u64, RowsError> {
    let mut all = Vec::new(alloc);
    for store in stores {
        if all.push(store.into_viewed()).is_err() {
            return Err(RowsError::Memory);
        }
    }
    let mut random = 1u64;
    let mut sum = 0u64;
    for _ in 0..looks {
        let draw = next_random(random);
        random = next_random(draw);
        let place = place_in(draw, all.len() as u64) as usize;
        let Some(viewed) = all.get_mut(place) else {
            return Ok(sum);
        };
        let from = key_of(place_in(random, count));
        sum = sum.wrapping_add(viewed.page(alloc, &from)?);
    }
    Ok(sum)
}

// All changes that have numbers in the first half, pruned in so many rounds in each store.
fn prunes(stores: &mut [Store], alloc: Global, rounds: u64, count: u64) -> Result<u64, RowsError> {
    let mut sum = 0u64;
    for store in stores.iter_mut() {
        sum = sum.wrapping_add(store.prunes(alloc, count / 2, rounds)?);
    }
    Ok(sum)
}

fn steps(stores: &mut [Store], alloc: Global, steps: u64, count: u64) -> Result<u64, RowsError> {
    let mut sum = 0u64;
    for store in stores.iter_mut() {
        sum = sum.wrapping_add(store.steps(alloc, count, steps)?);
    }
    Ok(sum)
}

fn epochs(stores: &[Store]) -> u64 {
    let mut sum = 0u64;
    for store in stores {
        sum = sum.wrapping_add(store.epoch());
    }
    sum
}

fn sum_over(
    alloc: Global,
    part: &str,
    count: u64,
    more: u64,
    number: u64,
) -> Result<Option<u64>, RowsError> {
    let mut all = Vec::new(alloc);
    for _ in 0..number {
        if all.push(Store::of(alloc, count)?).is_err() {
            return Err(RowsError::Memory);
        }
    }
    if part == "views" {
        return Ok(Some(views(all, alloc, more, count)?));
    }
    let stores = all.as_mut_slice();
    match part {
        "filled" => Ok(Some(epochs(stores))),
        "steps" => Ok(Some(steps(stores, alloc, more, count)?)),
        "last" => Ok(Some(looks(stores, alloc, Look::Last, more, count)?)),
        "times" => Ok(Some(looks(stores, alloc, Look::Times, more, count)?)),
        "keys" => Ok(Some(looks(stores, alloc, Look::Keys(0), more, count)?)),
        "window" => Ok(Some(windows(stores, alloc, more, count)?)),
        "low" => Ok(Some(looks(stores, alloc, Look::Low, more, count)?)),
        "prunes" => Ok(Some(prunes(stores, alloc, more, count)?)),
        _ => Ok(None),
    }
}

/// The checksum of a part over so many stores of so many changes each; none where there is no such part.
pub fn sum_of_reads(
    alloc: Global,
    part: &str,
    count: u64,
    more: u64,
    number: u64,
) -> Result<Option<u64>, Memory> {
    match sum_over(alloc, part, count, more, number) {
        Ok(sum) => Ok(sum),
        Err(_) => Err(Memory),
    }
}
