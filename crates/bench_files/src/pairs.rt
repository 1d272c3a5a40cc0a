//! Files of pairs: built, and looked into at random.
ghost use Rattle.std.specs.Prelude.{◌≡◌, ◌<◌};

use crate::keys::{drawn, key_above, key_of, next_random, value_of};
use agg_model::{Entity, Range};
use agg_outside::{Bytes, Memory, Steps};
use domain_core::{KvFile, Pair, Pairs, are_pairs, build_kv, kv_tag};
use std::alloc::Global;
use std::marker::Brand;
use std::sync::ledger::{Blank, Ledger};

fn pairs_of(alloc: Global, count: u64) -> Result<Pairs, Memory> {
    let mut pairs = Pairs::new(alloc);
    for number in 0..count {
        pairs.push(Pair {
            key: Bytes::of(alloc, &key_of(number))?,
            value: value_of(alloc, number)?,
        })?;
    }
    Ok(pairs)
}

// The first byte of a value that looks random, the last of its number; 0 where there is none.
fn byte_of(value: Option<&[u8]>) -> u64 {
    match value {
        Some(value) => u64::from(value.get(7).copied().unwrap_or(0)),
        None => 0,
    }
}

// The sum of bytes of as many values, each looked up.
fn got<L: Ledger>(file: &KvFile, count: u64, looks: u64, steps: &mut Steps<L>) -> u64 {
    let mut random = 1u64;
    let mut sum = 0u64;
    for _ in 0..looks {
        random = next_random(random);
        let value = file.get(&key_of(drawn(random, count)), steps);
        sum = sum.wrapping_add(byte_of(value));
    }
    sum
}

// The sum of the places of as many keys that aren't there.
fn sought<L: Ledger>(file: &KvFile, count: u64, looks: u64, steps: &mut Steps<L>) -> u64 {
    let mut random = 1u64;
    let mut sum = 0u64;
    for _ in 0..looks {
        random = next_random(random);
        sum = sum.wrapping_add(file.seek(&key_above(drawn(random, count)), steps));
    }
    sum
}

// How far a run goes, and what it looks at.
#[derive(Clone, Copy)]
enum Part {
    Pairs,
    Kv,
    Bt,
    Kvi,
    All,
    Got,
    Sought,
}

fn sum_of<L: Ledger>(
    alloc: Global,
    part: Part,
    count: u64,
    looks: u64,
    blank: Blank,
) -> Result<u64, Memory>
    requires name { blank.name ≡ L.name }
    requires parts { blank.parts ≡ L.parts }
    requires some { 0 < L.parts }
{
    let mut steps = Steps::<L>::of(blank);
    let pairs = pairs_of(alloc, count)?;
    if !are_pairs(&pairs) {
        return Ok(0);
    }
    if let Part::Pairs = part {
        return Ok(pairs.len() as u64);
    }
    let tag = kv_tag(Entity::Accounts, 1, Range { from: 0, to: 1 });
    let file = build_kv(alloc, tag, &pairs)?;
    let kv = file.bytes().len() as u64;
    let bt = file.bt_bytes().len() as u64;
    let kvi = file.kvi_bytes().len() as u64;
    Ok(match part {
        Part::Got => got(&file, count, looks, &mut steps),
        Part::Sought => sought(&file, count, looks, &mut steps),
        Part::Kv => kv,
        Part::Bt => bt,
        Part::Kvi => kvi,
        Part::Pairs => 0,
        Part::All => kv.wrapping_add(bt).wrapping_add(kvi),
    })
}

/// The number of pairs for `pairs`, which are made and no file of them; of their file for `built`, `kv`, `bt` and `kvi`
/// the length of all three or of one; and for `got` and `sought` the sum of so many look-ups.
pub fn sum_of_pairs(alloc: Global, part: &str, count: u64, looks: u64) -> Result<u64, Memory> {
    let part = match part {
        "pairs" => Part::Pairs,
        "got" => Part::Got,
        "sought" => Part::Sought,
        "kv" => Part::Kv,
        "bt" => Part::Bt,
        "kvi" => Part::Kvi,
        _ => Part::All,
    };
    sum_of::<Brand>(alloc, part, count, looks, Blank::new(1))
}
