//! Hash accessors: keys of 20 bytes in a word file, their accessor, and a look for each.
ghost use Rattle.std.specs.Prelude.{◌≡◌, ◌<◌};
ghost use Rattle.recsplit_index.specs.Index.{IsIndexOf};

use crate::keys::TAG;
use agg_outside::{Memory, Steps};
use recsplit_index::HashIndex;
use std::alloc::Global;
use std::marker::Brand;
use std::sync::ledger::{Blank, Ledger};
use word_file::{WordFile, WordWriter, is_paired, keys_ascend};

const TRIES: u32 = 65_536;

fn written(alloc: Global, count: u64) -> Result<WordFile, Memory> {
    let mut writer = WordWriter::new(alloc, TAG)?;
    let mut key = [0u8; 20];
    for i in 0..count {
        key[..8].copy_from_slice(&i.to_be_bytes());
        writer.push(&key)?;
        writer.push(&[])?;
    }
    Ok(writer.finish())
}

// The sum of the offsets of all keys, each looked for.
fn found<L: Ledger>(words: &WordFile, index: &HashIndex, steps: &mut Steps<L>) -> u64
    requires { IsIndexOf words.now.words index.now }
{
    let mut at = words.first();
    let mut sum = 0u64;
    for i in 0..words.count() {
        if let Some(here) = at {
            if i % 2 == 0 {
                let key = words.word_at(here, steps);
                let offset = index.find(words, key, steps);
                sum = sum.wrapping_add(offset.unwrap_or(0));
            }
            at = words.next(here);
        }
    }
    sum
}

// How far a run goes: to the word file, to its accessor, or to a look for each key.
#[derive(Clone, Copy)]
enum Stage {
    Pairs,
    Accessor,
    Looks,
}

fn sum_of_keys<L: Ledger>(
    alloc: Global,
    stage: Stage,
    count: u64,
    blank: Blank,
) -> Result<u64, Memory>
    requires name { blank.name ≡ L.name }
    requires parts { blank.parts ≡ L.parts }
    requires some { 0 < L.parts }
{
    let mut steps = Steps::<L>::of(blank);
    let words = written(alloc, count)?;
    if !is_paired(&words) || !keys_ascend(&words, &mut steps) {
        return Ok(0);
    }
    if let Stage::Pairs = stage {
        return Ok(words.bytes().len() as u64);
    }
    let index = HashIndex::build(alloc, &words, TRIES)?;
    if let Stage::Accessor = stage {
        return Ok(index.bytes().len() as u64);
    }
    Ok(found(&words, &index, &mut steps))
}

/// `hashed_pairs` gives the length of the word file, `hashed` that of its accessor, and every other
/// part the sum of the offsets found; 0 where the keys don't differ.
pub fn sum_of_hashed(alloc: Global, part: &str, count: u64) -> Result<u64, Memory> {
    let stage = match part {
        "hashed_pairs" => Stage::Pairs,
        "hashed" => Stage::Accessor,
        _ => Stage::Looks,
    };
    sum_of_keys::<Brand>(alloc, stage, count, Blank::new(1))
}
