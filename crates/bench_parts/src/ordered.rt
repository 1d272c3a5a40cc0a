//! Ordered accessors: keys of 20 bytes, and look-ups at random, half of them at keys that are there
//! and half between two.
ghost use Rattle.std.specs.Prelude.{◌≡◌, ◌<◌};
ghost use Rattle.word_file.specs.Paired.{IsPaired, key_offsets};

use crate::keys::TAG;
use agg_outside::{Memory, Steps};
use btree_index::BTreeFile;
use std::alloc::Global;
use std::sync::ledger::{Blank, Ledger};
use word_file::{WordFile, WordWriter, is_paired, keys_ascend};

/// Keys for `places` places, spread over all that 20 bytes can be: those with odd numbers are in
/// the file, and those with even numbers lie below, between and above them.
#[derive(Clone, Copy)]
struct Keys {
    places: u64,
    gap: u64,
}

impl Keys {
    fn of(places: u64) -> Keys {
        let gap = u64::MAX / places.saturating_mul(2).saturating_add(2);
        Keys { places, gap }
    }

    fn key(&self, number: u64) -> [u8; 20] {
        let mut key = [0; 20];
        let front = number.wrapping_mul(self.gap).to_be_bytes();
        for i in 0..8 {
            key[i] = front[i];
        }
        key
    }

    fn at_random(&self, random: u64) -> [u8; 20] {
        self.key((random >> 33) % self.places.saturating_mul(2).saturating_add(1))
    }
}

fn written(alloc: Global, keys: &Keys) -> Result<WordFile, Memory> {
    let mut writer = WordWriter::new(alloc, TAG)?;
    for place in 0..keys.places {
        writer.push(&keys.key(place.wrapping_mul(2).wrapping_add(1)))?;
        writer.push(&place.to_be_bytes())?;
    }
    Ok(writer.finish())
}

// The sum of the places that `looks` look-ups answer.
fn sought<L: Ledger>(
    words: &WordFile,
    index: &BTreeFile,
    keys: &Keys,
    looks: u64,
    blank: Blank,
) -> u64
    requires name { blank.name ≡ L.name }
    requires parts { blank.parts ≡ L.parts }
    requires some { 0 < L.parts }
    requires paired { IsPaired words.now.words }
    requires of_words { index.now ≡ key_offsets words.now.words }
{
    let mut steps = Steps::<L>::of(blank);
    if !keys_ascend(words, &mut steps) {
        return 0;
    }
    let mut random = 1u64;
    let mut sum = 0u64;
    for _ in 0..looks {
        random = random
            .wrapping_mul(6364136223846793005)
            .wrapping_add(1442695040888963407);
        let place = index.seek(words, &keys.at_random(random), &mut steps);
        sum = sum.wrapping_add(place);
    }
    sum
}

/// The sum of the places of `looks` look-ups among `count` keys; none where memory runs out.
pub fn sum_of_ordered<L: Ledger>(
    alloc: Global,
    count: u64,
    looks: u64,
    blank: Blank,
) -> Result<u64, Memory>
    requires name { blank.name ≡ L.name }
    requires parts { blank.parts ≡ L.parts }
    requires some { 0 < L.parts }
{
    let keys = Keys::of(count);
    let words = written(alloc, &keys)?;
    if !is_paired(&words) {
        return Ok(0);
    }
    let index = BTreeFile::build(alloc, &words)?;
    Ok(sought::<L>(&words, &index, &keys, looks, blank))
}
