//! Word files: words of 20 bytes written, checked and walked.
ghost use Rattle.std.specs.Prelude.{◌≡◌, ◌<◌};

use crate::keys::TAG;
use agg_outside::{Bytes, Memory, Steps};
use std::alloc::Global;
use std::sync::ledger::{Blank, Ledger};
use word_file::{WordFile, WordWriter};

fn written(alloc: Global, count: u64) -> Result<WordFile, Memory> {
    let mut writer = WordWriter::new(alloc, TAG)?;
    let mut word = [0u8; 20];
    for i in 0..count {
        word[0] = (i & 0xff) as u8;
        word[1] = (i >> 8 & 0xff) as u8;
        word[2] = (i >> 16 & 0xff) as u8;
        writer.push(&word)?;
    }
    Ok(writer.finish())
}

// The sum of all words' second bytes.
fn walked<L: Ledger>(file: &WordFile, blank: Blank) -> u64
    requires name { blank.name ≡ L.name }
    requires parts { blank.parts ≡ L.parts }
    requires some { 0 < L.parts }
{
    let mut steps = Steps::<L>::of(blank);
    let mut at = file.first();
    let mut sum = 0u64;
    for _ in 0..file.count() {
        if let Some(here) = at {
            let word = file.word_at(here, &mut steps);
            sum = sum.wrapping_add(word.get(1).copied().unwrap_or(0) as u64);
            at = file.next(here);
        }
    }
    sum
}

/// The sum of the second bytes of `count` words; none where memory runs out.
pub fn sum_of_words<L: Ledger>(alloc: Global, count: u64, blank: Blank) -> Result<u64, Memory>
    requires name { blank.name ≡ L.name }
    requires parts { blank.parts ≡ L.parts }
    requires some { 0 < L.parts }
{
    let file = written(alloc, count)?;
    let bytes = Bytes::of(alloc, file.bytes())?;
    match WordFile::check(bytes) {
        Ok(read) => Ok(walked::<L>(&read, blank)),
        Err(_) => Ok(0),
    }
}
