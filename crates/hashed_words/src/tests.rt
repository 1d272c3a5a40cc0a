ghost use Rattle.std.specs.Prelude.{◌≡◌, ◌+◌, ◌<◌, nat_lt, if◌then◌else◌, length, Some, None, IsTrue};
ghost use Rattle.word_file.specs.Paired.{IsPaired, KeysDiffer};

use super::*;
use crate::filter::{marks_of, may_have};
use agg_model::FileKind;
use agg_outside::{Bytes, Memory, Steps};
use std::alloc::Global;
use std::marker::Brand;
use std::process::Abort;
use std::sync::ledger::{Blank, Ledger};
use std::test::Fail;
use word_file::{Tag, WordFile, WordWriter, is_paired, keys_ascend};

/// Keys that aren't empty, and at most two values.
struct AtMostTwo;

impl WordRules for AtMostTwo {
    ghost use Rattle.std.specs.Prelude.{◌+◌, nat_lt, if◌then◌else◌, length, Some, None};

    ghost rules = { λ it. record { key_stands = λ last key. nat_lt 0 (length key); count_value = λ counted value. if nat_lt counted 2 then Some (counted + 1) else None } };

    fn key_stands(&self, _last: Option<&[u8]>, key: &[u8]) -> bool {
        0 < key.len()
    }

    fn count_value(&self, counted: u64, _value: &[u8]) -> Option<u64> {
        if counted < 2 { Some(counted + 1) } else { None }
    }
}

const TAG: Tag = Tag {
    entity: 3,
    kind: 0,
    version: 1,
    step: 4,
    from: 1,
    to: 2,
};

/// The header of a file of this tag, but for the last byte of the number of words.
const FRONT: [u8; 39] = [
    0x41, 0x47, 0x57, 0x31, 3, 0, 0, 1, 0, 0, 0, 0, 0, 0, 0, 4, 0, 0, 0, 0, 0, 0, 0, 1, 0, 0, 0, 0,
    0, 0, 0, 2, 0, 0, 0, 0, 0, 0, 0,
];

/// Two and three keys with empty values, an empty key behind another, and a key without a value word.
const TWO: &[u8] = b"\0\0\0\x01\x01\0\0\0\0\0\0\0\x01\x02\0\0\0\0";

const THREE: &[u8] = b"\0\0\0\x01\x01\0\0\0\0\0\0\0\x01\x02\0\0\0\0\0\0\0\x01\x03\0\0\0\0";

const EMPTY: &[u8] = b"\0\0\0\x01\x01\0\0\0\0\0\0\0\0\0\0\0\0";

const LONE: &[u8] = b"\0\0\0\x01\x01";

/// The bytes with another last bit at this place, if there is such a place.
fn turned(alloc: Global, bytes: &[u8], place: usize) -> Result<Vec<u8>, Memory> {
    let mut out = Vec::from_slice(alloc, bytes)?;
    if let Some(byte) = out.get_mut(place) {
        *byte ^= 1;
    }
    Ok(out)
}

/// Where a file of this tag is refused that has so many words, which are these bytes.
fn refusal_of_words(alloc: Global, count: u8, words: &[u8]) -> Result<Option<FileError>, Memory> {
    let mut bytes = Vec::from_slice(alloc, &FRONT)?;
    bytes.push(count)?;
    bytes.extend_from_slice(words)?;
    Ok(open_words(&AtMostTwo, FileKind::Kv, TAG, Bytes::from_vec(bytes)).err())
}

fn bad(at: u64) -> Option<FileError> {
    Some(FileError::Bad {
        kind: FileKind::Kv,
        at,
    })
}

#[test]
fn a_word_is_refused_at_its_offset(rt: HostRuntime) -> Result<(), Fail> {
    assert_eq!(rt; refusal_of_words(rt.alloc(), 4, TWO)?, None);
    assert_eq!(rt; refusal_of_words(rt.alloc(), 6, THREE)?, bad(63));
    assert_eq!(rt; refusal_of_words(rt.alloc(), 4, EMPTY)?, bad(49));
    assert_eq!(rt; refusal_of_words(rt.alloc(), 1, LONE)?, bad(45));
    Ok(())
}

/// Where a file of no words is refused that has another last bit at this place.
fn refusal_of_turned(alloc: Global, place: usize) -> Result<Option<FileError>, Memory> {
    let mut bytes = Vec::from_slice(alloc, &FRONT)?;
    bytes.push(0)?;
    let bytes = turned(alloc, bytes.as_slice(), place)?;
    Ok(open_words(&AtMostTwo, FileKind::Kv, TAG, Bytes::from_vec(bytes)).err())
}

#[test]
fn a_tag_is_refused_at_its_field(rt: HostRuntime) -> Result<(), Fail> {
    for (place, at) in [
        (0, 0),
        (4, 4),
        (5, 5),
        (7, 6),
        (15, 8),
        (23, 16),
        (31, 24),
        (39, 32),
    ] {
        assert_eq!(rt; refusal_of_turned(rt.alloc(), place)?, bad(at));
    }
    Ok(())
}

fn keys_differ<L: Ledger>(words: &WordFile, blank: Blank) -> bool
    requires name { blank.name ≡ L.name }
    requires parts { blank.parts ≡ L.parts }
    requires some { 0 < L.parts }
    requires paired { IsPaired words.now.words }
    ensures { IsTrue result → KeysDiffer words.now.words }
{
    let mut steps = Steps::<L>::of(blank);
    keys_ascend(words, &mut steps)
}

/// Words of two keys, 01 with the value 07 and 02 with none.
fn two_keys(alloc: Global) -> Result<WordFile, Memory> {
    let mut writer = WordWriter::new(alloc, TAG)?;
    writer.push(&[1])?;
    writer.push(&[7])?;
    writer.push(&[2])?;
    writer.push(&[])?;
    Ok(writer.finish())
}

/// Words of the keys of one byte below this one, each without a value.
fn keys_below(alloc: Global, end: u8) -> Result<WordFile, Memory> {
    let mut writer = WordWriter::new(alloc, TAG)?;
    for key in 0..end {
        writer.push(&[key])?;
        writer.push(&[])?;
    }
    Ok(writer.finish())
}

/// Two keys behind their accessor; behind this text of one, where it isn't empty.
fn hashed(alloc: Global, accessor: &[u8]) -> Result<HashedWords, FileError> {
    behind(alloc, two_keys(alloc)?, accessor)
}

fn behind(alloc: Global, words: WordFile, accessor: &[u8]) -> Result<HashedWords, FileError> {
    if !is_paired(&words) || !keys_differ::<Brand>(&words, Blank::new(1)) {
        return Err(FileError::Memory);
    }
    if accessor.is_empty() {
        return Ok(HashedWords::of(alloc, words)?);
    }
    let accessor = Bytes::of(alloc, accessor)?;
    HashedWords::check(alloc, FileKind::Kvi, words, accessor)
}

fn looks<L: Ledger>(rt: &impl Abort, words: &HashedWords, blank: Blank)
    requires name { blank.name ≡ L.name }
    requires parts { blank.parts ≡ L.parts }
    requires some { 0 < L.parts }
{
    let mut steps = Steps::<L>::of(blank);
    assert!(rt; words.value(&[1], &mut steps) == Some([7].as_slice()));
    assert!(rt; words.value(&[2], &mut steps) == Some([].as_slice()));
    assert!(rt; words.value(&[], &mut steps).is_none());
    assert_eq!(rt; words.find(&[2], &mut steps), Some(50));
    assert_eq!(rt; words.find(&[7], &mut steps), None);
}

/// How the accessor of the words is refused with another last bit at this place; not at all where there is none.
fn accessor_refusal(alloc: Global, place: usize) -> Result<Option<FileError>, FileError> {
    let built = hashed(alloc, &[])?;
    let accessor = turned(alloc, built.accessor(), place)?;
    Ok(hashed(alloc, accessor.as_slice()).err())
}

#[test]
fn keys_are_found_by_the_accessor(rt: HostRuntime) -> Result<(), Fail> {
    match hashed(rt.alloc(), &[]) {
        Ok(words) => looks::<Brand>(&rt, &words, Blank::new(1)),
        Err(_) => return Err(Fail::from("they may stand behind an accessor")),
    }
    Ok(())
}

#[test]
fn an_accessor_is_accepted_whole(rt: HostRuntime) -> Result<(), Fail> {
    assert!(rt; accessor_refusal(rt.alloc(), 1_000) == Ok(None));
    let turned = FileError::Bad {
        kind: FileKind::Kvi,
        at: 5,
    };
    assert!(rt; accessor_refusal(rt.alloc(), 5) == Ok(Some(turned)));
    Ok(())
}

/// How many keys of one byte, from 100 to 199, the filter of these words lets pass.
fn passing(alloc: Global, words: &WordFile) -> Result<usize, Memory> {
    if !is_paired(words) {
        return Err(Memory);
    }
    let marks = marks_of::<Brand>(alloc, words, Blank::new(1))?;
    let mut count = 0usize;
    for key in 100..200 {
        if may_have(marks.as_slice(), &[key]) {
            count = count.saturating_add(1);
        }
    }
    Ok(count)
}

#[test]
fn few_keys_pass_that_arent_there(rt: HostRuntime) -> Result<(), Fail> {
    let words = keys_below(rt.alloc(), 17)?;
    assert!(rt; passing(rt.alloc(), &words)? < 25);
    Ok(())
}

#[test]
fn each_eighth_pair_is_told(rt: HostRuntime) -> Result<(), Fail> {
    let Ok(words) = behind(rt.alloc(), keys_below(rt.alloc(), 17)?, &[]) else {
        return Err(Fail::from("they may stand behind an accessor"));
    };
    // A pair of a key of one byte without a value takes nine bytes, behind a header of forty.
    assert_eq!(rt; words.starts(), [40, 112, 184].as_slice());
    Ok(())
}
