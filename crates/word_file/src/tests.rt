ghost use Rattle.std.specs.Prelude.{◌≡◌, ◌<◌, ◌≤◌, IfSome};
ghost use Rattle.word_file.specs.Spelling.{StartsAt};

use super::*;
use agg_outside::{Bytes, Steps};
use std::alloc::Global;
use std::marker::Brand;
use std::process::Abort;
use std::sync::ledger::{Blank, Ledger};
use std::test::Fail;

const FIRST_STEP: Tag = Tag {
    entity: 0,
    kind: 0,
    version: 1,
    step: 1,
    from: 0,
    to: 1,
};

/// The file of the key `aa` with the value 1, in the first step.
const PAIR: [u8; 50] = [
    0x41, 0x47, 0x57, 0x31, 0, 0, 0, 1, 0, 0, 0, 0, 0, 0, 0, 1, 0, 0, 0, 0, 0, 0, 0, 0, 0, 0, 0, 0,
    0, 0, 0, 1, 0, 0, 0, 0, 0, 0, 0, 2, 0, 0, 0, 1, 0xaa, 0, 0, 0, 1, 1,
];

fn pair(alloc: Global) -> Result<WordFile, Fail> {
    let mut writer = WordWriter::new(alloc, FIRST_STEP)?;
    writer.push(&[0xaa])?;
    writer.push(&[1])?;
    Ok(writer.finish())
}

#[test]
fn a_file_has_its_layout(rt: HostRuntime) -> Result<(), Fail> {
    let words = pair(rt.alloc())?;
    assert!(rt; words.bytes() == PAIR.as_slice());
    Ok(())
}

#[test]
fn each_part_of_a_tag_has_its_place(rt: HostRuntime) -> Result<(), Fail> {
    let tag = Tag {
        entity: 1,
        kind: 2,
        version: 3,
        step: 4,
        from: 5,
        to: 6,
    };
    let words = WordWriter::new(rt.alloc(), tag)?.finish();
    let text =
        b"AGW1\x01\x02\0\x03\0\0\0\0\0\0\0\x04\0\0\0\0\0\0\0\x05\0\0\0\0\0\0\0\x06\0\0\0\0\0\0\0\0";
    assert!(rt; words.bytes() == text.as_slice());
    assert_eq!(rt; words.tag(), tag);
    Ok(())
}

/// The word at this offset is the expected one; answers the offset after it.
fn has_word<L: Ledger>(
    rt: &impl Abort,
    file: &WordFile,
    at: Option<u64>,
    word: &[u8],
    steps: &mut Steps<L>,
) -> Option<u64>
    requires { IfSome at (λ here. StartsAt file.now.words here) }
    ensures { IfSome result (λ next. StartsAt file.now.words next) }
{
    let here = at?;
    assert!(rt; file.word_at(here, steps) == word);
    file.next(here)
}

fn has_pair<L: Ledger>(rt: &impl Abort, file: &WordFile, blank: Blank)
    requires name { blank.name ≡ L.name }
    requires parts { blank.parts ≡ L.parts }
    requires some { 0 < L.parts }
{
    let mut steps = Steps::<L>::of(blank);
    let value = has_word(rt, file, file.first(), &[0xaa], &mut steps);
    assert!(rt; value.is_some());
    let end = has_word(rt, file, value, &[1], &mut steps);
    assert!(rt; end.is_none());
}

#[test]
fn a_file_is_read_back(rt: HostRuntime) -> Result<(), Fail> {
    let bytes = Bytes::of(rt.alloc(), &PAIR)?;
    let words = WordFile::check(bytes).ok().ok_or("it is a file")?;
    assert_eq!(rt; words.count(), 2);
    has_pair::<Brand>(&rt, &words, Blank::new(1));
    Ok(())
}

fn refusal(alloc: Global, bytes: &[u8]) -> Option<WordError> {
    let Ok(own) = Bytes::of(alloc, bytes) else {
        return None;
    };
    WordFile::check(own).err()
}

#[test]
fn each_part_of_a_file_is_refused(rt: HostRuntime) {
    for len in 0..PAIR.len() {
        assert!(rt; refusal(rt.alloc(), &PAIR[..len]).is_some());
    }
}

fn refusal_of_first(alloc: Global, len: usize) -> Option<WordError>
    requires { len ≤ 50 }
{
    refusal(alloc, &PAIR[..len])
}

#[test]
fn a_cut_is_refused_where_it_is(rt: HostRuntime) {
    let header = refusal_of_first(rt.alloc(), 39);
    assert_eq!(rt; header, Some(WordError::Short { at: 39 }));
    let count = refusal_of_first(rt.alloc(), 45);
    assert_eq!(rt; count, Some(WordError::Count { said: 2, found: 1 }));
    let word = refusal_of_first(rt.alloc(), 49);
    assert_eq!(rt; word, Some(WordError::Short { at: 45 }));
}

fn refusal_with(alloc: Global, place: usize, byte: u8) -> Option<WordError>
    requires { place < 50 }
{
    let mut bytes = PAIR;
    bytes[place] = byte;
    refusal(alloc, &bytes)
}

#[test]
fn each_wrong_field_is_refused(rt: HostRuntime) {
    let magic = refusal_with(rt.alloc(), 0, 0x40);
    assert_eq!(rt; magic, Some(WordError::Magic));
    let count = refusal_with(rt.alloc(), 39, 3);
    assert_eq!(rt; count, Some(WordError::Count { said: 3, found: 2 }));
    let long = refusal_with(rt.alloc(), 48, 2);
    assert_eq!(rt; long, Some(WordError::Short { at: 45 }));
}

#[test]
fn texts_differ_first_where_they_stop_being_alike(rt: HostRuntime) {
    assert_eq!(rt; first_difference(b"abc", b"abd"), Some(2));
    assert_eq!(rt; first_difference(b"ab", b"abd"), Some(2));
    assert_eq!(rt; first_difference(b"abd", b"abd"), None);
}

/// Words of which each second one is a key.
fn with_keys(alloc: Global, one: u8, other: u8) -> Result<WordFile, Fail> {
    let mut writer = WordWriter::with_room(alloc, FIRST_STEP, 18)?;
    writer.push(&[one])?;
    writer.push(&[])?;
    writer.push(&[other])?;
    writer.push(&[])?;
    Ok(writer.finish())
}

fn ascend<L: Ledger>(words: &WordFile, blank: Blank) -> bool
    requires name { blank.name ≡ L.name }
    requires parts { blank.parts ≡ L.parts }
    requires some { 0 < L.parts }
{
    let mut steps = Steps::<L>::of(blank);
    is_paired(words) && keys_ascend(words, &mut steps)
}

fn are_in_order(alloc: Global, one: u8, other: u8) -> Result<bool, Fail> {
    let words = with_keys(alloc, one, other)?;
    Ok(ascend::<Brand>(&words, Blank::new(1)))
}

#[test]
fn keys_ascend_where_each_is_below_the_next(rt: HostRuntime) -> Result<(), Fail> {
    assert!(rt; are_in_order(rt.alloc(), 1, 2)?);
    assert!(rt; !are_in_order(rt.alloc(), 2, 2)?);
    Ok(())
}

#[test]
fn keys_have_offsets(rt: HostRuntime) -> Result<(), Fail> {
    let words = odd_keys(rt.alloc(), 3)?;
    let offsets = key_offsets(rt.alloc(), &words)?;
    assert!(rt; offsets.as_slice() == [40, 50, 60].as_slice());
    Ok(())
}

#[test]
fn a_text_is_followed_to_its_end(rt: HostRuntime) {
    assert_eq!(rt; follow(b"abcde", 1, b"bcd"), Ok(4));
    assert_eq!(rt; follow(b"abcde", 1, b"bcx"), Err(3));
    assert_eq!(rt; follow(b"abcde", 3, b"dex"), Err(5));
}
