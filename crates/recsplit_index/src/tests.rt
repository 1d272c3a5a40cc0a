ghost use Rattle.std.specs.Prelude.{◌≡◌, ◌<◌, ◌≤◌, ◌^◌, IsTrue};
ghost use Rattle.word_file.specs.Paired.{IsPaired, KeysDiffer};
ghost use Rattle.recsplit_index.specs.Index.{IsIndexOf};

use super::*;
use agg_outside::{Bytes, Steps};
use file_numbers::{put_numbers, put_u64};
use std::alloc::Global;
use std::marker::Brand;
use std::process::Abort;
use std::sync::ledger::{Blank, Ledger};
use std::test::Fail;
use word_file::{Tag, WordFile, WordWriter, is_paired, keys_ascend, odd_keys};

const FIRST_STEP: Tag = Tag {
    entity: 0,
    kind: 0,
    version: 1,
    step: 1,
    from: 0,
    to: 1,
};

fn keys_differ<L: Ledger>(words: &WordFile, blank: Blank) -> bool
    requires name { blank.name ≡ L.name }
    requires parts { blank.parts ≡ L.parts }
    requires some { 0 < L.parts }
    requires paired { IsPaired words.now.words }
    ensures { IsTrue result → KeysDiffer words.now.words }
{
    let mut steps = Steps::<L>::of(blank);
    keys_ascend(words, &mut steps)
}

fn finds_each<L: Ledger>(
    rt: &impl Abort,
    words: &WordFile,
    index: &HashIndex,
    count: u16,
    blank: Blank,
)
    requires name { blank.name ≡ L.name }
    requires parts { blank.parts ≡ L.parts }
    requires some { 0 < L.parts }
    requires count { count ≤ 2 ^ 15 }
    requires of_words { IsIndexOf words.now.words index.now }
{
    let mut steps = Steps::<L>::of(blank);
    for place in 0..count {
        let key = 2 * place + 1;
        let found = index.find(words, &key.to_be_bytes(), &mut steps);
        assert_eq!(rt; found, Some(40 + 10 * u64::from(place)));
        let absent = index.find(words, &(key - 1).to_be_bytes(), &mut steps);
        assert_eq!(rt; absent, None);
    }
    assert_eq!(rt; index.find(words, &[0, 1, 0], &mut steps), None);
}

fn finds_all(rt: &impl Abort, alloc: Global, count: u16, tries: u32, form: u8) -> Result<(), Fail>
    requires count { count ≤ 2 ^ 15 }
    requires tries { tries ≤ 2 ^ 16 }
{
    let words = odd_keys(alloc, count)?;
    assert!(rt; keys_differ::<Brand>(&words, Blank::new(1)));
    let index = HashIndex::build(alloc, &words, tries)?;
    assert_eq!(rt; index.form(), form, "over {count} keys with {tries} tries");
    finds_each::<Brand>(rt, &words, &index, count, Blank::new(1));
    let bytes = Bytes::of(alloc, index.bytes())?;
    assert!(rt; HashIndex::check(alloc, bytes, &words, tries).is_ok());
    Ok(())
}

#[test]
fn each_key_is_found(rt: HostRuntime) -> Result<(), Fail> {
    finds_all(&rt, rt.alloc(), 0, 65_536, 1)?;
    finds_all(&rt, rt.alloc(), 8, 65_536, 1)?;
    finds_all(&rt, rt.alloc(), 101, 65_536, 1)
}

/// 130 buckets are looked at by two threads.
#[test]
fn side_by_side_the_same_is_built(rt: HostRuntime) -> Result<(), Fail> {
    let words = odd_keys(rt.alloc(), 13_000)?;
    assert!(rt; keys_differ::<Brand>(&words, Blank::new(1)));
    let index = HashIndex::build_side_by_side(&rt, rt.alloc(), &words, 65_536)?;
    let alone = HashIndex::build(rt.alloc(), &words, 65_536)?;
    assert!(rt; index.bytes() == alone.bytes());
    Ok(())
}

#[test]
fn each_key_is_found_where_there_are_no_seeds(rt: HostRuntime) -> Result<(), Fail> {
    finds_all(&rt, rt.alloc(), 1, 0, 1)?;
    finds_all(&rt, rt.alloc(), 8, 0, 0)?;
    finds_all(&rt, rt.alloc(), 101, 0, 0)
}

#[test]
fn a_hash_is_that_of_split_mix(rt: HostRuntime) {
    assert_eq!(rt; key_hash(0, b""), 0);
    assert_eq!(rt; key_hash(1, b""), 0xe220_a839_7b1d_cdaf);
}

#[test]
fn a_hash_takes_each_piece_in(rt: HostRuntime) {
    assert_eq!(rt; key_hash(0, &[0xaa]), 0xd7a4_a05b_13d3_6841);
    assert_eq!(rt; key_hash(0, &[0xbb]), 0xb52e_02f1_cebf_4dc9);
    assert_eq!(rt; key_hash(3, b"abcdefghi"), 0x9657_053c_be7d_8c0b);
}

/// The accessor of these keys of one byte, each with a value of one byte.
fn of_few(alloc: Global, keys: &[u8], tries: u32) -> Result<Bytes, Fail>
    requires { tries ≤ 2 ^ 16 }
{
    let mut writer = WordWriter::new(alloc, FIRST_STEP)?;
    for key in keys {
        writer.push(&[*key])?;
        writer.push(&[1])?;
    }
    let words = writer.finish();
    if !is_paired(&words) || !keys_differ::<Brand>(&words, Blank::new(1)) {
        return Err(Fail::from("the keys differ"));
    }
    let index = HashIndex::build(alloc, &words, tries)?;
    Ok(Bytes::of(alloc, index.bytes())?)
}

/// A text of form 1 and salt 0 over `count` keys: its table and its offsets, and its bits.
fn text_of(alloc: Global, count: u64, numbers: &[u64], bits: &[u8]) -> Result<Vec<u8>, Fail> {
    let mut out = Vec::from_slice(alloc, b"AGH1\x01\0\0\0".as_slice())?;
    put_u64(&mut out, count)?;
    put_numbers(&mut out, numbers)?;
    out.extend_from_slice(bits)?;
    Ok(out)
}

#[test]
fn over_no_keys_there_is_one_start(rt: HostRuntime) -> Result<(), Fail> {
    let none = of_few(rt.alloc(), &[], 65_536)?;
    let text = text_of(rt.alloc(), 0, &[0, 0], &[])?;
    assert!(rt; none.as_slice() == text.as_slice());
    Ok(())
}

#[test]
fn one_key_needs_no_seed(rt: HostRuntime) -> Result<(), Fail> {
    let one = of_few(rt.alloc(), &[0xaa], 65_536)?;
    let text = text_of(rt.alloc(), 1, &[0, 0, 1, 0, 0x28], &[])?;
    assert!(rt; one.as_slice() == text.as_slice());
    Ok(())
}

#[test]
fn two_keys_are_told_apart_by_a_seed(rt: HostRuntime) -> Result<(), Fail> {
    let two = of_few(rt.alloc(), &[0xaa, 0xbb], 65_536)?;
    let text = text_of(rt.alloc(), 2, &[0, 0, 2, 1, 0x28, 0x32], &[1])?;
    assert!(rt; two.as_slice() == text.as_slice());
    Ok(())
}

#[test]
fn without_seeds_keys_stand_in_order(rt: HostRuntime) -> Result<(), Fail> {
    let plain = of_few(rt.alloc(), &[0xaa, 0xbb], 0)?;
    let text = b"AGH1\0\0\0\0\0\0\0\0\0\0\0\x02\0\0\0\0\0\0\0\x28\0\0\0\0\0\0\0\x32";
    assert!(rt; plain.as_slice() == text.as_slice());
    Ok(())
}

/// The accessor of nine odd keys.
fn nine(alloc: Global) -> Result<Vec<u8>, Fail> {
    let numbers = [
        0, 0, 9, 12, 0x28, 0x46, 0x50, 0x3c, 0x32, 0x64, 0x5a, 0x78, 0x6e,
    ];
    text_of(alloc, 9, &numbers, &[0x9b, 0x0d])
}

fn refusal(alloc: Global, bytes: &[u8]) -> Result<Option<AccessError>, Fail> {
    let words = odd_keys(alloc, 9)?;
    if !keys_differ::<Brand>(&words, Blank::new(1)) {
        return Err(Fail::from("the keys differ"));
    }
    Ok(HashIndex::check(alloc, Bytes::of(alloc, bytes)?, &words, 65_536).err())
}

#[test]
fn nine_keys_are_split(rt: HostRuntime) -> Result<(), Fail> {
    let bytes = nine(rt.alloc())?;
    assert_eq!(rt; refusal(rt.alloc(), bytes.as_slice())?, None);
    Ok(())
}

#[test]
fn another_count_is_refused(rt: HostRuntime) -> Result<(), Fail> {
    let mut bytes = nine(rt.alloc())?;
    assert!(rt; bytes.len() == 122);
    bytes[15] = 10;
    let wrong = refusal(rt.alloc(), bytes.as_slice())?;
    assert_eq!(rt; wrong, Some(AccessError::Differs { at: 15 }));
    Ok(())
}

#[test]
fn a_cut_is_refused(rt: HostRuntime) -> Result<(), Fail> {
    let mut bytes = nine(rt.alloc())?;
    bytes.truncate(50);
    let cut = refusal(rt.alloc(), bytes.as_slice())?;
    assert_eq!(rt; cut, Some(AccessError::Differs { at: 50 }));
    Ok(())
}
