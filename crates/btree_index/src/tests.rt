ghost use Rattle.std.specs.Prelude.{◌≡◌, ◌<◌, ◌≤◌, ◌^◌};
ghost use Rattle.word_file.specs.Paired.{IsPaired, key_offsets};

use super::*;
use agg_outside::{Bytes, Steps};
use file_numbers::put_u64;
use std::alloc::Global;
use std::marker::Brand;
use std::process::Abort;
use std::sync::ledger::{Blank, Ledger};
use std::test::Fail;
use word_file::{WordFile, keys_ascend, odd_keys};

fn finds_each<L: Ledger>(rt: &impl Abort, words: &WordFile, index: &BTreeFile, blank: Blank)
    requires name { blank.name ≡ L.name }
    requires parts { blank.parts ≡ L.parts }
    requires some { 0 < L.parts }
    requires paired { IsPaired words.now.words }
    requires of_words { index.now ≡ key_offsets words.now.words }
{
    let mut steps = Steps::<L>::of(blank);
    let ascend = keys_ascend(words, &mut steps);
    assert!(rt; ascend);
    let count = index.count();
    assert!(rt; count < 5000);
    for place in 0..count {
        let key = (2 * place + 1) as u16;
        assert_eq!(rt; index.seek(words, &key.to_be_bytes(), &mut steps), place);
        let below = (2 * place) as u16;
        assert_eq!(rt; index.seek(words, &below.to_be_bytes(), &mut steps), place);
        assert_eq!(rt; index.offset_of(place), 40 + 10 * place);
    }
    assert_eq!(rt; index.seek(words, &[], &mut steps), 0);
    assert_eq!(rt; index.seek(words, &[0xff], &mut steps), count);
}

fn finds_all(rt: &impl Abort, alloc: Global, count: u16, levels: u32) -> Result<(), Fail>
    requires { count ≤ 2 ^ 15 }
{
    let words = odd_keys(alloc, count)?;
    let index = BTreeFile::build(alloc, &words)?;
    assert_eq!(rt; index.levels(), levels);
    finds_each::<Brand>(rt, &words, &index, Blank::new(1));
    let bytes = Bytes::of(alloc, index.bytes())?;
    assert!(rt; BTreeFile::check(alloc, bytes, &words).is_ok());
    Ok(())
}

#[test]
fn each_key_is_found(rt: HostRuntime) -> Result<(), Fail> {
    finds_all(&rt, rt.alloc(), 0, 0)?;
    finds_all(&rt, rt.alloc(), 1, 1)?;
    finds_all(&rt, rt.alloc(), 16, 1)
}

#[test]
fn each_key_is_found_on_more_levels(rt: HostRuntime) -> Result<(), Fail> {
    finds_all(&rt, rt.alloc(), 17, 2)?;
    finds_all(&rt, rt.alloc(), 257, 3)?;
    finds_all(&rt, rt.alloc(), 4097, 4)
}

#[test]
fn over_no_keys_there_is_only_a_header(rt: HostRuntime) -> Result<(), Fail> {
    let words = odd_keys(rt.alloc(), 0)?;
    let index = BTreeFile::build(rt.alloc(), &words)?;
    assert!(rt; index.bytes() == b"AGB1\0\0\0\0\0\0\0\0\0\0\0\0".as_slice());
    Ok(())
}

/// Two levels over 17 keys: the offsets of places 0 and 16, and then all.
fn seventeen(alloc: Global) -> Result<Vec<u8>, Fail> {
    let mut out = Vec::from_slice(alloc, b"AGB1\0\0\0\x02\0\0\0\0\0\0\0\x11".as_slice())?;
    put_u64(&mut out, 40)?;
    put_u64(&mut out, 200)?;
    for place in 0..17 {
        put_u64(&mut out, 40 + 10 * place)?;
    }
    Ok(out)
}

fn refusal(alloc: Global, bytes: &[u8]) -> Result<Option<AccessError>, Fail> {
    let words = odd_keys(alloc, 17)?;
    Ok(BTreeFile::check(alloc, Bytes::of(alloc, bytes)?, &words).err())
}

#[test]
fn the_layout_is_accepted(rt: HostRuntime) -> Result<(), Fail> {
    let bytes = seventeen(rt.alloc())?;
    assert_eq!(rt; refusal(rt.alloc(), bytes.as_slice())?, None);
    Ok(())
}

#[test]
fn another_count_is_refused(rt: HostRuntime) -> Result<(), Fail> {
    let mut bytes = seventeen(rt.alloc())?;
    assert!(rt; bytes.len() == 168);
    bytes[15] = 18;
    let wrong = refusal(rt.alloc(), bytes.as_slice())?;
    assert_eq!(rt; wrong, Some(AccessError::Differs { at: 15 }));
    Ok(())
}

#[test]
fn a_cut_is_refused(rt: HostRuntime) -> Result<(), Fail> {
    let mut bytes = seventeen(rt.alloc())?;
    bytes.truncate(100);
    let cut = refusal(rt.alloc(), bytes.as_slice())?;
    assert_eq!(rt; cut, Some(AccessError::Differs { at: 100 }));
    Ok(())
}
