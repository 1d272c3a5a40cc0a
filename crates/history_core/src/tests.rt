ghost use Rattle.std.specs.Prelude.{◌≡◌, ◌<◌};

use super::*;
use agg_model::{Entity, FileKind, Range};
use agg_outside::{Bytes, Memory, Steps};
use hashed_words::FileError;
use std::alloc::Global;
use std::marker::Brand;
use std::process::Abort;
use std::sync::ledger::{Blank, Ledger};
use std::test::Fail;
use word_file::Tag;

/// The file of one change: key aa at number 0, with nothing before.
const ONE: [u8; 57] = [
    0x41, 0x47, 0x57, 0x31, 0, 1, 0, 1, 0, 0, 0, 0, 0, 0, 0, 1, 0, 0, 0, 0, 0, 0, 0, 0, 0, 0, 0, 0,
    0, 0, 0, 1, 0, 0, 0, 0, 0, 0, 0, 2, 0, 0, 0, 9, 0xaa, 0, 0, 0, 0, 0, 0, 0, 0, 0, 0, 0, 0,
];

/// Its accessor.
const ONE_VI: [u8; 56] = [
    0x41, 0x47, 0x48, 0x31, 1, 0, 0, 0, 0, 0, 0, 0, 0, 0, 0, 1, 0, 0, 0, 0, 0, 0, 0, 0, 0, 0, 0, 0,
    0, 0, 0, 0, 0, 0, 0, 0, 0, 0, 0, 1, 0, 0, 0, 0, 0, 0, 0, 0, 0, 0, 0, 0, 0, 0, 0, 0x28,
];

/// A file without changes, of the storage.
const EMPTY: [u8; 40] = [
    0x41, 0x47, 0x57, 0x31, 1, 1, 0, 1, 0, 0, 0, 0, 0, 0, 0, 1, 0, 0, 0, 0, 0, 0, 0, 0, 0, 0, 0, 0,
    0, 0, 0, 1, 0, 0, 0, 0, 0, 0, 0, 0,
];

/// The accessor of no key.
const EMPTY_VI: [u8; 32] = [
    0x41, 0x47, 0x48, 0x31, 1, 0, 0, 0, 0, 0, 0, 0, 0, 0, 0, 0, 0, 0, 0, 0, 0, 0, 0, 0, 0, 0, 0, 0,
    0, 0, 0, 0,
];

fn first_step(entity: Entity) -> Tag {
    v_tag(entity, 1, Range { from: 0, to: 1 })
}

/// So many bytes, each of them this one.
fn repeated(alloc: Global, byte: u8, length: usize) -> Result<Bytes, Memory> {
    let mut bytes = Vec::new(alloc);
    bytes.resize(length, byte)?;
    Ok(Bytes::from_vec(bytes))
}

/// Changes, each of a key of so many bytes 0 at a number, with so many bytes 1 before.
fn rows_of(alloc: Global, table: &[(usize, u64, usize)]) -> Result<Befores, Memory> {
    let mut rows = Befores::new(alloc);
    for (zeros, tx, ones) in table {
        rows.push(Before {
            key: repeated(alloc, 0, *zeros)?,
            tx: *tx,
            value: repeated(alloc, 1, *ones)?,
        })?;
    }
    Ok(rows)
}

/// The file of changes that may be those of one.
fn file_of(alloc: Global, tag: Tag, rows: &Befores) -> Result<VFile, Fail> {
    if !are_befores(tag, rows) {
        return Err(Fail::from("they may be those of a file"));
    }
    Ok(build_v(alloc, tag, rows)?)
}

/// Why the files are refused, if they are.
fn refusal(alloc: Global, tag: Tag, v: &[u8], vi: &[u8]) -> Result<Option<FileError>, Memory> {
    let v = Bytes::of(alloc, v)?;
    let vi = Bytes::of(alloc, vi)?;
    Ok(VFile::check(alloc, tag, v, vi).err())
}

fn bad(kind: FileKind, at: u64) -> Option<FileError> {
    Some(FileError::Bad { kind, at })
}

fn one_row(alloc: Global) -> Result<Befores, Memory> {
    let mut rows = Befores::new(alloc);
    rows.push(Before {
        key: repeated(alloc, 0xaa, 1)?,
        tx: 0,
        value: repeated(alloc, 0, 0)?,
    })?;
    Ok(rows)
}

#[test]
fn the_files_of_one_change_have_their_bytes(rt: HostRuntime) -> Result<(), Fail> {
    let rows = one_row(rt.alloc())?;
    let file = file_of(rt.alloc(), first_step(Entity::Accounts), &rows)?;
    assert!(rt; file.bytes() == ONE.as_slice());
    assert!(rt; file.vi_bytes() == ONE_VI.as_slice());
    assert_eq!(rt; file.tag().kind, 1);
    Ok(())
}

#[test]
fn the_files_of_no_change_have_their_bytes(rt: HostRuntime) -> Result<(), Fail> {
    let rows = Befores::new(rt.alloc());
    let file = file_of(rt.alloc(), first_step(Entity::Storage), &rows)?;
    assert!(rt; file.bytes() == EMPTY.as_slice());
    assert!(rt; file.vi_bytes() == EMPTY_VI.as_slice());
    Ok(())
}

/// 00 at two numbers, 0000 whose key word is below both in the order of bytes, and a key of 64 bytes.
const SOME: [(usize, u64, usize); 4] = [(1, 4, 0), (1, 6, 1), (2, 4, 2), (64, 7, 3)];

/// The tag of the accounts over the second of two steps of four numbers.
fn second_step() -> Tag {
    v_tag(Entity::Accounts, 4, Range { from: 1, to: 2 })
}

/// How many bytes stand before the change of a key of so many bytes 0; 9 where there was no such change.
fn length_before<L: Ledger>(
    alloc: Global,
    file: &VFile,
    zeros: usize,
    tx: u64,
    blank: Blank,
) -> Result<usize, Memory>
    requires name { blank.name ≡ L.name }
    requires parts { blank.parts ≡ L.parts }
    requires some { 0 < L.parts }
{
    let mut steps = Steps::<L>::of(blank);
    let key = repeated(alloc, 0, zeros)?;
    match file.previous(key.as_slice(), tx, &mut steps) {
        Some(value) => Ok(value.len()),
        None => Ok(9),
    }
}

#[test]
fn a_key_is_found_at_its_numbers_alone(rt: HostRuntime) -> Result<(), Fail> {
    let rows = rows_of(rt.alloc(), &SOME)?;
    let file = file_of(rt.alloc(), second_step(), &rows)?;
    for (zeros, tx, length) in [
        (1, 4, 0),
        (1, 6, 1),
        (2, 4, 2),
        (64, 7, 3),
        (1, 5, 9),
        (2, 6, 9),
        (0, 4, 9),
        (65, 7, 9),
    ] {
        let before = length_before::<Brand>(rt.alloc(), &file, zeros, tx, Blank::new(1))?;
        assert_eq!(rt; before, length);
    }
    Ok(())
}

/// The row whose key word is the first word.
fn first_row(file: &VFile) -> Option<(&[u8], u64, &[u8])> {
    match file.words().first() {
        Some(at) => Some(file.row_at(at)),
        None => None,
    }
}

#[test]
fn the_first_word_is_that_of_the_first_row(rt: HostRuntime) -> Result<(), Fail> {
    let rows = rows_of(rt.alloc(), &[(2, 7, 1)])?;
    let file = file_of(rt.alloc(), second_step(), &rows)?;
    match first_row(&file) {
        Some((key, tx, value)) => {
            assert!(rt; key == [0, 0].as_slice());
            assert_eq!(rt; tx, 7);
            assert!(rt; value == [1].as_slice());
        }
        None => return Err(Fail::from("it has a row")),
    }
    Ok(())
}

#[test]
fn files_are_those_of_their_name_alone(rt: HostRuntime) -> Result<(), Fail> {
    let named = refusal(rt.alloc(), first_step(Entity::Accounts), &ONE, &ONE_VI)?;
    let other = refusal(rt.alloc(), first_step(Entity::Storage), &ONE, &ONE_VI)?;
    assert_eq!(rt; named, None);
    assert_eq!(rt; other, bad(FileKind::V, 4));
    Ok(())
}

#[test]
fn a_number_behind_the_steps_is_refused(rt: HostRuntime) -> Result<(), Fail> {
    let mut late = ONE;
    late[52] = 1;
    let refused = refusal(rt.alloc(), first_step(Entity::Accounts), &late, &ONE_VI)?;
    assert_eq!(rt; refused, bad(FileKind::V, 40));
    Ok(())
}

/// Whether each front of the words is refused where it ends, or at the word that it cuts, or for the number of its words.
fn fronts_are_refused(alloc: Global) -> Result<bool, Memory> {
    for end in 0..57 {
        let at = match end {
            0..=39 => end,
            40 | 53 => 32,
            41..=52 => 40,
            _ => 53,
        };
        let refused = refusal(alloc, first_step(Entity::Accounts), &ONE[..end], &ONE_VI)?;
        if refused != bad(FileKind::V, at as u64) {
            return Ok(false);
        }
    }
    Ok(true)
}

/// Whether the accessor is refused where it ends too early, and where a bit is turned.
fn accessors_are_refused(alloc: Global) -> Result<bool, Memory> {
    for at in 0..56 {
        let mut turned = ONE_VI;
        turned[at] ^= 1;
        let cut = refusal(alloc, first_step(Entity::Accounts), &ONE, &ONE_VI[..at])?;
        let other = refusal(alloc, first_step(Entity::Accounts), &ONE, &turned)?;
        if cut != bad(FileKind::Vi, at as u64) || other != bad(FileKind::Vi, at as u64) {
            return Ok(false);
        }
    }
    Ok(true)
}

#[test]
fn files_cut_or_turned_anywhere_are_refused(rt: HostRuntime) -> Result<(), Fail> {
    assert!(rt; fronts_are_refused(rt.alloc())?);
    assert!(rt; accessors_are_refused(rt.alloc())?);
    Ok(())
}

/// So many keys of two bytes, 00 01, 00 03 and so on, each changed once, with itself before.
fn odd_rows(alloc: Global, count: u16) -> Result<Befores, Memory> {
    let mut rows = Befores::new(alloc);
    for i in 0..count {
        let key = (i % 0x8000 * 2 + 1).to_be_bytes();
        rows.push(Before {
            key: Bytes::of(alloc, &key)?,
            tx: u64::from(i),
            value: Bytes::of(alloc, &key)?,
        })?;
    }
    Ok(rows)
}

fn finds_each<L: Ledger>(rt: &impl Abort, file: &VFile, count: u16, blank: Blank)
    requires name { blank.name ≡ L.name }
    requires parts { blank.parts ≡ L.parts }
    requires some { 0 < L.parts }
{
    let mut steps = Steps::<L>::of(blank);
    for i in 0..count {
        let tx = u64::from(i);
        let key = (i % 0x8000 * 2 + 1).to_be_bytes();
        let below = (i % 0x8000 * 2).to_be_bytes();
        assert!(rt; file.previous(&key, tx, &mut steps) == Some(key.as_slice()));
        assert!(rt;
            file.previous(&key, tx.wrapping_add(1), &mut steps)
                .is_none()
        );
        assert!(rt; file.previous(&below, tx, &mut steps).is_none());
    }
}

#[test]
fn each_key_is_found(rt: HostRuntime) -> Result<(), Fail> {
    let tag = v_tag(Entity::Code, 300, Range { from: 0, to: 1 });
    for count in [0, 1, 2, 17, 300] {
        let rows = odd_rows(rt.alloc(), count)?;
        let file = file_of(rt.alloc(), tag, &rows)?;
        finds_each::<Brand>(&rt, &file, count, Blank::new(1));
    }
    Ok(())
}

/// The file of two changes at number 4, of aa00 and then of aa: in the order of the bytes of their key words.
const SWAPPED: [u8; 75] = [
    0x41, 0x47, 0x57, 0x31, 0, 1, 0, 1, 0, 0, 0, 0, 0, 0, 0, 4, 0, 0, 0, 0, 0, 0, 0, 1, 0, 0, 0, 0,
    0, 0, 0, 2, 0, 0, 0, 0, 0, 0, 0, 4, 0, 0, 0, 10, 0xaa, 0, 0, 0, 0, 0, 0, 0, 0, 4, 0, 0, 0, 0,
    0, 0, 0, 9, 0xaa, 0, 0, 0, 0, 0, 0, 0, 4, 0, 0, 0, 0,
];

#[test]
fn key_words_stand_by_key_and_then_by_number(rt: HostRuntime) -> Result<(), Fail> {
    let rows = rows_of(rt.alloc(), &[(2, 4, 0), (1, 4, 0)])?;
    assert!(rt; !are_befores(second_step(), &rows));
    let refused = refusal(rt.alloc(), second_step(), &SWAPPED, &[])?;
    assert_eq!(rt; refused, bad(FileKind::V, 58));
    Ok(())
}
