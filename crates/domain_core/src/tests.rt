ghost use Rattle.std.specs.Prelude.{◌≡◌, ◌<◌};

use super::*;
use agg_model::{Act, Change, Entity, FileKind, Range};
use agg_outside::{Bytes, Memory, Steps};
use std::alloc::Global;
use std::marker::Brand;
use std::process::Abort;
use std::sync::ledger::{Blank, Ledger};
use std::test::Fail;
use word_file::Tag;

/// The accounts files of one change: key aa has value 01.
const KV: [u8; 50] = [
    0x41, 0x47, 0x57, 0x31, 0, 0, 0, 1, 0, 0, 0, 0, 0, 0, 0, 1, 0, 0, 0, 0, 0, 0, 0, 0, 0, 0, 0, 0,
    0, 0, 0, 1, 0, 0, 0, 0, 0, 0, 0, 2, 0, 0, 0, 1, 0xaa, 0, 0, 0, 1, 1,
];

const BT: [u8; 24] = [
    0x41, 0x47, 0x42, 0x31, 0, 0, 0, 1, 0, 0, 0, 0, 0, 0, 0, 1, 0, 0, 0, 0, 0, 0, 0, 0x28,
];

const KVI: [u8; 56] = [
    0x41, 0x47, 0x48, 0x31, 1, 0, 0, 0, 0, 0, 0, 0, 0, 0, 0, 1, 0, 0, 0, 0, 0, 0, 0, 0, 0, 0, 0, 0,
    0, 0, 0, 0, 0, 0, 0, 0, 0, 0, 0, 1, 0, 0, 0, 0, 0, 0, 0, 0, 0, 0, 0, 0, 0, 0, 0, 0x28,
];

/// The files of code without a key.
const EMPTY_KV: [u8; 40] = [
    0x41, 0x47, 0x57, 0x31, 2, 0, 0, 1, 0, 0, 0, 0, 0, 0, 0, 1, 0, 0, 0, 0, 0, 0, 0, 0, 0, 0, 0, 0,
    0, 0, 0, 1, 0, 0, 0, 0, 0, 0, 0, 0,
];

const EMPTY_BT: [u8; 16] = [0x41, 0x47, 0x42, 0x31, 0, 0, 0, 0, 0, 0, 0, 0, 0, 0, 0, 0];

const EMPTY_KVI: [u8; 32] = [
    0x41, 0x47, 0x48, 0x31, 1, 0, 0, 0, 0, 0, 0, 0, 0, 0, 0, 0, 0, 0, 0, 0, 0, 0, 0, 0, 0, 0, 0, 0,
    0, 0, 0, 0,
];

/// A change of the accounts: a put of this value, or a deletion where it is 0.
fn change(alloc: Global, tx: u64, key: u8, value: u8) -> Result<Change, Memory> {
    let act = match value {
        0 => Act::Del,
        _ => Act::Put(Bytes::of(alloc, &[value])?),
    };
    Ok(Change {
        tx,
        entity: Entity::Accounts,
        key: Bytes::of(alloc, &[key])?,
        act,
    })
}

/// The file of a step of four numbers, of changes each of which is a number, a key and a value.
fn step_file(alloc: Global, step: u64, rows: &[(u64, u8, u8)]) -> Result<KvFile, Memory>
    requires { step < 4096 }
{
    let mut changes = Vec::new(alloc);
    for (tx, key, value) in rows {
        changes.push(change(alloc, *tx, *key, *value)?)?;
    }
    build_step(alloc, Entity::Accounts, 4, step, changes.as_slice())
}

/// aa put twice, bb put and deleted, cc put.
const SECOND: [(u64, u8, u8); 5] = [
    (4, 0xaa, 1),
    (6, 0xaa, 2),
    (5, 0xbb, 3),
    (7, 0xbb, 0),
    (4, 0xcc, 4),
];

const FIRST: [(u64, u8, u8); 3] = [(0, 0xaa, 9), (1, 0xbb, 9), (2, 0xee, 5)];

#[test]
fn the_files_of_one_change_have_their_bytes(rt: HostRuntime) -> Result<(), Fail> {
    let one = change(rt.alloc(), 0, 0xaa, 1)?;
    let file = build_step(rt.alloc(), Entity::Accounts, 1, 0, &[one])?;
    assert!(rt; file.bytes() == KV.as_slice());
    assert!(rt; file.bt_bytes() == BT.as_slice());
    assert!(rt; file.kvi_bytes() == KVI.as_slice());
    Ok(())
}

#[test]
fn the_files_of_no_change_have_their_bytes(rt: HostRuntime) -> Result<(), Fail> {
    let file = build_step(rt.alloc(), Entity::Code, 1, 0, &[])?;
    assert!(rt; file.bytes() == EMPTY_KV.as_slice());
    assert!(rt; file.bt_bytes() == EMPTY_BT.as_slice());
    assert!(rt; file.kvi_bytes() == EMPTY_KVI.as_slice());
    Ok(())
}

fn looks<L: Ledger>(rt: &impl Abort, file: &KvFile, blank: Blank)
    requires name { blank.name ≡ L.name }
    requires parts { blank.parts ≡ L.parts }
    requires some { 0 < L.parts }
{
    let mut steps = Steps::<L>::of(blank);
    assert!(rt; file.get(&[0xaa], &mut steps) == Some([2].as_slice()));
    assert!(rt; file.get(&[0xbb], &mut steps) == Some([].as_slice()));
    assert!(rt; file.get(&[0xab], &mut steps).is_none());
    assert_eq!(rt; file.seek(&[0xaa, 0], &mut steps), 1);
    assert_eq!(rt; file.seek(&[0xdd], &mut steps), 3);
    assert_eq!(rt; file.len(), 3);
    let (key, value) = file.pair_at(2, &mut steps);
    assert!(rt; key == [0xcc].as_slice());
    assert!(rt; value == [4].as_slice());
}

#[test]
fn a_later_step_keeps_a_deleted_key(rt: HostRuntime) -> Result<(), Fail> {
    let file = step_file(rt.alloc(), 1, &SECOND)?;
    looks::<Brand>(&rt, &file, Blank::new(1));
    Ok(())
}

#[test]
fn the_first_step_leaves_a_deleted_key_out(rt: HostRuntime) -> Result<(), Fail> {
    let file = step_file(rt.alloc(), 0, &SECOND)?;
    assert_eq!(rt; file.len(), 2);
    Ok(())
}

/// The first byte of what the last of the files that has this key says of it; 0 where it has none.
fn newest<L: Ledger>(files: &[KvFile], key: u8, blank: Blank) -> u8
    requires name { blank.name ≡ L.name }
    requires parts { blank.parts ≡ L.parts }
    requires some { 0 < L.parts }
{
    let mut steps = Steps::<L>::of(blank);
    match newest_value(files, &[key], &mut steps) {
        Some([first, ..]) => *first,
        Some([]) => 0xff,
        None => 0,
    }
}

#[test]
fn the_newest_file_with_the_key_decides(rt: HostRuntime) -> Result<(), Fail> {
    let first = step_file(rt.alloc(), 0, &FIRST)?;
    let second = step_file(rt.alloc(), 1, &SECOND)?;
    let files = [first, second];
    for (key, value) in [(0xaa, 2), (0xbb, 0), (0xee, 5), (0xff, 0)] {
        assert_eq!(rt; newest::<Brand>(&files, key, Blank::new(1)), value);
    }
    Ok(())
}

/// So many keys of two bytes, 00 01, 00 03 and so on, each its own value.
fn odd_pairs(alloc: Global, count: u16) -> Result<Pairs, Memory> {
    let mut pairs = Pairs::new(alloc);
    for i in 0..count {
        let key = (i % 0x8000 * 2 + 1).to_be_bytes();
        pairs.push(Pair {
            key: Bytes::of(alloc, &key)?,
            value: Bytes::of(alloc, &key)?,
        })?;
    }
    Ok(pairs)
}

/// The tag of an entity over the first step.
fn tag_of(entity: Entity) -> Tag {
    kv_tag(entity, 1, Range { from: 0, to: 1 })
}

/// The file of pairs that may be those of one.
fn file_of(alloc: Global, pairs: &Pairs) -> Result<KvFile, Fail> {
    if !are_pairs(pairs) {
        return Err(Fail::from("they may be those of a file"));
    }
    Ok(build_kv(alloc, tag_of(Entity::Storage), pairs)?)
}

fn finds_each<L: Ledger>(rt: &impl Abort, file: &KvFile, count: u16, blank: Blank)
    requires name { blank.name ≡ L.name }
    requires parts { blank.parts ≡ L.parts }
    requires some { 0 < L.parts }
{
    let mut steps = Steps::<L>::of(blank);
    for i in 0..count {
        let key = (i % 0x8000 * 2 + 1).to_be_bytes();
        let below = (i % 0x8000 * 2).to_be_bytes();
        assert!(rt; file.get(&key, &mut steps) == Some(key.as_slice()));
        assert!(rt; file.get(&below, &mut steps).is_none());
        assert_eq!(rt; file.seek(&below, &mut steps), u64::from(i));
    }
}

#[test]
fn each_key_is_found(rt: HostRuntime) -> Result<(), Fail> {
    for count in [0, 1, 2, 17, 300] {
        let pairs = odd_pairs(rt.alloc(), count)?;
        let file = file_of(rt.alloc(), &pairs)?;
        assert_eq!(rt; file.len(), u64::from(count));
        assert_eq!(rt; file.form(), 1);
        finds_each::<Brand>(&rt, &file, count, Blank::new(1));
    }
    Ok(())
}

/// How these three files of an entity over the first step are refused, if they are.
fn refusal(
    alloc: Global,
    entity: Entity,
    kv: &[u8],
    bt: &[u8],
    kvi: &[u8],
) -> Result<Option<FileError>, Memory> {
    let kv = Bytes::of(alloc, kv)?;
    let bt = Bytes::of(alloc, bt)?;
    let kvi = Bytes::of(alloc, kvi)?;
    Ok(KvFile::check(alloc, tag_of(entity), kv, bt, kvi).err())
}

fn bad(kind: FileKind, at: u64) -> Option<FileError> {
    Some(FileError::Bad { kind, at })
}

/// Where the words are refused that stand behind a header for so many; at 0 of the B-tree, which isn't there, where
/// they aren't.
fn words_refusal(alloc: Global, count: u8, words: &[u8]) -> Result<Option<FileError>, Memory> {
    let mut kv = Vec::from_slice(alloc, b"AGW1\x01\0\0\x01\0\0\0\0\0\0\0\x01")?;
    kv.extend_from_slice(b"\0\0\0\0\0\0\0\0\0\0\0\0\0\0\0\x01\0\0\0\0\0\0\0")?;
    kv.push(count)?;
    kv.extend_from_slice(words)?;
    refusal(alloc, Entity::Storage, kv.as_slice(), &[], &[])
}

/// How a key 01 and then a key of so many bytes 07 are refused, both without a value.
fn long_refusal(alloc: Global, length: u8) -> Result<Option<FileError>, Memory> {
    let mut words = Vec::from_slice(alloc, b"\0\0\0\x01\x01\0\0\0\0\0\0\0")?;
    words.push(length)?;
    for _ in 0..length {
        words.push(7)?;
    }
    words.extend_from_slice(b"\0\0\0\0")?;
    words_refusal(alloc, 4, words.as_slice())
}

#[test]
fn a_key_has_its_limits(rt: HostRuntime) -> Result<(), Fail> {
    assert_eq!(rt; long_refusal(rt.alloc(), 64)?, bad(FileKind::Bt, 0));
    assert_eq!(rt; long_refusal(rt.alloc(), 65)?, bad(FileKind::Kv, 49));
    assert_eq!(rt; long_refusal(rt.alloc(), 0)?, bad(FileKind::Kv, 49));
    Ok(())
}

#[test]
fn keys_ascend_and_have_values(rt: HostRuntime) -> Result<(), Fail> {
    let prefix = b"\0\0\0\x01\x01\0\0\0\0\0\0\0\x02\x01\0\0\0\0\0";
    let swapped = b"\0\0\0\x02\x01\0\0\0\0\0\0\0\0\x01\x01\0\0\0\0";
    let lone = b"\0\0\0\x01\x02\0\0\0\0\0\0\0\x01\x03";
    assert_eq!(rt; words_refusal(rt.alloc(), 4, prefix)?, bad(FileKind::Bt, 0));
    assert_eq!(rt;
        words_refusal(rt.alloc(), 4, swapped)?,
        bad(FileKind::Kv, 50)
    );
    assert_eq!(rt; words_refusal(rt.alloc(), 3, lone)?, bad(FileKind::Kv, 54));
    Ok(())
}

/// How a key 01 with a value of so many bytes is refused.
fn value_refusal(alloc: Global, length: u32) -> Result<Option<FileError>, Memory> {
    let mut words = Vec::from_slice(alloc, b"\0\0\0\x01\x01")?;
    words.extend_from_slice(&length.to_be_bytes())?;
    words.resize(length.saturating_add(9) as usize, 0)?;
    words_refusal(alloc, 2, words.as_slice())
}

#[test]
fn a_value_has_its_limit(rt: HostRuntime) -> Result<(), Fail> {
    assert_eq!(rt; value_refusal(rt.alloc(), 65_535)?, bad(FileKind::Bt, 0));
    assert_eq!(rt; value_refusal(rt.alloc(), 65_536)?, bad(FileKind::Kv, 45));
    Ok(())
}

/// Whether each front of the words of one change is refused where it ends, or at the word that it cuts, or for the
/// number of its words.
fn fronts_are_refused(alloc: Global) -> Result<bool, Memory> {
    for end in 0..50 {
        let at = match end {
            0..=39 => end,
            40 | 45 => 32,
            41..=44 => 40,
            _ => 45,
        };
        let refused = refusal(alloc, Entity::Accounts, &KV[..end], &BT, &KVI)?;
        if refused != bad(FileKind::Kv, at as u64) {
            return Ok(false);
        }
    }
    Ok(true)
}

/// Whether the B-tree is refused where it ends too early, and where a bit is turned.
fn trees_are_refused(alloc: Global) -> Result<bool, Memory> {
    for at in 0..24 {
        let mut turned = BT;
        turned[at] ^= 1;
        let cut = refusal(alloc, Entity::Accounts, &KV, &BT[..at], &KVI)?;
        let other = refusal(alloc, Entity::Accounts, &KV, &turned, &KVI)?;
        if cut != bad(FileKind::Bt, at as u64) || other != bad(FileKind::Bt, at as u64) {
            return Ok(false);
        }
    }
    Ok(true)
}

/// Whether the hash accessor is refused where it ends too early, and where a bit is turned.
fn accessors_are_refused(alloc: Global) -> Result<bool, Memory> {
    for at in 0..56 {
        let mut turned = KVI;
        turned[at] ^= 1;
        let cut = refusal(alloc, Entity::Accounts, &KV, &BT, &KVI[..at])?;
        let other = refusal(alloc, Entity::Accounts, &KV, &BT, &turned)?;
        if cut != bad(FileKind::Kvi, at as u64) || other != bad(FileKind::Kvi, at as u64) {
            return Ok(false);
        }
    }
    Ok(true)
}

#[test]
fn files_cut_or_turned_anywhere_are_refused(rt: HostRuntime) -> Result<(), Fail> {
    assert!(rt; fronts_are_refused(rt.alloc())?);
    assert!(rt; trees_are_refused(rt.alloc())?);
    assert!(rt; accessors_are_refused(rt.alloc())?);
    Ok(())
}

#[test]
fn files_are_those_of_their_name_alone(rt: HostRuntime) -> Result<(), Fail> {
    let named = refusal(rt.alloc(), Entity::Accounts, &KV, &BT, &KVI)?;
    let other = refusal(rt.alloc(), Entity::Storage, &KV, &BT, &KVI)?;
    assert_eq!(rt; named, None);
    assert_eq!(rt; other, bad(FileKind::Kv, 4));
    Ok(())
}
