ghost use Rattle.std.specs.Prelude.{◌<◌};

use super::*;
use agg_model::{Act, Batch, Change, Entity, FileKind, StepRows};
use agg_outside::{Bytes, Memory};
use std::alloc::Global;
use std::rt::Clock;
use std::sync::{Arc, Wait};
use std::test::Fail;
use std::thread::Threads;

const KINDS: [FileKind; 7] = [
    FileKind::Kv,
    FileKind::Bt,
    FileKind::Kvi,
    FileKind::V,
    FileKind::Vi,
    FileKind::Ef,
    FileKind::Efi,
];

const KV: [u8; 50] = [
    0x41, 0x47, 0x57, 0x31, 0, 0, 0, 1, 0, 0, 0, 0, 0, 0, 0, 1, 0, 0, 0, 0, 0, 0, 0, 0, 0, 0, 0, 0,
    0, 0, 0, 1, 0, 0, 0, 0, 0, 0, 0, 2, 0, 0, 0, 1, 0xaa, 0, 0, 0, 1, 1,
];

const BT: [u8; 24] = [
    0x41, 0x47, 0x42, 0x31, 0, 0, 0, 1, 0, 0, 0, 0, 0, 0, 0, 1, 0, 0, 0, 0, 0, 0, 0, 0x28,
];

const V: [u8; 57] = [
    0x41, 0x47, 0x57, 0x31, 0, 1, 0, 1, 0, 0, 0, 0, 0, 0, 0, 1, 0, 0, 0, 0, 0, 0, 0, 0, 0, 0, 0, 0,
    0, 0, 0, 1, 0, 0, 0, 0, 0, 0, 0, 2, 0, 0, 0, 9, 0xaa, 0, 0, 0, 0, 0, 0, 0, 0, 0, 0, 0, 0,
];

const EF: [u8; 66] = [
    0x41, 0x47, 0x57, 0x31, 0, 2, 0, 1, 0, 0, 0, 0, 0, 0, 0, 1, 0, 0, 0, 0, 0, 0, 0, 0, 0, 0, 0, 0,
    0, 0, 0, 1, 0, 0, 0, 0, 0, 0, 0, 2, 0, 0, 0, 1, 0xaa, 0, 0, 0, 0x11, 0, 0, 0, 0, 0, 0, 0, 1, 0,
    0, 0, 0, 0, 0, 0, 0, 1,
];

// The hash accessor of one key at offset 40, and that of no key.
const ONE_KEY: [u8; 56] = [
    0x41, 0x47, 0x48, 0x31, 1, 0, 0, 0, 0, 0, 0, 0, 0, 0, 0, 1, 0, 0, 0, 0, 0, 0, 0, 0, 0, 0, 0, 0,
    0, 0, 0, 0, 0, 0, 0, 0, 0, 0, 0, 1, 0, 0, 0, 0, 0, 0, 0, 0, 0, 0, 0, 0, 0, 0, 0, 0x28,
];

const NO_KEY: [u8; 32] = [
    0x41, 0x47, 0x48, 0x31, 1, 0, 0, 0, 0, 0, 0, 0, 0, 0, 0, 0, 0, 0, 0, 0, 0, 0, 0, 0, 0, 0, 0, 0,
    0, 0, 0, 0,
];

fn put(alloc: Global, tx: u64, key: u8, value: u8) -> Result<Change, Memory> {
    Ok(Change {
        tx,
        entity: Entity::Accounts,
        key: Bytes::of(alloc, &[key])?,
        act: Act::Put(Bytes::of(alloc, &[value])?),
    })
}

fn del(alloc: Global, tx: u64, key: u8) -> Result<Change, Memory> {
    Ok(Change {
        tx,
        entity: Entity::Accounts,
        key: Bytes::of(alloc, &[key])?,
        act: Act::Del,
    })
}

// Adds the groups of a step to those below it.
fn add_step<H: Threads + Wait + Clock + Sync>(
    rt: &H,
    alloc: Global,
    below: &mut Inputs,
    step: u64,
    size: u64,
    changes: Vec<Change>,
) -> Result<(), Fail>
    requires { step < 4096 }
{
    let rows = StepRows {
        step,
        changes: Batch::from_vec(changes),
    };
    let groups = collate(rt, alloc, &rows, below.as_slice(), size)?;
    for group in groups.into_vec() {
        below.push(Arc::new(alloc, group)?)?;
    }
    Ok(())
}

fn bytes_at(groups: &Inputs, place: usize, kind: FileKind) -> &[u8] {
    match groups.get(place) {
        Some(group) => group.bytes_of(kind).unwrap_or(&[]),
        None => &[],
    }
}

// Behind the header.
fn words_at(groups: &Inputs, place: usize, kind: FileKind) -> &[u8] {
    let bytes = bytes_at(groups, place, kind);
    &bytes[bytes.len().min(40)..]
}

fn one_change<H: Threads + Wait + Clock + Sync>(rt: &H, alloc: Global) -> Result<Inputs, Fail> {
    let mut groups = Inputs::new(alloc);
    let changes = vec![in alloc; put(alloc, 0, 0xaa, 1)?]?;
    add_step(rt, alloc, &mut groups, 0, 1, changes)?;
    Ok(groups)
}

#[test]
fn the_accounts_files_of_one_change_have_their_bytes(rt: HostRuntime) -> Result<(), Fail> {
    let groups = one_change(&rt, rt.alloc())?;
    assert!(rt; bytes_at(&groups, 0, FileKind::Kv) == KV.as_slice());
    assert!(rt; bytes_at(&groups, 0, FileKind::Bt) == BT.as_slice());
    assert!(rt; bytes_at(&groups, 0, FileKind::Kvi) == ONE_KEY.as_slice());
    assert!(rt; bytes_at(&groups, 0, FileKind::V) == V.as_slice());
    assert!(rt; bytes_at(&groups, 0, FileKind::Vi) == ONE_KEY.as_slice());
    assert!(rt; bytes_at(&groups, 0, FileKind::Ef) == EF.as_slice());
    assert!(rt; bytes_at(&groups, 0, FileKind::Efi) == ONE_KEY.as_slice());
    Ok(())
}

// Whether the bytes are the header of a word file over step 0 that has no word.
fn is_header(bytes: &[u8], entity: u8, kind: u8) -> bool {
    bytes
        == [
            0x41, 0x47, 0x57, 0x31, entity, kind, 0, 1, 0, 0, 0, 0, 0, 0, 0, 1, 0, 0, 0, 0, 0, 0,
            0, 0, 0, 0, 0, 0, 0, 0, 0, 1, 0, 0, 0, 0, 0, 0, 0, 0,
        ]
        .as_slice()
}

fn is_empty_file(bytes: &[u8], entity: u8, kind: FileKind) -> bool {
    match kind {
        FileKind::Kv => is_header(bytes, entity, 0),
        FileKind::V => is_header(bytes, entity, 1),
        FileKind::Ef => is_header(bytes, entity, 2),
        FileKind::Bt => bytes == b"AGB1\0\0\0\0\0\0\0\0\0\0\0\0".as_slice(),
        FileKind::Kvi | FileKind::Vi | FileKind::Efi => bytes == NO_KEY.as_slice(),
    }
}

// How many files the group has; none where one of them isn't empty.
fn empty_files(group: &EntityFiles) -> u64 {
    let entity = group.entity().number();
    let mut files = 0u64;
    for kind in KINDS {
        if let Some(bytes) = group.bytes_of(kind) {
            if !is_empty_file(bytes, entity, kind) {
                return 0;
            }
            files = files.saturating_add(1);
        }
    }
    files
}

#[test]
fn all_but_the_accounts_files_of_one_change_are_empty(rt: HostRuntime) -> Result<(), Fail> {
    let groups = one_change(&rt, rt.alloc())?;
    assert_eq!(rt; groups.len(), 7);
    let mut files = [0; 7];
    for place in 0..7 {
        let group = groups.get(place).ok_or("no group")?;
        assert_eq!(rt; group.entity().number() as usize, place);
        files[place] = empty_files(group);
    }
    assert_eq!(rt; files, [0, 7, 7, 2, 2, 2, 2]);
    Ok(())
}

#[test]
fn a_key_put_and_deleted_in_step_0_has_earlier_values_alone(rt: HostRuntime) -> Result<(), Fail> {
    let alloc = rt.alloc();
    let mut groups = Inputs::new(alloc);
    let changes = vec![in alloc; put(alloc, 0, 0xaa, 1)?, del(alloc, 1, 0xaa)?]?;
    add_step(&rt, alloc, &mut groups, 0, 2, changes)?;
    assert_eq!(rt; bytes_at(&groups, 0, FileKind::Kv).len(), 40);
    assert!(rt;
        words_at(&groups, 0, FileKind::V)
            == b"\0\0\0\x09\xaa\0\0\0\0\0\0\0\0\0\0\0\0\0\0\0\x09\xaa\0\0\0\0\0\0\0\x01\0\0\0\x01\x01".as_slice()
    );
    Ok(())
}

#[test]
fn a_step_goes_on_from_the_groups_below_it(rt: HostRuntime) -> Result<(), Fail> {
    let alloc = rt.alloc();
    let mut groups = one_change(&rt, rt.alloc())?;
    add_step(&rt, alloc, &mut groups, 1, 1, Vec::new(alloc))?;
    let changes = vec![in alloc; put(alloc, 2, 0xaa, 2)?]?;
    add_step(&rt, alloc, &mut groups, 2, 1, changes)?;
    let changes = vec![in alloc; del(alloc, 3, 0xaa)?]?;
    add_step(&rt, alloc, &mut groups, 3, 1, changes)?;
    assert!(rt;
        words_at(&groups, 14, FileKind::V)
            == b"\0\0\0\x09\xaa\0\0\0\0\0\0\0\x02\0\0\0\x01\x01".as_slice()
    );
    assert!(rt; words_at(&groups, 21, FileKind::Kv) == b"\0\0\0\x01\xaa\0\0\0\0".as_slice());
    assert!(rt;
        words_at(&groups, 21, FileKind::V)
            == b"\0\0\0\x09\xaa\0\0\0\0\0\0\0\x03\0\0\0\x01\x02".as_slice()
    );
    Ok(())
}

// A put of a domain, and a mark of an index.
fn change_of(alloc: Global, entity: Entity) -> Result<Change, Memory> {
    let mut change = put(alloc, 0, 0xaa, 1)?;
    change.entity = entity;
    if !entity.is_domain() {
        change.act = Act::Mark;
    }
    Ok(change)
}

fn changes_of_all(alloc: Global) -> Result<Vec<Change>, Memory> {
    let mut changes = Vec::new(alloc);
    for number in 0..7 {
        if let Some(entity) = Entity::of_number(number) {
            changes.push(change_of(alloc, entity)?)?;
        }
    }
    Ok(changes)
}

#[test]
fn all_entities_have_the_words_of_their_changes(rt: HostRuntime) -> Result<(), Fail> {
    let alloc = rt.alloc();
    let mut groups = Inputs::new(alloc);
    add_step(&rt, alloc, &mut groups, 0, 1, changes_of_all(alloc)?)?;
    assert_eq!(rt; groups.len(), 7);
    for place in 0..7 {
        assert!(rt; words_at(&groups, place, FileKind::Ef) == &EF[40..]);
        if place < 3 {
            assert!(rt; words_at(&groups, place, FileKind::Kv) == &KV[40..]);
            assert!(rt; words_at(&groups, place, FileKind::V) == &V[40..]);
        }
    }
    Ok(())
}
