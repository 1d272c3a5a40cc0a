ghost use Rattle.std.specs.Prelude.{◌≡◌, ◌<◌};

use super::*;
use agg_model::{Entity, FileKind, Range};
use agg_outside::{Bytes, Numbers, Steps};
use std::alloc::Global;
use std::marker::Brand;
use std::process::Abort;
use std::sync::ledger::{Blank, Ledger};
use std::test::Fail;
use word_file::Tag;

const EF: [u8; 66] = [
    0x41, 0x47, 0x57, 0x31, 0, 2, 0, 1, 0, 0, 0, 0, 0, 0, 0, 1, 0, 0, 0, 0, 0, 0, 0, 0, 0, 0, 0, 0,
    0, 0, 0, 1, 0, 0, 0, 0, 0, 0, 0, 2, 0, 0, 0, 1, 0xaa, 0, 0, 0, 0x11, 0, 0, 0, 0, 0, 0, 0, 1, 0,
    0, 0, 0, 0, 0, 0, 0, 1,
];

const EFI: [u8; 56] = [
    0x41, 0x47, 0x48, 0x31, 1, 0, 0, 0, 0, 0, 0, 0, 0, 0, 0, 1, 0, 0, 0, 0, 0, 0, 0, 0, 0, 0, 0, 0,
    0, 0, 0, 0, 0, 0, 0, 0, 0, 0, 0, 1, 0, 0, 0, 0, 0, 0, 0, 0, 0, 0, 0, 0, 0, 0, 0, 0x28,
];

// The key and the text of its numbers change places.
const SWAPPED: [u8; 66] = [
    0x41, 0x47, 0x57, 0x31, 0, 2, 0, 1, 0, 0, 0, 0, 0, 0, 0, 1, 0, 0, 0, 0, 0, 0, 0, 0, 0, 0, 0, 0,
    0, 0, 0, 1, 0, 0, 0, 0, 0, 0, 0, 2, 0, 0, 0, 0x11, 0, 0, 0, 0, 0, 0, 0, 1, 0, 0, 0, 0, 0, 0, 0,
    0, 1, 0, 0, 0, 1, 0xaa,
];

fn tag_of(entity: Entity, size: u64) -> Tag {
    ef_tag(entity, size, Range { from: 0, to: 1 })
}

fn put(alloc: Global, lists: &mut Lists, key: &[u8], items: &[u64]) -> Result<(), Fail> {
    let key = Bytes::of(alloc, key)?;
    let items = Numbers::from_vec(Vec::from_slice(alloc, items)?);
    lists.push(Times { key, items })?;
    Ok(())
}

fn built(alloc: Global, tag: Tag, lists: &Lists) -> Result<EfFile, Fail> {
    if !are_lists(tag, lists) {
        return Err(Fail::from("they may be those of a file"));
    }
    Ok(build_ef(alloc, tag, lists)?)
}

#[test]
fn a_file_of_one_change_has_its_bytes(rt: HostRuntime) -> Result<(), Fail> {
    let alloc = rt.alloc();
    let mut lists = Lists::new(alloc);
    put(alloc, &mut lists, &[0xaa], &[0])?;
    let file = built(alloc, tag_of(Entity::Accounts, 1), &lists)?;
    assert!(rt; file.bytes() == EF.as_slice());
    assert!(rt; file.efi_bytes() == EFI.as_slice());
    assert_eq!(rt; file.tag().kind, 2);
    assert_eq!(rt; file.words().count(), 2);
    Ok(())
}

#[test]
fn a_file_of_no_change_is_its_header(rt: HostRuntime) -> Result<(), Fail> {
    let alloc = rt.alloc();
    let file = built(alloc, tag_of(Entity::TracesTo, 4), &Lists::new(alloc))?;
    assert!(rt;
        file.bytes()
            == [
                0x41, 0x47, 0x57, 0x31, 6, 2, 0, 1, 0, 0, 0, 0, 0, 0, 0, 4, 0, 0, 0, 0, 0, 0, 0, 0,
                0, 0, 0, 0, 0, 0, 0, 1, 0, 0, 0, 0, 0, 0, 0, 0,
            ]
            .as_slice()
    );
    assert!(rt;
        file.efi_bytes()
            == [
                0x41, 0x47, 0x48, 0x31, 1, 0, 0, 0, 0, 0, 0, 0, 0, 0, 0, 0, 0, 0, 0, 0, 0, 0, 0, 0,
                0, 0, 0, 0, 0, 0, 0, 0,
            ]
            .as_slice()
    );
    Ok(())
}

fn looks<L: Ledger>(rt: &impl Abort, file: &EfFile, blank: Blank)
    requires name { blank.name ≡ L.name }
    requires parts { blank.parts ≡ L.parts }
    requires some { 0 < L.parts }
{
    let mut steps = Steps::<L>::of(blank);
    for (n, found) in [(0, Some(0)), (1, Some(3)), (3, Some(3)), (2998, None)] {
        assert_eq!(rt; file.first_from(&[0xaa], n, &mut steps), found);
    }
    assert_eq!(rt; file.first_from(&[0xaa, 0], 0, &mut steps), Some(7));
    assert_eq!(rt; file.first_from(&[0xbb; 64], 6, &mut steps), Some(9));
    assert_eq!(rt; file.first_from(&[0xbb], 0, &mut steps), None);
    let thousand = file.list(&[0xaa], &mut steps);
    assert_eq!(rt; thousand.map(|list| list.len()), Some(1000));
}

fn walks<L: Ledger>(rt: &impl Abort, file: &EfFile, blank: Blank)
    requires name { blank.name ≡ L.name }
    requires parts { blank.parts ≡ L.parts }
    requires some { 0 < L.parts }
{
    let mut steps = Steps::<L>::of(blank);
    assert_eq!(rt; file.offset_of(&[0xaa], &mut steps), Some(40));
    assert_eq!(rt; file.offset_of(&[0xab], &mut steps), None);
    if let Some(at) = file.offset_of(&[0xaa, 0], &mut steps) {
        let (key, list) = file.pair_at(at);
        assert!(rt; key == [0xaa, 0].as_slice());
        assert_eq!(rt; list.seek(0), Some((0, 7)));
    }
}

#[test]
fn numbers_of_keys_are_found(rt: HostRuntime) -> Result<(), Fail> {
    let alloc = rt.alloc();
    let mut lists = Lists::new(alloc);
    let mut thousand = Vec::new(alloc);
    for i in 0..1000u64 {
        thousand.push(i % 1000 * 3)?;
    }
    put(alloc, &mut lists, &[0xaa], thousand.as_slice())?;
    put(alloc, &mut lists, &[0xaa, 0], &[7])?;
    put(alloc, &mut lists, &[0xbb; 64], &[5, 9])?;
    let file = built(alloc, tag_of(Entity::Storage, 3000), &lists)?;
    looks::<Brand>(&rt, &file, Blank::new(1));
    walks::<Brand>(&rt, &file, Blank::new(1));
    Ok(())
}

#[test]
fn lists_out_of_order_or_step_are_refused(rt: HostRuntime) -> Result<(), Fail> {
    let alloc = rt.alloc();
    let tag = tag_of(Entity::Code, 10);
    for items in [[3, 3], [4, 3], [3, 10]] {
        let mut lists = Lists::new(alloc);
        put(alloc, &mut lists, &[1], &items)?;
        assert!(rt; !are_lists(tag, &lists));
    }
    Ok(())
}

fn refusal(alloc: Global, size: u64, ef: &[u8], efi: &[u8]) -> Result<Option<FileError>, Fail> {
    let tag = tag_of(Entity::Accounts, size);
    let file = EfFile::check(alloc, tag, Bytes::of(alloc, ef)?, Bytes::of(alloc, efi)?);
    Ok(file.err())
}

fn bad(kind: FileKind, at: u64) -> Option<FileError> {
    Some(FileError::Bad { kind, at })
}

#[test]
fn only_the_files_of_lists_are_accepted(rt: HostRuntime) -> Result<(), Fail> {
    let alloc = rt.alloc();
    assert!(rt; refusal(alloc, 1, &EF, &EFI)?.is_none());
    assert_eq!(rt; refusal(alloc, 2, &EF, &EFI)?, bad(FileKind::Ef, 8));
    assert_eq!(rt; refusal(alloc, 1, &EF[..60], &EFI)?, bad(FileKind::Ef, 45));
    assert_eq!(rt; refusal(alloc, 1, &SWAPPED, &EFI)?, bad(FileKind::Ef, 61));
    assert_eq!(rt; refusal(alloc, 1, &EF, &EFI[..50])?, bad(FileKind::Efi, 50));
    Ok(())
}

#[test]
fn a_turned_bit_is_refused(rt: HostRuntime) -> Result<(), Fail> {
    let alloc = rt.alloc();
    let mut ef = EF;
    ef[65] = 3;
    assert_eq!(rt; refusal(alloc, 1, &ef, &EFI)?, bad(FileKind::Ef, 45));
    let mut efi = EFI;
    efi[55] = 0x29;
    assert_eq!(rt; refusal(alloc, 1, &EF, &efi)?, bad(FileKind::Efi, 55));
    Ok(())
}

/// Whether each front of the words is refused where it ends, or at the word that it cuts, or for the number of its words.
fn fronts_are_refused(alloc: Global) -> Result<bool, Fail> {
    for end in 0..66 {
        let at = match end {
            0..=39 => end,
            40 | 45 => 32,
            41..=44 => 40,
            _ => 45,
        };
        if refusal(alloc, 1, &EF[..end], &EFI)? != bad(FileKind::Ef, at as u64) {
            return Ok(false);
        }
    }
    Ok(true)
}

/// Whether the accessor is refused where it ends too early, and where a bit is turned.
fn accessors_are_refused(alloc: Global) -> Result<bool, Fail> {
    for at in 0..56 {
        let mut turned = EFI;
        turned[at] ^= 1;
        let cut = refusal(alloc, 1, &EF, &EFI[..at])?;
        let other = refusal(alloc, 1, &EF, &turned)?;
        if cut != bad(FileKind::Efi, at as u64) || other != bad(FileKind::Efi, at as u64) {
            return Ok(false);
        }
    }
    Ok(true)
}

#[test]
fn files_cut_or_turned_anywhere_are_refused(rt: HostRuntime) -> Result<(), Fail> {
    assert!(rt; fronts_are_refused(rt.alloc())?);
    assert!(rt; accessors_are_refused(rt.alloc())?);
    Ok(())
}

/// So many keys of two bytes, 00 01, 00 03 and so on, each with one number.
fn odd_lists(alloc: Global, count: u16) -> Result<Lists, Fail> {
    let mut lists = Lists::new(alloc);
    for i in 0..count {
        let key = (i % 0x8000 * 2 + 1).to_be_bytes();
        put(alloc, &mut lists, &key, &[u64::from(i)])?;
    }
    Ok(lists)
}

fn finds_each<L: Ledger>(rt: &impl Abort, file: &EfFile, count: u16, blank: Blank)
    requires name { blank.name ≡ L.name }
    requires parts { blank.parts ≡ L.parts }
    requires some { 0 < L.parts }
{
    let mut steps = Steps::<L>::of(blank);
    for i in 0..count {
        let key = (i % 0x8000 * 2 + 1).to_be_bytes();
        let below = (i % 0x8000 * 2).to_be_bytes();
        assert!(rt; file.first_from(&key, 0, &mut steps) == Some(u64::from(i)));
        assert!(rt; file.first_from(&below, 0, &mut steps).is_none());
    }
}

#[test]
fn each_key_is_found(rt: HostRuntime) -> Result<(), Fail> {
    for count in [0, 1, 2, 17, 300] {
        let lists = odd_lists(rt.alloc(), count)?;
        let file = built(rt.alloc(), tag_of(Entity::Code, 300), &lists)?;
        finds_each::<Brand>(&rt, &file, count, Blank::new(1));
    }
    Ok(())
}
