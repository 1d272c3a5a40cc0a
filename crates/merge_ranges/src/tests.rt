use super::*;
use agg_model::{Entity, FileKind, Range};
use agg_outside::{Bytes, ListOf, Memory};
use std::alloc::Global;
use std::test::Fail;

fn cut_of(alloc: Global, ends: &[(u64, u64)]) -> Result<Cut, Memory> {
    let mut cut = ListOf::new(alloc);
    for (from, to) in ends {
        cut.push(Range {
            from: *from,
            to: *to,
        })?;
    }
    Ok(cut)
}

#[test]
fn the_largest_range_comes_first(rt: HostRuntime) -> Result<(), Fail> {
    let alloc = rt.alloc();
    assert_eq!(rt; canon_cut(alloc, 0)?.len(), 0);
    let three = canon_cut(alloc, 3)?;
    assert!(rt;
        three.as_slice() == [Range { from: 0, to: 2 }, Range { from: 2, to: 3 }].as_slice()
    );
    let nine = canon_cut(alloc, 9)?;
    assert!(rt; nine.as_slice() == [Range { from: 0, to: 8 }, Range { from: 8, to: 9 }].as_slice());
    let full = canon_cut(alloc, 64)?;
    assert!(rt; full.as_slice() == [Range { from: 0, to: 64 }].as_slice());
    let more = canon_cut(alloc, 130)?;
    let expected = cut_of(alloc, &[(0, 64), (64, 128), (128, 130)])?;
    assert!(rt; more.as_slice() == expected.as_slice());
    assert_eq!(rt; canon_cut(alloc, 4096)?.len(), 64);
    assert!(rt; !is_aligned_range(Range { from: 1, to: 3 }));
    Ok(())
}

#[test]
#[tactic(auto, unfolding(crate::specs::Cut::is_aligned))]
fn small_ranges_are_merged_next(rt: HostRuntime) -> Result<(), Fail> {
    let alloc = rt.alloc();
    let none = ListOf::new(alloc);
    let mut busy = ListOf::new(alloc);
    busy.push(Range { from: 0, to: 1 })?;
    let mut cut = ListOf::new(alloc);
    cut.push(Range { from: 0, to: 1 })?;
    cut.push(Range { from: 1, to: 2 })?;
    cut.push(Range { from: 2, to: 3 })?;
    assert!(rt; next_merge(&cut, &none) == Some(Range { from: 0, to: 2 }));
    assert!(rt; next_merge(&cut, &busy) == None);
    Ok(())
}

const KINDS: [FileKind; 7] = [
    FileKind::Kv,
    FileKind::Bt,
    FileKind::Kvi,
    FileKind::V,
    FileKind::Vi,
    FileKind::Ef,
    FileKind::Efi,
];

// The lines `file NAME` of step 0, and how many there are.
fn lines(alloc: Global) -> Result<(Vec<u8>, usize), Memory> {
    let mut text = Vec::new(alloc);
    let mut count: usize = 0;
    for number in 0..7 {
        for kind in KINDS {
            let range = Range { from: 0, to: 1 };
            if let Some(entity) = Entity::of_number(number) {
                let name = FileName {
                    entity,
                    range,
                    kind,
                };
                let spelled = name.print(alloc)?;
                if FileName::read(spelled.as_slice()) == Some(name) {
                    text.extend_from_slice(b"file ")?;
                    text.extend_from_slice(spelled.as_slice())?;
                    text.extend_from_slice(b"\n")?;
                    count = count.saturating_add(1);
                }
            }
        }
    }
    Ok((text, count))
}

#[test]
fn one_step_has_29_names(rt: HostRuntime) -> Result<(), Fail> {
    let (text, count) = lines(rt.alloc())?;
    assert_eq!(rt; count, 29);
    assert_eq!(rt; text.len(), 674);
    assert!(rt; text.starts_with(b"file v1-accounts.0-1.kv\nfile v1-accounts.0-1.bt\n"));
    assert!(rt; text.ends_with(b"file v1-tracesto.0-1.ef\nfile v1-tracesto.0-1.efi\n"));
    Ok(())
}

#[test]
fn a_name_one_letter_off_is_none(rt: HostRuntime) -> Result<(), Fail> {
    let alloc = rt.alloc();
    let name = DiskName {
        name: FileName {
            entity: Entity::Code,
            range: Range { from: 64, to: 128 },
            kind: FileKind::Kvi,
        },
        temp: true,
    };
    let spelled: Bytes = name.print(alloc)?;
    assert!(rt; spelled.as_slice() == b"v1-code.64-128.kvi.tmp".as_slice());
    assert!(rt; DiskName::read(spelled.as_slice()) == Some(name));
    let others: [&[u8]; 12] = [
        b"v2-code.64-128.kvi",
        b"v1_code.64-128.kvi",
        b"v1-codes.64-128.kvi",
        b"v1-code.064-128.kvi",
        b"v1-code.64-129.kvi",
        b"v1-code.65-129.kvi",
        b"v1-code.0-128.kvi",
        b"v1-code.4096-4160.kvi",
        b"v1-code.64-128.kvx",
        b"v1-logaddrs.64-128.kvi",
        b"v1-code.64-128.kvi.tmp.tmp",
        b"v1-code.+64-128.kvi",
    ];
    for text in others {
        assert!(rt; DiskName::read(text) == None);
    }
    Ok(())
}
