ghost use Rattle.std.specs.Prelude.{◌≡◌, ◌<◌, ◌≤◌, ◌^◌, ◌++◌, length, All, IfOk, OnOk};
ghost use Rattle.std.specs.Bool.{OnTrue};
ghost use Rattle.std.specs.List.Sorted.{IsNonDecreasing};
ghost use Rattle.elias_fano.specs.Spelling.{IsSpelled};

use super::*;
use agg_outside::{Bytes, Memory};
use std::alloc::Global;
use std::process::Abort;
use std::test::*;

fn shared<T: Send + Sync>(_value: &T) {}

// Threads may share each of them.
fn all_shared(
    writer: &EfWriter,
    list: &EfList<'_>,
    marks: &Marks,
    iter: &EfIter<'_>,
    back: &EfBack<'_>,
) {
    shared(writer);
    shared(list);
    shared(marks);
    shared(iter);
    shared(back);
}

const ONE_ZERO: [u8; 17] = [0, 0, 0, 0, 0, 0, 0, 1, 0, 0, 0, 0, 0, 0, 0, 0, 1];

const FIVE_AND_NINE: [u8; 18] = [0, 0, 0, 0, 0, 0, 0, 2, 0, 0, 0, 0, 0, 0, 0, 9, 0x05, 0x0a];

const SEVEN_TWICE: [u8; 18] = [0, 0, 0, 0, 0, 0, 0, 2, 0, 0, 0, 0, 0, 0, 0, 7, 0x03, 0x18];

const LARGE: [u8; 25] = [
    0, 0, 0, 0, 0, 0, 0, 1, 0x40, 0, 0, 0, 0, 0, 0, 0, 0, 0, 0, 0, 0, 0, 0, 0, 2,
];

fn ascends(items: &[u64]) -> bool
    ensures { OnTrue result (IsNonDecreasing items.now) }
{
    let mut before = 0;
    for item in items {
        if *item < before {
            return false;
        }
        before = *item;
    }
    true
}

// The text of the numbers.
fn spelled(rt: &impl Abort, alloc: Global, items: &[u64]) -> Result<Bytes, Memory>
    ensures { IfOk result (λ text. IsSpelled text × (length text < 2 ^ 60)) }
{
    assert!(rt; !items.is_empty() && items.len() < 1000 && ascends(items));
    let text = encode(alloc, items)?;
    assert!(rt; text.as_slice().len() < 1000);
    Ok(text)
}

// The text is that of the items, both ways.
fn both_ways(rt: &impl Abort, alloc: Global, items: &[u64], text: &[u8]) -> Result<(), Memory> {
    let spelling = spelled(rt, alloc, items)?;
    assert_eq!(rt; spelling.as_slice(), text);
    let list = EfList::of(spelling.as_slice());
    assert_eq!(rt; list.len(), items.len() as u64);
    let mut at = 0usize;
    for item in list.iter_from(0) {
        assert_eq!(rt; items.get(at).copied(), Some(item));
        at = at.saturating_add(1);
    }
    Ok(())
}

#[test]
fn lists_are_spelled_and_read(rt: HostRuntime) -> Result<(), Fail> {
    both_ways(&rt, rt.alloc(), &[0], &ONE_ZERO)
        .ok()
        .ok_or("memory")?;
    both_ways(&rt, rt.alloc(), &[1 << 62], &LARGE)
        .ok()
        .ok_or("memory")?;
    both_ways(&rt, rt.alloc(), &[5, 9], &FIVE_AND_NINE)
        .ok()
        .ok_or("memory")?;
    both_ways(&rt, rt.alloc(), &[7, 7], &SEVEN_TWICE)
        .ok()
        .ok_or("memory")?;
    Ok(())
}

// 256 numbers without a gap: the upper part is 64 bytes 55, and no low bits.
#[test]
fn a_dense_list_is_found_in_with_marks_and_without(rt: HostRuntime) -> Result<(), Fail> {
    let mut items = Vec::new(rt.alloc());
    for item in 0..256u64 {
        items.push(item)?;
    }
    let text = spelled(&rt, rt.alloc(), items.as_slice())
        .ok()
        .ok_or("memory")?;
    assert_eq!(rt; text.as_slice().get(79).copied(), Some(0x55));
    let list = EfList::of(text.as_slice());
    let marks = list.marks();
    assert_eq!(rt; list.with(&marks).seek(200), Some((200, 200)));
    assert_eq!(rt; list.seek(200), Some((200, 200)));
    assert_eq!(rt; list.seek(256), None);
    Ok(())
}

#[test]
fn bytes_that_are_no_text_are_refused(rt: HostRuntime) {
    for end in 0..ONE_ZERO.len() {
        let refused = EfList::check(&ONE_ZERO[..end]).err();
        assert_eq!(rt; refused, Some(EfError::Short { at: end as u64 }));
    }
    let longer = [0, 0, 0, 0, 0, 0, 0, 1, 0, 0, 0, 0, 0, 0, 0, 0, 1, 0];
    assert_eq!(rt;
        EfList::check(&longer).err(),
        Some(EfError::Extra { at: 17 })
    );
    assert_eq!(rt; EfList::check(&[0; 16]).err(), Some(EfError::Zero));
}

const FEW_ONES: [u8; 18] = [0, 0, 0, 0, 0, 0, 0, 2, 0, 0, 0, 0, 0, 0, 0, 9, 0x05, 0x08];

const MANY_ONES: [u8; 18] = [0, 0, 0, 0, 0, 0, 0, 2, 0, 0, 0, 0, 0, 0, 0, 9, 0x05, 0x0b];

#[test]
fn wrong_items_are_refused(rt: HostRuntime) {
    let unused = [0, 0, 0, 0, 0, 0, 0, 1, 0, 0, 0, 0, 0, 0, 0, 0, 3];
    assert_eq!(rt;
        EfList::check(&unused).err(),
        Some(EfError::Unused { bit: 129 })
    );
    let few = EfList::check(&FEW_ONES).err();
    assert_eq!(rt; few, Some(EfError::Count { said: 2, found: 1 }));
    let many = EfList::check(&MANY_ONES).err();
    assert_eq!(rt; many, Some(EfError::Count { said: 2, found: 3 }));
}

#[test]
fn items_are_found(rt: HostRuntime) -> Result<(), Fail> {
    let list = EfList::check(&FIVE_AND_NINE).ok().ok_or("no list")?;
    assert_eq!(rt; list.len(), 2);
    assert_eq!(rt; list.get(1), 9);
    for (at, found) in [(5, Some((0, 5))), (6, Some((1, 9))), (10, None)] {
        assert_eq!(rt; list.seek(at), found);
    }
    assert_eq!(rt; list.iter_from(1).next(), Some(9));
    let mut back = list.iter_back(7);
    assert_eq!(rt; back.next(), Some(9));
    assert_eq!(rt; back.next(), Some(5));
    Ok(())
}

// Appends the list of these numbers, read from its text.
fn add_list(
    rt: &impl Abort,
    alloc: Global,
    writer: &mut EfWriter,
    items: &[u64],
) -> Result<(), Memory>
    requires ascends { IsNonDecreasing (writer.old.items ++ items.now) }
    requires fits { length (writer.old.items ++ items.now) ≤ writer.old.count }
    requires most { All (λ item. item ≤ writer.old.last) items.now }
    ensures { OnOk result (writer.new ≡ record writer.old { items = writer.old.items ++ items.now }) }
{
    assert!(rt; !items.is_empty() && items.len() < 1000 && ascends(items));
    let text = encode(alloc, items)?;
    assert!(rt; text.as_slice().len() < 1000);
    writer.add(&EfList::of(text.as_slice()));
    Ok(())
}

// The text of two numbers, written one by one.
fn written(rt: &impl Abort, alloc: Global, first: u64, second: u64) -> Result<Bytes, Memory>
    requires { first ≤ second }
{
    let mut writer = EfWriter::of(alloc, 2, second)?;
    add_list(rt, alloc, &mut writer, &[first])?;
    add_list(rt, alloc, &mut writer, &[second])?;
    Ok(writer.finish())
}

#[test]
fn two_lists_are_written_as_one(rt: HostRuntime) -> Result<(), Fail> {
    let text = written(&rt, rt.alloc(), 5, 9).ok().ok_or("memory")?;
    assert_eq!(rt; text.as_slice(), &FIVE_AND_NINE[..]);
    Ok(())
}
