use super::*;
use agg_outside::Bytes;
use std::test::*;

fn shared<T: Send + Sync>(_value: &T) {}

// Threads may share each of them.
fn all_shared(
    bits: &Bits,
    reserved: &ReservedBits,
    writer: &RiceWriter,
    view: &BitView<'_>,
    reader: &RiceReader<'_>,
) {
    shared(bits);
    shared(reserved);
    shared(writer);
    shared(view);
    shared(reader);
}

#[test]
fn bits_stand_least_significant_first(rt: HostRuntime) -> Result<(), Fail> {
    let mut bits = Bits::new(rt.alloc());
    bits.push(5, 4).ok().ok_or("memory")?;
    bits.push_zeros(5).ok().ok_or("memory")?;
    bits.push(0x1234_5678_9abc_def0, 64).ok().ok_or("memory")?;
    assert_eq!(rt; bits.len(), 73);
    bits.truncate(21);
    assert_eq!(rt; bits.finish().as_slice(), [0x05, 0xe0, 0x1d].as_slice());
    Ok(())
}

#[test]
fn bits_go_on_behind_a_text(rt: HostRuntime) -> Result<(), Fail> {
    let text = Bytes::of(rt.alloc(), &[0xa1]).ok().ok_or("memory")?;
    let mut bits = Bits::of(text);
    bits.push(3, 2).ok().ok_or("memory")?;
    assert_eq!(rt; bits.finish().as_slice(), [0xa1, 3].as_slice());
    Ok(())
}

#[test]
fn reserved_bits_stand_as_others(rt: HostRuntime) -> Result<(), Fail> {
    let mut bits = ReservedBits::with_room(rt.alloc(), 20)
        .ok()
        .ok_or("memory")?;
    bits.push(5, 4);
    assert!(rt; bits.len() == 4);
    bits.push_zeros(4);
    assert!(rt; bits.len() == 8);
    bits.push_text(&[0xa1]);
    assert!(rt; bits.len() == 16);
    let mut more = ReservedBits::with_room(rt.alloc(), 4).ok().ok_or("memory")?;
    more.push(0xb, 4);
    assert!(rt; more.len() == 4);
    bits.append(more);
    assert_eq!(rt; bits.finish().as_slice(), [0x05, 0xa1, 0x0b].as_slice());
    Ok(())
}

// A field of 64 bits that ends in the ninth byte, and the last one of the text.
const FIELDS: [u8; 10] = [0x10, 0x32, 0x54, 0x76, 0x98, 0xba, 0xdc, 0xfe, 0x0f, 0xa5];

#[test]
fn fields_are_read_at_any_bit(rt: HostRuntime) {
    let view = BitView::of(&FIELDS, 80);
    assert_eq!(rt; view.len(), 80);
    assert_eq!(rt; view.field(4, 64), 0xffed_cba9_8765_4321);
    assert_eq!(rt; view.field(72, 8), 0xa5);
    assert!(rt; view.get(4));
}

const ONES: [u8; 18] = [0x0a, 0, 0, 0, 0, 0, 0, 0, 0, 0, 0, 0, 0, 0, 0, 0, 0, 0x81];

#[test]
fn ones_are_counted(rt: HostRuntime) {
    let view = BitView::of(&ONES, 144).again();
    assert_eq!(rt; view.len(), 144);
    assert_eq!(rt; view.ones_before(137), 3);
    assert_eq!(rt; view.ones_between(3, 137), 2);
}

#[test]
fn ones_are_found(rt: HostRuntime) {
    let view = BitView::of(&ONES, 144);
    assert_eq!(rt; view.len(), 144);
    assert_eq!(rt; view.select_one(4), None);
    assert_eq!(rt; view.select_one_from(2, 1), Some(136));
    assert_eq!(rt; view.next_one(4), Some(136));
    assert_eq!(rt; view.last_one(136), Some(3));
}

const ZEROS: [u8; 10] = [0xff, 0xff, 0xff, 0xff, 0xff, 0xff, 0xff, 0xff, 0xfb, 0x0f];

#[test]
fn zeros_are_found(rt: HostRuntime) {
    let view = BitView::of(&ZEROS, 80);
    assert_eq!(rt; view.select_zero_from(0, 0), Some(66));
    assert_eq!(rt; view.front(70).select_zero_from(0, 1), None);
}

// 5 with parameter 2 is one 0, a 1, and 01 from its low end: the bits 0110, which weigh 6.
#[test]
fn codes_are_written(rt: HostRuntime) -> Result<(), Fail> {
    let mut writer = RiceWriter::new(rt.alloc());
    writer.push(5, 2).ok().ok_or("memory")?;
    writer.push(0, 0).ok().ok_or("memory")?;
    writer.push(9, 0).ok().ok_or("memory")?;
    assert_eq!(rt; writer.len(), 15);
    assert_eq!(rt; writer.finish().as_slice(), [0x16, 0x40].as_slice());
    Ok(())
}

// The same bits in two parts.
#[test]
fn codes_are_put_behind_others(rt: HostRuntime) -> Result<(), Fail> {
    let mut writer = RiceWriter::new(rt.alloc());
    writer.push(5, 2).ok().ok_or("memory")?;
    let mut others = RiceWriter::new(rt.alloc());
    others.push(0, 0).ok().ok_or("memory")?;
    others.push(9, 0).ok().ok_or("memory")?;
    writer.append(&others).ok().ok_or("memory")?;
    assert_eq!(rt; writer.len(), 15);
    assert_eq!(rt; writer.finish().as_slice(), [0x16, 0x40].as_slice());
    Ok(())
}

#[test]
fn codes_are_read(rt: HostRuntime) {
    let mut reader = RiceReader::of(BitView::of(&[0x16, 0x40], 15), 0);
    assert_eq!(rt; reader.next(2), Some(5));
    assert_eq!(rt; reader.next(0), Some(0));
    assert_eq!(rt; reader.next(0), Some(9));
    assert_eq!(rt; reader.next(0), None);
}
