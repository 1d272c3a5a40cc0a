use super::*;
use std::test::Fail;

#[test]
fn numbers_stand_highest_byte_first(rt: HostRuntime) -> Result<(), Fail> {
    let mut out = Vec::new(rt.alloc());
    put_u16(&mut out, 0x0102).ok().ok_or("memory")?;
    put_u32(&mut out, 0x0304_0506).ok().ok_or("memory")?;
    put_u64(&mut out, 0x0708_090a_0b0c_0d0e)
        .ok()
        .ok_or("memory")?;
    let expected = [1, 2, 3, 4, 5, 6, 7, 8, 9, 10, 11, 12, 13, 14];
    assert!(rt; out.as_slice() == expected.as_slice());
    Ok(())
}

#[test]
fn numbers_are_read_where_they_stand(rt: HostRuntime) {
    let bytes = [0xff, 1, 2, 3, 4, 5, 6, 7, 8, 0xff];
    assert_eq!(rt; u16_at(&bytes, 1), 0x0102);
    assert_eq!(rt; u32_at(&bytes, 1), 0x0102_0304);
    assert_eq!(rt; u64_at(&bytes, 1), 0x0102_0304_0506_0708);
}

#[test]
fn numbers_of_a_list_stand_one_after_the_other(rt: HostRuntime) -> Result<(), Fail> {
    let mut out = Vec::new(rt.alloc());
    put_numbers(&mut out, &[1, 0x0203]).ok().ok_or("memory")?;
    assert!(rt; out.as_slice() == b"\0\0\0\0\0\0\0\x01\0\0\0\0\0\0\x02\x03".as_slice());
    Ok(())
}

#[test]
fn a_number_is_written_over_what_stands_there(rt: HostRuntime) {
    let mut bytes = [9; 10];
    set_u64(&mut bytes, 1, 0x0102_0304_0506_0708);
    assert!(rt; bytes.as_slice() == [9, 1, 2, 3, 4, 5, 6, 7, 8, 9].as_slice());
}
