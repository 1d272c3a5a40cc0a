//! The numbers of files: big-endian, of 2, 4 and 8 bytes, alone and in lists.
#![tactic(auto)]

ghost use Rattle.std.specs.Prelude.{◌≡◌, ◌+◌, ◌≤◌, ◌++◌, length, take, drop, OnOk, OnErr};
ghost use Rattle.std.specs.Int.{w16, w32, w64, to_be_bytes, from_be_bytes};
ghost use Rattle.file_numbers.specs.Lists.{number_bytes};

use agg_outside::Memory;
use byteorder::{BigEndian, ByteOrder};

/// Puts a number of 2 bytes behind the bytes.
pub fn put_u16(out: &mut Vec<u8>, number: u16) -> Result<(), Memory>
    ensures ok { OnOk result (out.new.items ≡ out.old.items ++ to_be_bytes w16 number) }
    ensures err { OnErr result (out.new.items ≡ out.old.items) }
{
    let mut field = [0; 2];
    BigEndian::write_u16(&mut field, number);
    out.extend_from_slice(&field)?;
    Ok(())
}

/// Puts a number of 4 bytes behind the bytes.
pub fn put_u32(out: &mut Vec<u8>, number: u32) -> Result<(), Memory>
    ensures ok { OnOk result (out.new.items ≡ out.old.items ++ to_be_bytes w32 number) }
    ensures err { OnErr result (out.new.items ≡ out.old.items) }
{
    let mut field = [0; 4];
    BigEndian::write_u32(&mut field, number);
    out.extend_from_slice(&field)?;
    Ok(())
}

/// Puts a number of 8 bytes behind the bytes.
pub fn put_u64(out: &mut Vec<u8>, number: u64) -> Result<(), Memory>
    ensures ok { OnOk result (out.new.items ≡ out.old.items ++ to_be_bytes w64 number) }
    ensures err { OnErr result (out.new.items ≡ out.old.items) }
{
    let mut field = [0; 8];
    BigEndian::write_u64(&mut field, number);
    out.extend_from_slice(&field)?;
    Ok(())
}

/// Puts numbers of 8 bytes behind the bytes, one after the other. After want of memory some of them may
/// have been put.
pub fn put_numbers(out: &mut Vec<u8>, numbers: &[u64]) -> Result<(), Memory>
    ensures { OnOk result (out.new.items ≡ out.old.items ++ number_bytes numbers.now) }
{
    for number in numbers {
        put_u64(out, *number)?;
    }
    Ok(())
}

/// Writes a number of 8 bytes over those at `at`.
pub fn set_u64(bytes: &mut [u8], at: usize, number: u64)
    requires { at + 8 ≤ length bytes.old }
    ensures { bytes.new ≡ take at bytes.old ++ (to_be_bytes w64 number ++ drop (at + 8) bytes.old) }
{
    BigEndian::write_u64(&mut bytes[at..], number);
}

/// The number in the 2 bytes at `at`.
pub fn u16_at(bytes: &[u8], at: usize) -> u16
    requires { at + 2 ≤ length bytes.now }
    ensures { result ≡ from_be_bytes w16 (drop at bytes.now) }
{
    BigEndian::read_u16(&bytes[at..])
}

/// The number in the 4 bytes at `at`.
pub fn u32_at(bytes: &[u8], at: usize) -> u32
    requires { at + 4 ≤ length bytes.now }
    ensures { result ≡ from_be_bytes w32 (drop at bytes.now) }
{
    BigEndian::read_u32(&bytes[at..])
}

/// The number in the 8 bytes at `at`.
pub fn u64_at(bytes: &[u8], at: usize) -> u64
    requires { at + 8 ≤ length bytes.now }
    ensures { result ≡ from_be_bytes w64 (drop at bytes.now) }
{
    BigEndian::read_u64(&bytes[at..])
}

#[cfg(test)]
mod tests;
