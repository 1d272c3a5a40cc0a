ghost use Rattle.std.specs.Prelude.{◌≡◌, ◌<◌, ◌≤◌, ◌*◌, ◌/◌, ◌^◌, length, Some, IfOk, IfErr};
ghost use Rattle.bit_store.specs.Bits.{bits_of, bytes_for};
ghost use Rattle.elias_fano.specs.Spelling.{low_width};
ghost use Rattle.elias_fano.specs.Reading.{IsHeader, count_in, asked_in, fault_in, first_one, unused_one, parts_in};

use crate::error::EfError;
use crate::header::Header;
use crate::parts::Parts;
use bit_store::BitView;
use file_numbers::u64_at;

/// How many low bits of each item stand apart.
pub fn width_for(count: u64, last: u64) -> u32
    requires { 0 < count }
    ensures value { result ≡ low_width count last }
    ensures narrow { result < 64 }
    ensures short { last / 2 ^ result ≤ 2 * count }
{
    if last <= count {
        0
    } else {
        (last / count).ilog2()
    }
}

fn bytes_of(bits: u128) -> u128
    requires { bits < 2 ^ 80 }
    ensures { result ≡ bytes_for bits }
{
    (bits + 7) / 8
}

/// The header of bytes that are as long as it asks.
#[tactic(auto, unfolding(crate::specs::Reading::fault_in))]
pub fn header_of(bytes: &[u8]) -> Result<Header, EfError>
    requires { length bytes.now < 2 ^ 60 }
    ensures ok { IfOk result (λ h. IsHeader bytes.now h) }
    ensures err { IfErr result (λ e. fault_in bytes.now ≡ Some e) }
{
    let size = bytes.len() as u64;
    if size < 16 {
        return Err(EfError::Short { at: size });
    }
    let count = u64_at(bytes, 0);
    let last = u64_at(bytes, 8);
    if count == 0 {
        return Err(EfError::Zero);
    }
    let width = width_for(count, last);
    let lower_len = count as u128 * width as u128;
    let upper_len = (last >> width) as u128 + count as u128;
    let start = 16 + bytes_of(lower_len);
    let asked = start + bytes_of(upper_len);
    if (size as u128) < asked {
        return Err(EfError::Short { at: size });
    }
    if asked < size as u128 {
        return Err(EfError::Extra { at: asked as u64 });
    }
    Ok(Header {
        count,
        last,
        width,
        lower_len: lower_len as u64,
        upper_len: upper_len as u64,
        start: start as u64,
    })
}

/// The header of bytes that are known to be the text of a list.
pub fn known_header(bytes: &[u8]) -> Header
    requires small { length bytes.now < 2 ^ 60 }
    requires some { 0 < count_in bytes.now }
    requires size { length bytes.now ≡ asked_in bytes.now }
    ensures { IsHeader bytes.now result }
{
    let count = u64_at(bytes, 0);
    let last = u64_at(bytes, 8);
    let width = width_for(count, last);
    let lower_len = count * u64::from(width);
    Header {
        count,
        last,
        width,
        lower_len,
        upper_len: (last >> width) + count,
        start: 16 + (lower_len + 7) / 8,
    }
}

// The first 1 from one bit up to another.
fn one_between(bytes: &[u8], from: u64, to: u64) -> Option<u64>
    requires from { from ≤ to }
    requires to { to ≤ 8 * length bytes.now }
    ensures { result ≡ first_one (bits_of bytes.now) from to }
{
    BitView::of(bytes, to).next_one(from)
}

/// The first 1 outside the two parts, counted over the whole text.
pub fn unused_in(bytes: &[u8], header: &Header) -> Option<u64>
    requires header { IsHeader bytes.now header.now }
    requires small { length bytes.now < 2 ^ 60 }
    ensures { result ≡ unused_one bytes.now }
{
    let upper = 8 * header.start;
    let size = 8 * bytes.len() as u64;
    match one_between(bytes, 128 + header.lower_len, upper) {
        Some(bit) => Some(bit),
        None => one_between(bytes, upper + header.upper_len, size),
    }
}

/// The two parts of bytes with this header.
pub fn parts_of<'a>(bytes: &'a [u8], header: &Header) -> Parts<'a>
    requires header { IsHeader bytes.now header.now }
    requires small { length bytes.now < 2 ^ 60 }
    ensures { result ≡ parts_in bytes.now }
{
    let start = header.start as usize;
    Parts {
        count: header.count,
        width: header.width,
        lower: BitView::of(&bytes[16..], header.lower_len),
        upper: BitView::of(&bytes[start..], header.upper_len),
    }
}
