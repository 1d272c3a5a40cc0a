//! The keys and values of measured reads.

use agg_outside::{Bytes, Memory};
use std::alloc::Global;

/// A key of 20 bytes. The keys of greater numbers are greater.
pub fn key_of(number: u64) -> [u8; 20] {
    let mut key = [0; 20];
    key[..8].copy_from_slice(&number.to_be_bytes());
    key[8..16].copy_from_slice(&number.wrapping_mul(0x9e37_79b9_7f4a_7c15).to_be_bytes());
    key
}

/// A value of 32 bytes.
pub fn value_of(alloc: Global, number: u64) -> Result<Bytes, Memory> {
    let mut value = [7; 32];
    value[..8].copy_from_slice(&number.to_be_bytes());
    Bytes::of(alloc, &value)
}

/// The next of a row of numbers that look drawn at random.
pub fn next_random(random: u64) -> u64 {
    random
        .wrapping_mul(6364136223846793005)
        .wrapping_add(1442695040888963407)
}

/// A number below `count` at random, or 0 where that is 0.
pub fn drawn(random: u64, count: u64) -> u64 {
    if count == 0 {
        return 0;
    }
    (random >> 33) % count
}
