//! The keys and values of the merged groups.
use agg_model::{Act, Batch, Change, Entity};
use agg_outside::{Bytes, Memory};
use std::alloc::Global;

/// So many groups of `keys` keys each, of which `shared` stand in the group before too.
#[derive(Clone, Copy, Debug)]
pub struct Sizes {
    pub keys: u64,
    pub groups: u64,
    pub shared: u64,
}

// A key of 20 bytes. The keys of greater numbers are greater.
fn key_of(number: u64) -> [u8; 20] {
    let mut key = [0; 20];
    key[..8].copy_from_slice(&number.to_be_bytes());
    key[8..16].copy_from_slice(&number.wrapping_mul(0x9e37_79b9_7f4a_7c15).to_be_bytes());
    key
}

// A value of 32 bytes.
fn value_of(alloc: Global, number: u64) -> Result<Bytes, Memory> {
    let mut value = [7; 32];
    value[..8].copy_from_slice(&number.to_be_bytes());
    Bytes::of(alloc, &value)
}

// Each eighth change is a deletion.
fn change_of(alloc: Global, key: u64, tx: u64) -> Result<Change, Memory> {
    let act = if tx % 8 == 7 {
        Act::Del
    } else {
        Act::Put(value_of(alloc, tx)?)
    };
    Ok(Change {
        tx,
        entity: Entity::Accounts,
        key: Bytes::of(alloc, &key_of(key))?,
        act,
    })
}

/// The changes of a step, one of each of its keys, which ascend.
pub fn changes_of(alloc: Global, sizes: Sizes, step: u64) -> Result<Batch, Memory> {
    let first_key = step.wrapping_mul(sizes.keys.saturating_sub(sizes.shared));
    let first = step.wrapping_mul(sizes.keys);
    let mut changes = Batch::new(alloc);
    for place in 0..sizes.keys {
        let key = first_key.wrapping_add(place);
        changes.push(change_of(alloc, key, first.wrapping_add(place))?)?;
    }
    Ok(changes)
}
