//! The bytes of an id in a table, and the id of such bytes.
ghost use Rattle.std.specs.Prelude.{◌≡◌, ◌≤◌, [], ◌++◌, IfOk, IfSome, OnOk, length};
ghost use Rattle.std.specs.Ordering.{nat_cmp};
ghost use Rattle.std.specs.Cmp.Lexicographic.{slice_cmp};
ghost use Rattle.agg_outside.specs.Rows.{id_cmp};
ghost use Rattle.real_devices.specs.IdBytes.{escape, ended, id_bytes};

use agg_outside::{Bytes, Memory, RowId};
use file_numbers::{put_u64, u64_at};
use std::alloc::Global;

/// The fewest bytes of an id: its entity, the end of its key, and both numbers.
const LEAST: usize = 19;

/// The bytes by which a table names and orders the row with this id.
pub fn place_of(alloc: Global, id: &RowId) -> Result<Vec<u8>, Memory>
    ensures { IfOk result (λ place. place.items ≡ id_bytes id.now) }
{
    let mut place = Vec::new(alloc);
    place.push(id.entity)?;
    put_text(&mut place, id.key.as_slice())?;
    put_u64(&mut place, id.tx)?;
    put_u64(&mut place, id.born)?;
    Ok(place)
}

/// The id with these bytes; none where no id has them.
pub fn id_at(alloc: Global, place: &[u8]) -> Result<Option<RowId>, Memory>
    ensures { IfOk result (λ found. IfSome found (λ id. id_bytes id ≡ place.now)) }
{
    if place.len() < LEAST {
        return Ok(None);
    }
    let id = id_within(alloc, place)?;
    let again = place_of(alloc, &id)?;
    if again.as_slice() == place {
        Ok(Some(id))
    } else {
        Ok(None)
    }
}

/// The places of two ids are ordered as the ids are, whatever the ids are.
pub fn orders_places(a: &RowId, b: &RowId)
    ensures { slice_cmp nat_cmp (id_bytes a.now) (id_bytes b.now) ≡ id_cmp a.now b.now }
{
    // What is read is known to be in its type's range.
    let _tx = a.tx;
    let _born = a.born;
    let _other_tx = b.tx;
    let _other_born = b.born;
}

// The id whose bytes these are, if they are those of one.
fn id_within(alloc: Global, place: &[u8]) -> Result<RowId, Memory>
    requires { 19 ≤ length place.now }
{
    let numbers = place.len() - 16;
    let key = text_within(alloc, &place[1..numbers - 2])?;
    Ok(RowId {
        entity: place[0],
        key: Bytes::from_vec(key),
        tx: u64_at(place, numbers),
        born: u64_at(place, numbers + 8),
    })
}

// The bytes without those that stand behind a 0.
fn text_within(alloc: Global, bytes: &[u8]) -> Result<Vec<u8>, Memory> {
    let mut text = Vec::new(alloc);
    let mut is_behind_zero = false;
    for &byte in bytes {
        if is_behind_zero {
            is_behind_zero = false;
        } else {
            text.push(byte)?;
            is_behind_zero = byte == 0;
        }
    }
    Ok(text)
}

fn put_text(out: &mut Vec<u8>, text: &[u8]) -> Result<(), Memory>
    ensures { OnOk result (out.new.items ≡ out.old.items ++ ended text.now) }
{
    for byte in text {
        put_byte(out, *byte)?;
    }
    put_end(out)
}

#[tactic(auto, using(crate::proofs::Places::escape_some))]
fn put_byte(out: &mut Vec<u8>, byte: u8) -> Result<(), Memory>
    ensures { OnOk result (out.new.items ≡ out.old.items ++ escape byte) }
{
    if byte == 0 {
        out.extend_from_slice(&[0, 255])?;
    } else {
        out.push(byte)?;
    }
    Ok(())
}

fn put_end(out: &mut Vec<u8>) -> Result<(), Memory>
    ensures { OnOk result (out.new.items ≡ out.old.items ++ ended []) }
{
    out.extend_from_slice(&[0, 0])?;
    Ok(())
}
