ghost use Rattle.std.specs.Prelude.{◌≡◌, ℕ, ◌+◌, ◌<◌, ◌≤◌, ◌^◌, List, length, IsSomeAnd};
ghost use Rattle.recsplit_index.specs.declared.keys.HashedKey.{HashedKey};
ghost use Rattle.recsplit_index.specs.Nodes.{Node};
ghost use Rattle.recsplit_index.specs.Walks.{IsNodeAt, HasNode, IsSlotOf};

use crate::hash::position;
use crate::nodes::parameter;
use crate::seeds::left_of;
use bit_store::RiceReader;

/// Goes behind the codes of a node of this size.
fn skip(reader: &mut RiceReader<'_>, size: u64)
    requires { (depth : ℕ) × HasNode reader.old.bits reader.old.at depth size }
    ensures { (depth : ℕ) (keys : List HashedKey) (n : Node) → size ≡ length keys → IsNodeAt reader.old.bits reader.old.at depth keys n → reader.new ≡ record reader.old { at = reader.old.at + length n.bits } }
{
    if size < 2 {
        return;
    }
    let _seed = reader.next(parameter(size));
    if size > 8 {
        let left = left_of(size);
        skip(reader, left);
        skip(reader, size - left);
    }
}

/// The slot, in a node of this size, to which the hash leads.
pub(crate) fn walk(reader: &mut RiceReader<'_>, depth: u64, size: u64, hash: u64) -> Option<u64>
    requires some { 0 < size }
    requires deep { depth + size < 2 ^ 64 }
    requires there { HasNode reader.old.bits reader.old.at depth size }
    ensures { (keys : List HashedKey) (n : Node) → size ≡ length keys → IsNodeAt reader.old.bits reader.old.at depth keys n → IsSomeAnd result (λ slot. IsSlotOf hash slot keys n.slots) }
{
    if size < 2 {
        return Some(0);
    }
    let seed = reader.next(parameter(size))? as u32;
    let place = position(depth, seed, size, hash);
    if size <= 8 {
        return Some(place);
    }
    let left = left_of(size);
    if place < left {
        return walk(reader, depth + 1, left, hash);
    }
    skip(reader, left);
    let slot = walk(reader, depth + 1, size - left, hash)?;
    Some(left + slot)
}
