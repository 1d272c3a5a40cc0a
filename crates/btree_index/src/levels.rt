ghost use Rattle.std.specs.Prelude.{◌≡◌, ℕ, ◌+◌, ◌-◌, ◌*◌, ◌/◌, ◌^◌, ◌<◌, ◌≤◌, ◌++◌, length, drop, slice_index, IfOk, OnOk};
ghost use Rattle.file_numbers.specs.Lists.{number_bytes};
ghost use Rattle.btree_index.specs.Levels.{entries, level, levels, top_from, levels_below, spelling};

use agg_outside::Memory;
use file_numbers::{put_u32, put_u64};
use std::alloc::Global;

/// `AGB1`.
pub(crate) const MAGIC: u32 = 0x4147_4231;

/// How many entries the level has over `count` keys.
#[tactic(auto, unfolding(crate::specs::Levels::entries))]
pub(crate) fn entries_of(count: u64, level: u32) -> u64
    requires { level < 16 }
    ensures { result ≡ entries count level }
{
    let whole = count >> (4 * level);
    let rest = count & (stride_of(level) - 1);
    if rest == 0 { whole } else { whole + 1 }
}

/// How many keys an entry of the level stands for.
pub(crate) fn stride_of(level: u32) -> u64
    requires { level < 16 }
    ensures value { result ≡ 16 ^ level }
    ensures some { 0 < result }
{
    1 << (4 * level)
}

/// How many levels there are over `count` keys.
#[tactic(auto, unfolding(crate::specs::Levels::levels))]
pub(crate) fn levels_of(count: u64) -> u32
    ensures value { result ≡ levels count }
    ensures few { result ≤ 16 }
{
    if count == 0 {
        return 0;
    }
    top_of(count) + 1
}

fn top_of(count: u64) -> u32
    ensures value { result ≡ top_from 15 0 count }
    ensures few { result ≤ 15 }
{
    for level in 0..15 {
        if entries_of(count, level) <= 16 {
            return level;
        }
    }
    15
}

fn put_level(out: &mut Vec<u8>, offsets: &[u64], j: u32) -> Result<(), Memory>
    requires { j < 16 }
    ensures { OnOk result (out.new.items ≡ out.old.items ++ number_bytes (level offsets.now j)) }
{
    let stride = stride_of(j);
    let entries = entries_of(offsets.len() as u64, j);
    for k in 0..entries {
        put_u64(out, offsets[(k * stride) as usize])?;
    }
    Ok(())
}

/// The spelling of the levels over these offsets.
pub(crate) fn spell(alloc: Global, offsets: &[u64]) -> Result<Vec<u8>, Memory>
    ensures { IfOk result (λ v. v.items ≡ spelling offsets.now) }
{
    let levels = levels_of(offsets.len() as u64);
    let mut out = Vec::new(alloc);
    put_u32(&mut out, MAGIC)?;
    put_u32(&mut out, levels)?;
    put_u64(&mut out, offsets.len() as u64)?;
    let mut level = levels;
    while level > 0 {
        level -= 1;
        put_level(&mut out, offsets, level)?;
    }
    Ok(out)
}
