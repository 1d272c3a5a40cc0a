use crate::groups::{ENTITIES, Files, begun, merged};
use agg_outside::Memory;
use std::alloc::Global;
use visible_files::FileSets;

fn pinned_once(sets: &mut FileSets<Files>) -> Result<(), Memory> {
    let set = sets.pin()?;
    sets.unpin(set);
    Ok(())
}

/// How many groups there are, after so many pins and unpins.
pub fn sets_pinned(alloc: Global, count: u64, rounds: u64) -> Result<Option<u64>, Memory> {
    let Some(mut sets) = begun(alloc, count)? else {
        return Ok(None);
    };
    for _ in 0..rounds {
        pinned_once(&mut sets)?;
    }
    Ok(Some(sets.current().groups().len() as u64))
}

// At most so many merges of each entity; how many there were.
fn merges(alloc: Global, sets: &mut FileSets<Files>, rounds: u64) -> Result<u64, Memory> {
    let mut done = 0u64;
    for entity in ENTITIES {
        for _ in 0..rounds {
            if merged(alloc, sets, entity)? {
                done = done.saturating_add(1);
            }
        }
    }
    Ok(done)
}

/// How many merges were published, of at most so many of each entity.
pub fn sets_published(alloc: Global, count: u64, rounds: u64) -> Result<Option<u64>, Memory> {
    let Some(mut sets) = begun(alloc, count)? else {
        return Ok(None);
    };
    Ok(Some(merges(alloc, &mut sets, rounds)?))
}

/// How often no name could go, of so many looks, once at most three merges of each entity are
/// published and all that they replaced is pinned.
pub fn names_dropped(alloc: Global, count: u64, rounds: u64) -> Result<Option<u64>, Memory> {
    let Some(mut sets) = begun(alloc, count)? else {
        return Ok(None);
    };
    let _set = sets.pin()?;
    let _done = merges(alloc, &mut sets, 3)?;
    let mut kept = 0u64;
    for _ in 0..rounds {
        if sets.retired().is_none() {
            kept = kept.saturating_add(1);
        }
    }
    Ok(Some(kept))
}
