//! The parts that are measured.
ghost use Rattle.std.specs.Prelude.{◌<◌, ◌*◌, ◌^◌};

use crate::changes::{Sizes, files_of, rows_of};
use crate::reads::{Found, Lent, as_of, history, index, latest, range};
use agg_outside::Memory;
use epoch_window::EpochWindow;
use std::alloc::Global;
use std::rt::Clock;
use std::sync::Wait;
use std::thread::Threads;
use window_reads::{ReadError, Window};

// Each kind of read, one after the other.
fn each<W: Window>(lent: Lent<'_>, window: &mut W, count: u64) -> Result<Found, ReadError> {
    let mut all = Found::NONE;
    let found = [
        latest(lent, window, count)?,
        as_of(lent, window, count)?,
        range(lent, window, count)?,
        history(lent, window, count)?,
        index(lent, window, count)?,
    ];
    for one in found {
        all.sum = all.sum.wrapping_mul(31).wrapping_add(one.sum);
        all.rows = all.rows.saturating_add(one.rows);
    }
    Ok(all)
}

fn found_in<W: Window>(
    lent: Lent<'_>,
    window: &mut W,
    part: &str,
    count: u64,
) -> Result<Option<Found>, ReadError> {
    match part {
        "built" => Ok(Some(Found::NONE)),
        "latest" => Ok(Some(latest(lent, window, count)?)),
        "asof" => Ok(Some(as_of(lent, window, count)?)),
        "range" => Ok(Some(range(lent, window, count)?)),
        "history" => Ok(Some(history(lent, window, count)?)),
        "index" => Ok(Some(index(lent, window, count)?)),
        "each" => Ok(Some(each(lent, window, count)?)),
        _ => Ok(None),
    }
}

/// What so many reads of a part find; none where there is no such part. Sizes that are too large are answered as want
/// of memory.
pub fn found_by<H: Threads + Wait + Clock + Sync>(
    rt: &H,
    alloc: Global,
    part: &str,
    sizes: Sizes,
    count: u64,
) -> Result<Option<Found>, Memory> {
    if sizes.keys >= 1 << 32 || sizes.groups >= 4096 {
        return Err(Memory);
    }
    let files = files_of(rt, alloc, sizes)?;
    let Ok(mut hot) = rows_of(alloc, sizes) else {
        return Err(Memory);
    };
    let present = hot.epoch();
    let mut window = EpochWindow::of(&mut hot, present, sizes.groups, sizes.keys, sizes.next());
    let lent = Lent {
        alloc,
        files: &files,
        sizes,
    };
    match found_in(lent, &mut window, part, count) {
        Ok(found) => Ok(found),
        Err(_) => Err(Memory),
    }
}
