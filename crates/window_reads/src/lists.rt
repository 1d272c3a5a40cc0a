//! The numbers of a key, file by file from the side that they begin at.
ghost use Rattle.std.specs.Prelude.{◌≡◌, ◌++◌, ◌<◌, ◌≤◌, ℕ, length, take, reverse, slice_index, OnOk};
ghost use Rattle.std.specs.List.{filter};
ghost use Rattle.std.specs.List.Sorted.{IsNonDecreasing};
ghost use Rattle.window_laws.specs.Parts.{is_between};

use agg_outside::{Memory, Numbers};
use elias_fano::EfList;

// Adds the numbers of the list, ascending, as long as there is room.
pub(crate) fn take_up(
    list: &EfList<'_>,
    a: u64,
    b: u64,
    room: usize,
    out: &mut Numbers,
) -> Result<(), Memory>
    requires { length out.old ≤ room }
    ensures { OnOk result (out.new ≡ take room (out.old ++ filter (is_between a b) list.now)) }
{
    // That they don't descend is a clause of this call.
    let _count = list.len();
    let Some((place, _)) = list.seek(a) else {
        return Ok(());
    };
    for number in list.iter_from(place) {
        if number >= b || out.len() >= room {
            return Ok(());
        }
        out.push(number)?;
    }
    Ok(())
}

// The place behind the last number below `b`.
fn end_of(list: &EfList<'_>, b: u64) -> u64
    ensures below { (k : ℕ) → k < result → k < length list.now → slice_index list.now k < b }
    ensures behind { (k : ℕ) → result ≤ k → k < length list.now → b ≤ slice_index list.now k }
    ensures ascends { IsNonDecreasing list.now }
{
    let count = list.len();
    match list.seek(b) {
        Some((place, _)) => place,
        None => count,
    }
}

// Adds the numbers of the list from the last one down, as long as there is room.
pub(crate) fn take_down(
    list: &EfList<'_>,
    a: u64,
    b: u64,
    room: usize,
    out: &mut Numbers,
) -> Result<(), Memory>
    requires { length out.old ≤ room }
    ensures { OnOk result (out.new ≡ take room (out.old ++ reverse (filter (is_between a b) list.now))) }
{
    let end = end_of(list, b);
    for number in list.iter_back(end) {
        if number < a || out.len() >= room {
            return Ok(());
        }
        out.push(number)?;
    }
    Ok(())
}
