//! One look for a row, from a key on.
ghost use Rattle.std.specs.Prelude.{◌≡◌, true, List, map, Some, IfSome, IfOk};
ghost use Rattle.agg_outside.specs.Counts.{HasCause};
ghost use Rattle.agg_model.specs.ChangeList.{ChangeList};
ghost use Rattle.collate_step.specs.Groups.{GroupFiles, IsDomain};
ghost use Rattle.window_pages.specs.Places.{places_from, moved};
ghost use Rattle.window_pages.specs.Standing.{StandFor};
ghost use Rattle.window_pages.specs.Asking.{rows_for};
ghost use Rattle.window_pages.specs.Looks.{IsLooked};

use crate::asked::{Asked, is_under, numbers_of};
use crate::cursors::{Cursor, move_all};
use crate::keys::next_key;
use crate::order::behind_key;
use crate::rows::row_of;
use agg_model::{Entity, PageRow};
use agg_outside::Bytes;
use std::alloc::Global;
use window_reads::{ReadError, Window};

/// The row of the next key, where it has one, and the least key above it.
#[derive(Drop)]
pub struct Looked {
    pub row: Option<PageRow>,
    pub behind: Bytes,
}

// The same where the cursors stand from the first key on.
fn look_on<W: Window>(
    alloc: Global,
    cursors: &[Cursor<'_>],
    window: &mut W,
    size: u64,
    entity: Entity,
    asked: &Asked,
    first: &Bytes,
) -> Result<Option<Looked>, ReadError>
    ensures rows { (list : ChangeList) (groups : List GroupFiles) →
        StandFor list entity groups (W.changes window.old) size (W.first_step window.old) (W.next_number window.old) →
        IsDomain entity → cursors.now ≡ places_from first.now groups →
        IfOk result (λ found. IsLooked list entity asked.now first.now found) }
    ensures later { W.later window.old window.new }
    ensures cause { HasCause ReadError.Keeper (W.faults window.old) (W.faults window.new) result }
{
    let numbers = numbers_of(asked);
    let from = first.as_slice();
    let next = next_key(alloc, cursors, window, entity, numbers, from)?;
    let Some(key) = next else {
        return Ok(None);
    };
    let bytes = key.as_slice();
    if !is_under(asked, bytes) {
        return Ok(None);
    }
    let behind = behind_key(alloc, bytes)?;
    let row = row_of(alloc, cursors, window, size, entity, asked, key)?;
    Ok(Some(Looked { row, behind }))
}

/// The next key from the first one on, of those that can have a row, with its row; `None` where there is none more.
/// The cursors, which stand from no key above the first one on, are moved there.
pub(crate) fn look_from<W: Window>(
    alloc: Global,
    cursors: &mut [Cursor<'_>],
    window: &mut W,
    size: u64,
    entity: Entity,
    asked: &Asked,
    first: &Bytes,
) -> Result<Option<Looked>, ReadError>
    ensures moved { cursors.new ≡ map (moved first.now) cursors.old }
    ensures rows { (list : ChangeList) (groups : List GroupFiles) →
        StandFor list entity groups (W.changes window.old) size (W.first_step window.old) (W.next_number window.old) →
        IsDomain entity → cursors.new ≡ places_from first.now groups →
        IfOk result (λ found. IsLooked list entity asked.now first.now found) }
    ensures later { W.later window.old window.new }
    ensures cause { HasCause ReadError.Keeper (W.faults window.old) (W.faults window.new) result }
{
    move_all(cursors, first.as_slice());
    look_on(alloc, cursors, window, size, entity, asked, first)
}
