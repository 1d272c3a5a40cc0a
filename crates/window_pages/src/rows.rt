//! The row of a key.
ghost use Rattle.std.specs.Prelude.{◌≡◌, List, IfOk, IfErr};
ghost use Rattle.std.specs.Option.{option_to_list};
ghost use Rattle.agg_outside.specs.Counts.{HasCause};
ghost use Rattle.agg_model.specs.ChangeList.{ChangeList, value_at};
ghost use Rattle.agg_model.specs.Contents.{times};
ghost use Rattle.collate_step.specs.Groups.{GroupFiles, IsDomain};
ghost use Rattle.window_laws.specs.Pages.{row_with, row_at};
ghost use Rattle.window_pages.specs.Standing.{StandFor, StandsAt};
ghost use Rattle.window_pages.specs.Asking.{row_for};

use crate::asked::Asked;
use crate::cursors::Cursor;
use crate::values::{has_change, value_before};
use agg_model::{Entity, PageRow, Range};
use agg_outside::Bytes;
use std::alloc::Global;
use window_reads::{ReadError, Window};

// The key with its value, where it has one.
fn row_held(key: Bytes, value: Option<Bytes>) -> Option<PageRow>
    ensures { option_to_list result ≡ row_with key value }
{
    let Some(value) = value else {
        return None;
    };
    Some(PageRow {
        key,
        value: Some(value),
    })
}

// The key with its value just before `n`, where it has one.
fn row_with<W: Window>(
    alloc: Global,
    cursors: &[Cursor<'_>],
    window: &mut W,
    size: u64,
    entity: Entity,
    n: u64,
    key: Bytes,
) -> Result<Option<PageRow>, ReadError>
    ensures row { (list : ChangeList) (groups : List GroupFiles) →
        StandFor list entity groups (W.changes window.old) size (W.first_step window.old) (W.next_number window.old) →
        IsDomain entity → StandsAt key cursors.now groups →
        IfOk result (λ row. option_to_list row ≡ row_with key (value_at list.changes entity key n)) }
    ensures later { W.later window.old window.new }
    ensures cause { HasCause ReadError.Keeper (W.faults window.old) (W.faults window.new) result }
{
    let value = value_before(alloc, cursors, window, size, entity, n, key.as_slice())?;
    Ok(row_held(key, value))
}

// The key with its value just before the first of the numbers, where it changed at one of them.
fn row_at<W: Window>(
    alloc: Global,
    cursors: &[Cursor<'_>],
    window: &mut W,
    size: u64,
    entity: Entity,
    numbers: Range,
    key: Bytes,
) -> Result<Option<PageRow>, ReadError>
    ensures row { (list : ChangeList) (groups : List GroupFiles) →
        StandFor list entity groups (W.changes window.old) size (W.first_step window.old) (W.next_number window.old) →
        IsDomain entity → StandsAt key cursors.now groups →
        IfOk result (λ row. option_to_list row ≡ row_at key (value_at list.changes entity key numbers.from)
        (times list.changes entity key numbers.from numbers.to)) }
    ensures later { W.later window.old window.new }
    ensures cause { HasCause ReadError.Keeper (W.faults window.old) (W.faults window.new) result }
{
    let bytes = key.as_slice();
    let has = has_change(alloc, cursors, window, entity, bytes, numbers)?;
    if !has {
        return Ok(None);
    }
    let value = value_before(alloc, cursors, window, size, entity, numbers.from, bytes)?;
    Ok(Some(PageRow { key, value }))
}

/// The row of a key, where it has one. Of the cursors, which stand from no key above it on, those that stand at it
/// are looked into.
pub(crate) fn row_of<W: Window>(
    alloc: Global,
    cursors: &[Cursor<'_>],
    window: &mut W,
    size: u64,
    entity: Entity,
    asked: &Asked,
    key: Bytes,
) -> Result<Option<PageRow>, ReadError>
    ensures row { (list : ChangeList) (groups : List GroupFiles) →
        StandFor list entity groups (W.changes window.old) size (W.first_step window.old) (W.next_number window.old) →
        IsDomain entity → StandsAt key cursors.now groups →
        IfOk result (λ row. option_to_list row ≡ row_for list entity asked.now key) }
    ensures later { W.later window.old window.new }
    ensures cause { HasCause ReadError.Keeper (W.faults window.old) (W.faults window.new) result }
{
    match asked {
        Asked::Values { n, .. } => row_with(alloc, cursors, window, size, entity, *n, key),
        Asked::Changes { from, to } => {
            let numbers = Range {
                from: *from,
                to: *to,
            };
            row_at(alloc, cursors, window, size, entity, numbers, key)
        }
    }
}
