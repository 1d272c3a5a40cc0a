//! Pages: the first rows, and the key of the next one.
ghost use Rattle.std.specs.Prelude.{◌≡◌, ◌≤◌, ◌++◌, [], ◌∷◌, List, length, map, Some, IfOk, OnOk, IfErr};
ghost use Rattle.std.specs.Arc.{arc_value};
ghost use Rattle.agg_outside.specs.Counts.{HasCause};
ghost use Rattle.agg_model.specs.ChangeList.{ChangeList};
ghost use Rattle.agg_model.specs.Listed.{limited};
ghost use Rattle.collate_step.specs.Groups.{GroupFiles, IsDomain};
ghost use Rattle.hot_keeper.specs.declared.error.ReadError.TheVariants.{Memory as NoMemory};
ghost use Rattle.window_reads.specs.Standing.{Stand};
ghost use Rattle.window_pages.specs.Places.{places_from};
ghost use Rattle.window_pages.specs.Standing.{StandFor};
ghost use Rattle.window_pages.specs.Asking.{rows_for};
ghost use Rattle.window_pages.specs.Looks.{Takes};

use crate::asked::Asked;
use crate::cursors::{Cursor, cursors_from};
use crate::look::{Looked, look_from};
use agg_model::{Entity, PageRow, PageRows};
use agg_outside::Bytes;
use collate_step::EntityFiles;
use std::alloc::Global;
use std::sync::Arc;
use window_reads::{ReadError, Window};

/// The first rows, keys ascending, and the key of the next one where there is one.
#[derive(Debug, Drop)]
pub struct Page {
    pub rows: PageRows,
    pub more: Option<Bytes>,
}

// Adds the row at the end.
fn add(rows: &mut PageRows, row: PageRow) -> Result<(), ReadError>
    ensures ok { OnOk result (rows.new ≡ rows.old ++ row ∷ []) }
    ensures err { IfErr result (λ e. e ≡ NoMemory) }
{
    match rows.push(row) {
        Ok(()) => Ok(()),
        Err(_) => Err(ReadError::Memory),
    }
}

// Adds the row, if there is one and room for it; the key of a row for which there is no room is answered.
fn take_row(
    rows: &mut PageRows,
    row: Option<PageRow>,
    limit: usize,
) -> Result<Option<Bytes>, ReadError>
    requires { length rows.old ≤ limit }
    ensures ok { IfOk result (Takes limit rows.old row rows.new) }
    ensures err { IfErr result (λ e. e ≡ NoMemory) }
{
    let Some(row) = row else {
        return Ok(None);
    };
    if rows.len() >= limit {
        return Ok(Some(row.key));
    }
    add(rows, row)?;
    Ok(None)
}

// The first `limit` rows from a key on, where the cursors stand from it on. Over a window that tells its changes the
// bound on the looks is never met: each key is above the one before.
fn page_on<W: Window>(
    alloc: Global,
    cursors: &mut [Cursor<'_>],
    window: &mut W,
    size: u64,
    entity: Entity,
    asked: &Asked,
    start: Bytes,
    limit: usize,
) -> Result<Page, ReadError>
    ensures page { (list : ChangeList) (groups : List GroupFiles) →
        StandFor list entity groups (W.changes window.old) size (W.first_step window.old) (W.next_number window.old) →
        IsDomain entity → cursors.old ≡ places_from start groups → IfOk result (λ page. (page.rows, page.more)
        ≡ limited (λ r. r.key) limit (rows_for list entity asked.now (Some start))) }
    ensures later { W.later window.old window.new }
    ensures cause { HasCause ReadError.Keeper (W.faults window.old) (W.faults window.new) result }
{
    let mut rows = PageRows::new(alloc);
    let mut first = start;
    for _look in 0..u64::MAX {
        let found = look_from(alloc, cursors, window, size, entity, asked, &first)?;
        let Some(looked) = found else {
            return Ok(Page { rows, more: None });
        };
        let Looked { row, behind } = looked;
        let more = take_row(&mut rows, row, limit)?;
        if more.is_some() {
            return Ok(Page { rows, more });
        }
        first = behind;
    }
    Err(ReadError::Memory)
}

/// The first `limit` rows from a key on.
pub(crate) fn page_from<W: Window>(
    alloc: Global,
    files: &[Arc<EntityFiles>],
    window: &mut W,
    size: u64,
    entity: Entity,
    asked: &Asked,
    start: Bytes,
    limit: usize,
) -> Result<Page, ReadError>
    ensures page { (list : ChangeList) →
        Stand list (map (λ g. arc_value g) files.now) (W.changes window.old) size (W.first_step window.old)
        (W.next_number window.old) →
        IsDomain entity → IfOk result (λ page. (page.rows, page.more)
        ≡ limited (λ r. r.key) limit (rows_for list entity asked.now (Some start))) }
    ensures later { W.later window.old window.new }
    ensures cause { HasCause ReadError.Keeper (W.faults window.old) (W.faults window.new) result }
{
    let mut cursors = cursors_from(alloc, files, entity, start.as_slice())?;
    page_on(
        alloc,
        cursors.as_mut_slice(),
        window,
        size,
        entity,
        asked,
        start,
        limit,
    )
}
