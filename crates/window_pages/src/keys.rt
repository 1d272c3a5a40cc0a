//! The next key of files and window.
ghost use Rattle.std.specs.Prelude.{◌≡◌, ℕ, List, Some, IfSome, IfOk, IfErr};
ghost use Rattle.std.specs.Option.{option_copied};
ghost use Rattle.agg_outside.specs.Counts.{HasCause};
ghost use Rattle.agg_model.specs.ChangeList.{ChangeList};
ghost use Rattle.agg_model.specs.Contents.{times};
ghost use Rattle.collate_step.specs.Groups.{GroupFiles};
ghost use Rattle.hot_keeper.specs.declared.error.ReadError.TheVariants.{Memory as NoMemory};
ghost use Rattle.window_laws.specs.Pages.{IsNext};
ghost use Rattle.window_pages.specs.Places.{places_from};
ghost use Rattle.window_pages.specs.Standing.{StandFor, IsLeast};

use crate::cursors::{Cursor, least};
use crate::order::{first_key, lesser};
use agg_model::{Entity, Range};
use agg_outside::Bytes;
use std::alloc::Global;
use window_reads::{ReadError, Window, copied};

/// A copy of a key, if there is one.
pub(crate) fn key_copied(alloc: Global, key: Option<&[u8]>) -> Result<Option<Bytes>, ReadError>
    ensures ok { IfOk result (λ copy. copy ≡ option_copied key.entry) }
    ensures err { IfErr result (λ e. e ≡ NoMemory) }
{
    let Some(key) = key else {
        return Ok(None);
    };
    let copy = copied(alloc, key)?;
    Ok(Some(copy))
}

/// The next key of files and window from the first one on, of those that changed at some of the numbers; keys of
/// files that changed at none of these may come too. The cursors stand from the first key on.
pub(crate) fn next_key<W: Window>(
    alloc: Global,
    cursors: &[Cursor<'_>],
    window: &mut W,
    entity: Entity,
    numbers: Range,
    first: &[u8],
) -> Result<Option<Bytes>, ReadError>
    ensures next { (list : ChangeList) (groups : List GroupFiles) (size : ℕ) →
        StandFor list entity groups (W.changes window.old) size (W.first_step window.old) (W.next_number window.old) →
        cursors.now ≡ places_from first.now groups →
        IfOk result (IsNext (λ k. times list.changes entity k numbers.from numbers.to) first.now) }
    ensures least { IfOk result (λ next. IfSome next (λ k. IsLeast k cursors.now)) }
    ensures later { W.later window.old window.new }
    ensures cause { HasCause ReadError.Keeper (W.faults window.old) (W.faults window.new) result }
{
    let behind = window.keys(alloc, entity, first, numbers.from, numbers.to, 1)?;
    key_copied(alloc, lesser(least(cursors), first_key(&behind)))
}
