//! The reads: each is lent the files and the window, and nothing else.
ghost use Rattle.std.specs.Prelude.{◌≡◌, ◌≤◌, map, IfOk};
ghost use Rattle.std.specs.Arc.{arc_value};
ghost use Rattle.agg_outside.specs.Counts.{HasCause};
ghost use Rattle.agg_model.specs.ChangeList.{ChangeList, latest, as_of};
ghost use Rattle.agg_model.specs.Listed.{index, limited};
ghost use Rattle.collate_step.specs.Groups.{IsDomain};
ghost use Rattle.window_reads.specs.Standing.{Stand};

use crate::numbers::numbers_found;
use crate::page::{TimesPage, page_of};
use crate::value::value_before;
use crate::window::Window;
use agg_model::{Entity, Range};
use agg_outside::Bytes;
use collate_step::EntityFiles;
use hot_keeper::ReadError;
use std::alloc::Global;
use std::sync::Arc;

/// The value of a key of a domain at the end of the list.
pub fn read_latest<W: Window>(
    alloc: Global,
    files: &[Arc<EntityFiles>],
    window: &mut W,
    size: u64,
    entity: Entity,
    key: &[u8],
) -> Result<Option<Bytes>, ReadError>
    ensures value { (list : ChangeList) →
        Stand list (map (λ g. arc_value g) files.now) (W.changes window.old) size (W.first_step window.old)
        (W.next_number window.old) →
        IsDomain entity → IfOk result (λ value. value ≡ latest list entity key.now) }
    ensures later { W.later window.old window.new }
    ensures cause { HasCause ReadError.Keeper (W.faults window.old) (W.faults window.new) result }
{
    let next = window.at();
    value_before(alloc, files, window, size, entity, next, key)
}

/// The value of a key of a domain just before the number `n`.
pub fn read_as_of<W: Window>(
    alloc: Global,
    files: &[Arc<EntityFiles>],
    window: &mut W,
    size: u64,
    entity: Entity,
    n: u64,
    key: &[u8],
) -> Result<Option<Bytes>, ReadError>
    ensures value { (list : ChangeList) →
        Stand list (map (λ g. arc_value g) files.now) (W.changes window.old) size (W.first_step window.old)
        (W.next_number window.old) →
        IsDomain entity → IfOk result (λ value. value ≡ as_of list entity key.now n) }
    ensures later { W.later window.old window.new }
    ensures cause { HasCause ReadError.Keeper (W.faults window.old) (W.faults window.new) result }
{
    value_before(alloc, files, window, size, entity, n, key)
}

/// The first `limit` numbers from `a` on and below `b` at which a key changed, from the last one down where `back`.
pub fn read_index<W: Window>(
    alloc: Global,
    files: &[Arc<EntityFiles>],
    window: &mut W,
    size: u64,
    entity: Entity,
    key: &[u8],
    a: u64,
    b: u64,
    back: bool,
    limit: usize,
) -> Result<TimesPage, ReadError>
    requires { limit ≤ 1000 }
    ensures page { (list : ChangeList) →
        Stand list (map (λ g. arc_value g) files.now) (W.changes window.old) size (W.first_step window.old)
        (W.next_number window.old) →
        IfOk result (λ page. (page.items, page.more)
        ≡ limited (λ t. t) limit (index list.changes entity key.now a b back)) }
    ensures later { W.later window.old window.new }
    ensures cause { HasCause ReadError.Keeper (W.faults window.old) (W.faults window.new) result }
{
    let numbers = Range { from: a, to: b };
    let found = numbers_found(alloc, files, window, entity, key, numbers, back, limit + 1)?;
    Ok(page_of(found, limit))
}
