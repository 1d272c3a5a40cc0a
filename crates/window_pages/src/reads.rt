//! The reads that list rows: each is lent the files and the window, and nothing else.
ghost use Rattle.std.specs.Prelude.{◌≡◌, [], map, unwrap_or, IfOk, IfErr};
ghost use Rattle.std.specs.Arc.{arc_value};
ghost use Rattle.std.specs.Option.{option_copied};
ghost use Rattle.agg_outside.specs.Counts.{HasCause};
ghost use Rattle.agg_model.specs.ChangeList.{ChangeList};
ghost use Rattle.agg_model.specs.Listed.{range, history, limited};
ghost use Rattle.collate_step.specs.Groups.{IsDomain};
ghost use Rattle.hot_keeper.specs.declared.error.ReadError.TheVariants.{Memory as NoMemory};
ghost use Rattle.window_reads.specs.Standing.{Stand};

use crate::asked::Asked;
use crate::keys::key_copied;
use crate::pages::{Page, page_from};
use agg_model::Entity;
use agg_outside::Bytes;
use collate_step::EntityFiles;
use std::alloc::Global;
use std::sync::Arc;
use window_reads::{ReadError, Window, copied};

/// The keys from one on and under another, where there are such bounds, that have a value just before `n`, each with
/// that value: the first `limit` of them.
pub fn read_range<W: Window>(
    alloc: Global,
    files: &[Arc<EntityFiles>],
    window: &mut W,
    size: u64,
    entity: Entity,
    n: u64,
    from: Option<&[u8]>,
    to: Option<&[u8]>,
    limit: usize,
) -> Result<Page, ReadError>
    ensures page { (list : ChangeList) →
        Stand list (map (λ g. arc_value g) files.now) (W.changes window.old) size (W.first_step window.old)
        (W.next_number window.old) →
        IsDomain entity → IfOk result (λ page. (page.rows, page.more) ≡ limited (λ r. r.key) limit
        (range list.changes entity n (option_copied from.entry) (option_copied to.entry))) }
    ensures later { W.later window.old window.new }
    ensures cause { HasCause ReadError.Keeper (W.faults window.old) (W.faults window.new) result }
{
    let bound = key_copied(alloc, to)?;
    let start = start_of(alloc, from)?;
    let asked = Asked::Values { n, to: bound };
    page_from(alloc, files, window, size, entity, &asked, start, limit)
}

/// The keys from one on, where there is such a bound, that changed from `a` on and below `b`, each with its value
/// just before `a`: the first `limit` of them.
pub fn read_history<W: Window>(
    alloc: Global,
    files: &[Arc<EntityFiles>],
    window: &mut W,
    size: u64,
    entity: Entity,
    a: u64,
    b: u64,
    from: Option<&[u8]>,
    limit: usize,
) -> Result<Page, ReadError>
    ensures page { (list : ChangeList) →
        Stand list (map (λ g. arc_value g) files.now) (W.changes window.old) size (W.first_step window.old)
        (W.next_number window.old) →
        IsDomain entity → IfOk result (λ page. (page.rows, page.more) ≡ limited (λ r. r.key) limit
        (history list.changes entity a b (option_copied from.entry))) }
    ensures later { W.later window.old window.new }
    ensures cause { HasCause ReadError.Keeper (W.faults window.old) (W.faults window.new) result }
{
    let start = start_of(alloc, from)?;
    let asked = Asked::Changes { from: a, to: b };
    page_from(alloc, files, window, size, entity, &asked, start, limit)
}

// The key that the walk begins at: the bound, or the empty one.
fn start_of(alloc: Global, from: Option<&[u8]>) -> Result<Bytes, ReadError>
    ensures ok { IfOk result (λ start. start ≡ unwrap_or (option_copied from.entry) []) }
    ensures err { IfErr result (λ e. e ≡ NoMemory) }
{
    let bytes: &[u8] = match from {
        Some(bound) => bound,
        None => &[],
    };
    copied(alloc, bytes)
}
