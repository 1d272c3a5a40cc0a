//! The value of a key just before a number.
ghost use Rattle.std.specs.Prelude.{◌≡◌, ◌*◌, map, Some, IfOk, IfSome, IfErr};
ghost use Rattle.std.specs.Arc.{arc_value};
ghost use Rattle.std.specs.Option.{option_copied};
ghost use Rattle.agg_outside.specs.Counts.{HasCause};
ghost use Rattle.agg_model.specs.ChangeList.{value_of_act};
ghost use Rattle.agg_model.specs.Pairs.{held_value, newest_word};
ghost use Rattle.collate_step.specs.Groups.{pairs_for};
ghost use Rattle.hot_keeper.specs.declared.error.ReadError.TheVariants.{Memory as NoMemory};
ghost use Rattle.window_laws.specs.Parts.{value_found};
ghost use Rattle.window_reads.specs.Standing.{parts_for};
ghost use Rattle.window_reads.specs.Folds.{value_left};

use crate::copies::value_in;
use crate::looks::{before_in_files, newest_in_files};
use crate::window::Window;
use agg_model::{Act, Entity};
use agg_outside::Bytes;
use collate_step::EntityFiles;
use hot_keeper::ReadError;
use std::alloc::Global;
use std::sync::Arc;

/// The value that an act leaves.
pub fn value_of_act(act: Act) -> Option<Bytes>
    ensures { result ≡ value_of_act act }
{
    match act {
        Act::Put(value) => Some(value),
        Act::Del => None,
        Act::Mark => None,
    }
}

// The value that the act leaves, or where there is none the one at the end of the files.
fn value_left(
    alloc: Global,
    files: &[Arc<EntityFiles>],
    entity: Entity,
    key: &[u8],
    act: Option<Act>,
) -> Result<Option<Bytes>, ReadError>
    ensures ok { IfOk result (λ value. value
        ≡ value_left (held_value (newest_word (pairs_for entity (map (λ g. arc_value g) files.now)) key.now)) act) }
    ensures err { IfErr result (λ e. e ≡ NoMemory) }
{
    match act {
        Some(act) => Ok(value_of_act(act)),
        None => value_in(alloc, newest_in_files(entity, files, key)),
    }
}

/// The value of a key just before `n`. Below the end of the files they alone are looked into, and from there on the
/// window first.
pub(crate) fn value_before<W: Window>(
    alloc: Global,
    files: &[Arc<EntityFiles>],
    window: &mut W,
    size: u64,
    entity: Entity,
    n: u64,
    key: &[u8],
) -> Result<Option<Bytes>, ReadError>
    ensures value { IfSome (W.changes window.old) (λ cs. IfOk result (λ value. value
        ≡ value_found (parts_for size entity (map (λ g. arc_value g) files.now)) cs entity key.now
        (W.first_step window.old * size) n)) }
    ensures later { W.later window.old window.new }
    ensures cause { HasCause ReadError.Keeper (W.faults window.old) (W.faults window.new) result }
{
    let end = u128::from(window.end()) * u128::from(size);
    if u128::from(n) < end {
        return value_in(alloc, before_in_files(entity, files, size, key, n));
    }
    let act = window.last(alloc, entity, key, n)?;
    value_left(alloc, files, entity, key, act)
}
