//! The numbers of each key, from the sorted changes of an entity.
ghost use Rattle.std.specs.Prelude.{◌≡◌, [], IfOk};
ghost use Rattle.agg_model.specs.Contents.{goes_on};
ghost use Rattle.collate_step.specs.Runs.{runs_from};

use agg_model::{Change, Lists, Times};
use agg_outside::{Bytes, Memory, Numbers};
use std::alloc::Global;

// Whether the next change is one of this key too.
pub(crate) fn goes_on(key: &Bytes, rest: &[Change]) -> bool
    ensures { result ≡ goes_on key.now rest.now }
{
    match rest.first() {
        Some(next) => key.as_slice() == next.key.as_slice(),
        None => false,
    }
}

fn list_of(alloc: Global, key: &Bytes, items: Numbers) -> Result<Times, Memory>
    ensures { IfOk result (λ list. list ≡ record { key = key.now; items = items }) }
{
    let key = key.copy(alloc)?;
    Ok(Times { key, items })
}

/// The keys of sorted changes, each with its numbers.
pub(crate) fn step_lists(alloc: Global, changes: &[Change]) -> Result<Lists, Memory>
    ensures { IfOk result (λ lists. lists ≡ runs_from [] changes.now) }
{
    let mut lists = Lists::new(alloc);
    let mut items = Numbers::new(alloc);
    for i in 0..changes.len() {
        let change = &changes[i];
        items.push(change.tx)?;
        if !goes_on(&change.key, &changes[i + 1..]) {
            lists.push(list_of(alloc, &change.key, items)?)?;
            items = Numbers::new(alloc);
        }
    }
    Ok(lists)
}
