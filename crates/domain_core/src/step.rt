//! The pairs of the file of one step, from the changes in it.
ghost use Rattle.std.specs.Prelude.{◌≡◌, ◌+◌, IfOk, is_none};
ghost use Rattle.agg_model.specs.ChangeList.{ChangeList, IsChangeList, value_of, value_of_act};
ghost use Rattle.agg_model.specs.Contents.{changes_over, goes_on, kv_contents, word_of};
ghost use Rattle.agg_model.specs.LastChanges.{is_left_out, pair_of, step_pairs};
ghost use Rattle.agg_model.specs.declared.entity.Entity.{Entity};

use agg_model::{Act, Change, Pair, Pairs};
use agg_outside::{Bytes, Memory};
use std::alloc::Global;

// Whether the next change is one of this key too.
fn goes_on(key: &Bytes, rest: &[Change]) -> bool
    ensures { result ≡ goes_on key.now rest.now }
{
    match rest.first() {
        Some(next) => key.as_slice() == next.key.as_slice(),
        None => false,
    }
}

fn leaves_none(act: &Act) -> bool
    ensures { result ≡ is_none (value_of_act act.now) }
{
    match act {
        Act::Put(_) => false,
        Act::Del => true,
        Act::Mark => true,
    }
}

fn word_left(act: &Act) -> &[u8]
    ensures { result.now ≡ word_of (value_of_act act.now) }
{
    match act {
        Act::Put(value) => value.as_slice(),
        Act::Del => &[],
        Act::Mark => &[],
    }
}

// Whether the change has no pair of its own: another one of the key follows, or there is no value
// that a file of the first step would have to take from an earlier one.
fn is_left_out(step: u64, change: &Change, rest: &[Change]) -> bool
    ensures { result ≡ is_left_out step change.now rest.now }
{
    goes_on(&change.key, rest) || (step == 0 && leaves_none(&change.act))
}

fn pair_of(alloc: Global, change: &Change) -> Result<Pair, Memory>
    ensures { IfOk result (λ pair. pair ≡ pair_of change.now) }
{
    let key = change.key.copy(alloc)?;
    let value = Bytes::of(alloc, word_left(&change.act))?;
    Ok(Pair { key, value })
}

fn pairs_of(alloc: Global, step: u64, changes: &[Change]) -> Result<Pairs, Memory>
    ensures { IfOk result (λ pairs. pairs ≡ step_pairs step changes.now) }
{
    let mut pairs = Pairs::new(alloc);
    for i in 0..changes.len() {
        let change = &changes[i];
        if !is_left_out(step, change, &changes[i + 1..]) {
            pairs.push(pair_of(alloc, change)?)?;
        }
    }
    Ok(pairs)
}

/// The pairs of the file of one step, from the changes of the entity in it, sorted by key and number.
pub fn step_pairs(alloc: Global, step: u64, changes: &[Change]) -> Result<Pairs, Memory>
    ensures { (list : ChangeList) (e : Entity) → IsChangeList list →
        changes.now ≡ changes_over list.size list.changes e step (step + 1) →
        IfOk result (λ pairs. pairs ≡ kv_contents list.size list.changes e step (step + 1)) }
{
    pairs_of(alloc, step, changes)
}
