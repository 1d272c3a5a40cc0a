ghost use Rattle.std.specs.Prelude.{◌≡◌, ℕ, List, ◌++◌, length};
ghost use Rattle.std.specs.Option.{option_copied};
ghost use Rattle.std.specs.List.Sorted.{IsPermutation};
ghost use Rattle.agg_model.specs.Place.{place};
ghost use Rattle.agg_model.specs.ChangeList.{ChangeList, IsChangeList, is_of_before, value_at, value_of};
ghost use Rattle.agg_model.specs.Batch.{HasNoRepeats};
ghost use Rattle.agg_model.specs.Arranged.{arranged_from, arranged, Ascend, last_before, value_for};
ghost use Rattle.agg_model.specs.declared.change.Change.{Change};

use crate::change::{Act, Batch, Change};
use crate::entity::Entity;
use agg_outside::Bytes;

// Whether the change is one of this entity and key, with a number below `before`.
#[tactic(auto, unfolding(crate::specs::Place::is_of, crate::specs::ChangeList::is_of_before))]
fn is_earlier(change: &Change, entity: Entity, key: &[u8], before: u64) -> bool
    ensures { result ≡ is_of_before entity key.now before change.now }
{
    change.entity.number() == entity.number() && change.key.as_slice() == key && change.tx < before
}

fn value(change: &Change) -> Option<&Bytes>
    ensures { option_copied result ≡ value_of change.now }
{
    match &change.act {
        Act::Put(value) => Some(value),
        Act::Del => None,
        Act::Mark => None,
    }
}

/// The value of a key just before the number `before`, by going through all changes: what each
/// faster look-up has to answer.
pub fn plain_value_at<'a>(
    changes: &'a Batch,
    entity: Entity,
    key: &[u8],
    before: u64,
) -> Option<&'a Bytes>
    ensures { option_copied result ≡ value_at changes.now entity key.now before }
{
    let mut found = None;
    for change in changes.as_slice() {
        if is_earlier(change, entity, key, before) {
            found = value(change);
        }
    }
    found
}

/// What holds of the changes of every list once they are sorted by entity, key and number.
pub fn arranged_laws()
    // Further changes can be put in later.
    ensures append { (cs ds : List Change) → arranged (cs ++ ds) ≡ arranged_from (arranged cs) ds }
    ensures same { (cs : List Change) → IsPermutation cs (arranged cs) }
    ensures ascend { (cs : List Change) → HasNoRepeats cs → Ascend (arranged cs) }
{}

/// A key's value just before a number is told by the last sorted change before that place.
pub fn look_up_law(entity: Entity, key: &[u8], before: u64)
    ensures { (list : ChangeList) → IsChangeList list →
        value_at list.changes entity key.now before
        ≡ value_for entity key.now (last_before (place entity key.now before) (arranged list.changes)) }
{}
