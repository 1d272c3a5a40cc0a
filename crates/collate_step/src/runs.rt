//! Changes by entity, as they stand behind one another.
ghost use Rattle.std.specs.Prelude.{◌≡◌, ℕ, ◌≤◌, ◌<◌, ◌↔◌, length, All, IsTrue, slice_get, Some};
ghost use Rattle.std.specs.List.{filter};
ghost use Rattle.agg_model.specs.Entity.{entity_number};
ghost use Rattle.agg_model.proofs.ArrangedLaws.{IsInOrder};
ghost use Rattle.collate_step.specs.Runs.{is_numbered, is_behind};

use agg_model::{Change, Entity};

// Whether the change is one of the entity.
fn is_of(entity: Entity, change: &Change) -> bool
    ensures { IsTrue result ↔ (entity_number change.now.entity ≡ entity_number entity) }
{
    change.entity.number() == entity.number()
}

// How many of the first changes are of the entity.
fn run_length(entity: Entity, changes: &[Change]) -> usize
    ensures within { result ≤ length changes.now }
    ensures run { (place : ℕ) (c : Change) → place < result → slice_get changes.now place ≡ Some c → entity_number c.entity ≡ entity_number entity }
    ensures ends { (c : Change) → slice_get changes.now result ≡ Some c → entity_number c.entity ≡ entity_number entity → ⊥ }
{
    for place in 0..changes.len() {
        if !is_of(entity, &changes[place]) {
            return place;
        }
    }
    changes.len()
}

/// The first changes, as far as they are of this entity, and the others.
pub(crate) fn split_run(entity: Entity, changes: &[Change]) -> (&[Change], &[Change])
    ensures run { IsInOrder changes.now → All (λ c. entity_number entity ≤ entity_number c.entity) changes.now →
        result.0.now ≡ filter (is_numbered (entity_number entity)) changes.now }
    ensures rest { IsInOrder changes.now → All (λ c. entity_number entity ≤ entity_number c.entity) changes.now →
        result.1.now ≡ filter (is_behind (entity_number entity)) changes.now }
{
    changes.split_at(run_length(entity, changes))
}
