//! Whether groups go on one after the other.
ghost use Rattle.std.specs.Prelude.{◌≡◌, ◌==◌, ◌&&◌, ◌||◌, not, map};
ghost use Rattle.std.specs.Arc.{arc_value};
ghost use Rattle.agg_model.specs.Entity.{entity_number};
ghost use Rattle.merge_files.specs.Adjacent.{first_gap};

use agg_model::{Entity, Range};
use collate_step::EntityFiles;
use std::sync::Arc;

// Whether the first of the groups is of the entity and begins at `from`; where it is the last, it ends at `to`.
fn goes_on(entity: Entity, to: u64, from: u64, group: &EntityFiles, is_last: bool) -> bool
    ensures { result ≡ ((entity_number group.now.entity == entity_number entity) && ((group.now.range.from == from) && (not is_last || (group.now.range.to == to)))) }
{
    let range = group.range();
    group.entity().number() == entity.number() && range.from == from && (!is_last || range.to == to)
}

/// The place of the first group that doesn't go on, of those that should be one over the range.
pub(crate) fn first_gap(groups: &[Arc<EntityFiles>], range: Range) -> Option<usize>
    ensures { result ≡ first_gap (map (λ g. arc_value g) groups.now) range }
{
    if groups.is_empty() {
        return Some(0);
    }
    let entity = groups[0].entity();
    let mut from = range.from;
    for i in 0..groups.len() {
        let is_last = i + 1 == groups.len();
        if !goes_on(entity, range.to, from, &groups[i], is_last) {
            return Some(i);
        }
        from = groups[i].range().to;
    }
    None
}
