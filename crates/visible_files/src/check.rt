ghost use Rattle.std.specs.Prelude.{◌≡◌, ◌==◌, ◌&&◌, true, map, IfOk};
ghost use Rattle.std.specs.Arc.{arc_value};
ghost use Rattle.merge_ranges.specs.Cut.{is_aligned};
ghost use Rattle.visible_files.specs.Ids.{id_with, ranges_of, in_order, replaced_by, is_cut_to, are_cuts, AreCuts};

use crate::ids::{GroupId, is_of};
use crate::set::{FileSet, copies, ids_of, put_all, uncovered};
use agg_model::{Entity, Range};
use agg_outside::Memory;
use merge_ranges::{Group, is_aligned_range};
use std::alloc::Global;
use std::sync::Arc;

fn continues(range: Range, at: u64) -> bool
    ensures { result ≡ ((range.from == at) && is_aligned range) }
{
    range.from == at && is_aligned_range(range)
}

// Whether the ranges of the entity are a cut with this end.
fn is_cut_of(ids: &[GroupId], entity: Entity, end: u64) -> bool
    ensures { result ≡ is_cut_to 0 (ranges_of entity ids.now) end }
{
    let mut at = 0;
    for id in ids {
        if is_of(*id, entity) {
            if !continues(id.range, at) {
                return false;
            }
            at = id.range.to;
        }
    }
    at == end
}

fn are_all_cuts(ids: &[GroupId], end: u64) -> bool
    ensures { result ≡ are_cuts ids.now end }
{
    let accounts = is_cut_of(ids, Entity::Accounts, end);
    let storage = is_cut_of(ids, Entity::Storage, end);
    let code = is_cut_of(ids, Entity::Code, end);
    let addresses = is_cut_of(ids, Entity::LogAddrs, end);
    let topics = is_cut_of(ids, Entity::LogTopics, end);
    let from = is_cut_of(ids, Entity::TracesFrom, end);
    let to = is_cut_of(ids, Entity::TracesTo, end);
    accounts && storage && code && addresses && topics && from && to
}

/// Whether the groups can be a first set: the ranges of each entity are a cut with this end.
pub fn can_begin<G: Group + Drop>(
    alloc: Global,
    groups: &[Arc<G>],
    end: u64,
) -> Result<bool, Memory>
    ensures cuts { IfOk result (λ can. can ≡ true → AreCuts (map (id_with G.entity_of G.range_of)
        (in_order (id_with G.entity_of G.range_of) (map (λ g. arc_value g) groups.now))) end) }
    ensures only { IfOk result (λ can. AreCuts (map (id_with G.entity_of G.range_of)
        (in_order (id_with G.entity_of G.range_of) (map (λ g. arc_value g) groups.now))) end → can ≡ true) }
{
    let added = copies(alloc, groups)?;
    let mut all = Vec::new(alloc);
    let mut ids = Vec::new(alloc);
    put_all(&mut all, &mut ids, added)?;
    Ok(are_all_cuts(ids.as_slice(), end))
}

/// Whether the ranges of each entity are a cut with this end once the added groups have replaced
/// those of the set that they cover.
pub fn can_follow<G: Group + Drop>(
    alloc: Global,
    set: &FileSet<G>,
    added: &[Arc<G>],
    end: u64,
) -> Result<bool, Memory>
    ensures cuts { IfOk result (λ can. can ≡ true → AreCuts (map (id_with G.entity_of G.range_of)
        (replaced_by (id_with G.entity_of G.range_of) set.now.groups (map (λ g. arc_value g) added.now))) end) }
    ensures only { IfOk result (λ can. AreCuts (map (id_with G.entity_of G.range_of)
        (replaced_by (id_with G.entity_of G.range_of) set.now.groups (map (λ g. arc_value g) added.now))) end →
        can ≡ true) }
{
    let covering = ids_of(alloc, added)?;
    let mut groups = uncovered(alloc, set, &covering)?;
    let mut ids = ids_of(alloc, &groups)?;
    put_all(&mut groups, &mut ids, copies(alloc, added)?)?;
    Ok(are_all_cuts(ids.as_slice(), end))
}
