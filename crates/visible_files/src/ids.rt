ghost use Rattle.std.specs.Prelude.{◌≡◌, nat_lt, false, IfOk};
ghost use Rattle.agg_model.specs.declared.entity.Entity.TheVariants.{Accounts};
ghost use Rattle.merge_ranges.specs.Cut.{end_of};
ghost use Rattle.visible_files.specs.Ids.{same_id, place, places, Rises, Ascends, IsLowerBound, contains_id, is_covered, covers, ranges_of, same_entity};
ghost use Rattle.visible_files.specs.declared.ids.GroupId.{GroupId};

use agg_model::{Entity, Range};
use agg_outside::Memory;
use merge_ranges::Cut;
use std::alloc::Global;

/// What tells groups apart: the entity and the steps.
#[derive(Clone, Copy, Debug, PartialEq, Eq)]
pub struct GroupId {
    pub entity: Entity,
    pub range: Range,
}

/// By the number of the entity, then by the first step, then by the end.
#[tactic(auto, unfolding(crate::specs::Ids::place))]
pub(crate) fn is_before(a: GroupId, b: GroupId) -> bool
    ensures { result ≡ nat_lt (place a) (place b) }
{
    let first = a.entity.number();
    let second = b.entity.number();
    if first != second {
        return first < second;
    }
    if a.range.from != b.range.from {
        return a.range.from < b.range.from;
    }
    a.range.to < b.range.to
}

#[tactic(auto, unfolding(crate::specs::Ids::same_id, crate::specs::Ids::place))]
pub(crate) fn is_same(a: GroupId, b: GroupId) -> bool
    ensures same { result ≡ same_id a b }
    ensures apart { result ≡ false → place a ≡ place b → ⊥ }
{
    if a.entity.number() != b.entity.number() {
        return false;
    }
    a.range.from == b.range.from && a.range.to == b.range.to
}

/// How many are before the id, by a binary search.
pub(crate) fn place_among(ids: &[GroupId], id: GroupId) -> usize
    requires { Rises 0 (places ids.now) }
    ensures { IsLowerBound place ids.now (place id) result }
{
    ids.partition_point(|other| is_before(*other, id))
}

/// Whether the id is one of these, by a binary search.
pub(crate) fn contains(ids: &[GroupId], id: GroupId) -> bool
    requires { Ascends 0 (places ids.now) }
    ensures { result ≡ contains_id ids.now id }
{
    let at = place_among(ids, id);
    if at < ids.len() {
        is_same(ids[at], id)
    } else {
        false
    }
}

#[tactic(auto, unfolding(crate::specs::Ids::covers))]
fn does_cover(a: GroupId, b: GroupId) -> bool
    ensures { result ≡ covers a b }
{
    a.entity.number() == b.entity.number()
        && a.range.from <= b.range.from
        && b.range.to <= a.range.to
}

/// Whether one of these has all steps of the id.
pub(crate) fn is_within(ids: &[GroupId], id: GroupId) -> bool
    ensures { result ≡ is_covered ids.now id }
{
    for other in ids {
        if does_cover(*other, id) {
            return true;
        }
    }
    false
}

pub(crate) fn is_of(id: GroupId, entity: Entity) -> bool
    ensures { result ≡ same_entity id.entity entity }
{
    id.entity.number() == entity.number()
}

/// The ranges of the entity, in order.
pub(crate) fn cut_of(alloc: Global, ids: &[GroupId], entity: Entity) -> Result<Cut, Memory>
    ensures { IfOk result (λ cut. cut ≡ ranges_of entity ids.now) }
{
    let mut cut = Cut::new(alloc);
    for id in ids {
        if is_of(*id, entity) {
            cut.push(id.range)?;
        }
    }
    Ok(cut)
}

fn is_of_accounts(id: GroupId) -> bool
    ensures { result ≡ same_entity id.entity Accounts }
{
    id.entity.number() == Entity::Accounts.number()
}

/// Where the ranges of the first entity end.
pub(crate) fn end_of_ids(ids: &[GroupId]) -> u64
    ensures { result ≡ end_of (ranges_of Accounts ids.now) }
{
    let mut end = 0;
    for id in ids {
        if is_of_accounts(*id) {
            end = id.range.to;
        }
    }
    end
}
