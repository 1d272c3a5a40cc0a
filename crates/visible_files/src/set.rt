ghost use Rattle.std.specs.Prelude.{◌≡◌, ℕ, [], ◌∷◌, ◌++◌, map, filter, not, IfOk, OnOk};
ghost use Rattle.std.specs.Arc.{arc_value};
ghost use Rattle.visible_files.specs.Ids.{id_with, places, Rises, placed, all_placed, in_order, replaced_by, is_covered, AreCuts, IsSet, Replaces, ranges_of};
ghost use Rattle.merge_ranges.specs.Cut.{IsCut};
ghost use Rattle.visible_files.specs.Sets.{IsFileSet};

use crate::ids::{GroupId, cut_of, end_of_ids, is_within, place_among};
use agg_model::Entity;
use agg_outside::Memory;
use merge_ranges::{Cut, Group};
use std::alloc::Global;
use std::marker::Model;
use std::sync::Arc;

/// Groups by entity and first step, of which each entity's are adjacent from step 0 on and end at
/// one step.
#[derive(Drop)]
pub struct FileSet<G: Group> {
    groups: Vec<Arc<G>>,
    ids: Vec<GroupId>,
    end: u64,
}

impl<G: Group> Model for FileSet<G> {
    ghost use Rattle.std.specs.Prelude.{map};
    ghost use Rattle.std.specs.Arc.{arc_value};
    ghost use Rattle.visible_files.specs.Sets.{SetOf, IsFileSet};

    ghost Value = { SetOf G };

    ghost view = { λ s. record { groups = map (λ g. arc_value g) s.groups.items; ids = s.ids.items; end = s.end } };

    ghost invariant = { λ s. IsFileSet G.entity_of G.range_of
        (map (λ g. arc_value g) s.groups.items) s.ids.items s.end };
}

impl<G: Group> FileSet<G> {
    /// The groups by entity and first step.
    pub fn groups(&self) -> &[Arc<G>]
        ensures value { map (λ g. arc_value g) result.now ≡ self.now.groups }
        ensures set { IsFileSet G.entity_of G.range_of self.now.groups self.now.ids self.now.end }
    {
        self.groups.as_slice()
    }

    /// The step at which the groups of each entity end.
    pub fn end(&self) -> u64
        ensures { result ≡ self.now.end }
    {
        self.end
    }

    /// The ranges of the entity's groups, in order.
    pub fn cut(&self, alloc: Global, entity: Entity) -> Result<Cut, Memory>
        ensures ranges { IfOk result (λ cut. cut ≡ ranges_of entity self.now.ids) }
        ensures cut { IfOk result (λ cut. IsCut cut) }
    {
        cut_of(alloc, self.ids(), entity)
    }

    pub(crate) fn ids(&self) -> &[GroupId]
        ensures value { result.now ≡ self.now.ids }
        ensures set { IsSet self.now.ids self.now.end }
    {
        self.ids.as_slice()
    }
}

/// Puts the group to its place.
fn put<G: Group + Drop>(
    groups: &mut Vec<Arc<G>>,
    ids: &mut Vec<GroupId>,
    group: Arc<G>,
) -> Result<(), Memory>
    requires same { ids.old.items ≡ map (id_with G.entity_of G.range_of) (map (λ g. arc_value g) groups.old.items) }
    requires order { Rises 0 (places ids.old.items) }
    ensures groups { OnOk result (map (λ g. arc_value g) groups.new.items
        ≡ placed (id_with G.entity_of G.range_of) (arc_value group) (map (λ g. arc_value g) groups.old.items)) }
    ensures same { OnOk result (ids.new.items
        ≡ map (id_with G.entity_of G.range_of) (map (λ g. arc_value g) groups.new.items)) }
    ensures order { OnOk result (Rises 0 (places ids.new.items)) }
{
    let id = GroupId {
        entity: group.entity(),
        range: group.range(),
    };
    let at = place_among(ids.as_slice(), id);
    groups.insert(at, group)?;
    ids.insert(at, id)?;
    Ok(())
}

/// Puts each of the groups to its place.
pub(crate) fn put_all<G: Group + Drop>(
    groups: &mut Vec<Arc<G>>,
    ids: &mut Vec<GroupId>,
    added: Vec<Arc<G>>,
) -> Result<(), Memory>
    requires same { ids.old.items ≡ map (id_with G.entity_of G.range_of) (map (λ g. arc_value g) groups.old.items) }
    requires order { Rises 0 (places ids.old.items) }
    ensures groups { OnOk result (map (λ g. arc_value g) groups.new.items
        ≡ all_placed (id_with G.entity_of G.range_of) (map (λ g. arc_value g) added.items)
        (map (λ g. arc_value g) groups.old.items)) }
    ensures same { OnOk result (ids.new.items
        ≡ map (id_with G.entity_of G.range_of) (map (λ g. arc_value g) groups.new.items)) }
    ensures order { OnOk result (Rises 0 (places ids.new.items)) }
{
    for group in added {
        put(groups, ids, group)?;
    }
    Ok(())
}

/// Each of the groups once more.
pub(crate) fn copies<G: Group + Drop>(
    alloc: Global,
    groups: &[Arc<G>],
) -> Result<Vec<Arc<G>>, Memory>
    ensures { IfOk result (λ copies. map (λ g. arc_value g) copies.items ≡ map (λ g. arc_value g) groups.now) }
{
    let mut copies = Vec::new(alloc);
    for group in groups {
        copies.push(Arc::try_clone(group)?)?;
    }
    Ok(copies)
}

/// The ids of the groups.
pub(crate) fn ids_of<G: Group>(alloc: Global, groups: &[Arc<G>]) -> Result<Vec<GroupId>, Memory>
    ensures { IfOk result (λ ids. ids.items
        ≡ map (id_with G.entity_of G.range_of) (map (λ g. arc_value g) groups.now)) }
{
    let mut ids = Vec::new(alloc);
    for group in groups {
        ids.push(GroupId {
            entity: group.entity(),
            range: group.range(),
        })?;
    }
    Ok(ids)
}

fn id_of<G: Group>(group: &Arc<G>) -> GroupId
    ensures { result ≡ id_with G.entity_of G.range_of (arc_value group.now) }
{
    GroupId {
        entity: group.entity(),
        range: group.range(),
    }
}

// The group, unless one of these covers it.
fn keep_uncovered<G: Group + Drop>(
    groups: &mut Vec<Arc<G>>,
    group: &Arc<G>,
    added: &[GroupId],
) -> Result<(), Memory>
    ensures { OnOk result (map (λ g. arc_value g) groups.new.items ≡ map (λ g. arc_value g) groups.old.items
        ++ filter (λ g. not (is_covered added.now (id_with G.entity_of G.range_of g))) (arc_value group.now ∷ [])) }
{
    if is_within(added, id_of(group)) {
        return Ok(());
    }
    groups.push(Arc::try_clone(group)?)?;
    Ok(())
}

/// The groups of the set that none of these covers.
pub(crate) fn uncovered<G: Group + Drop>(
    alloc: Global,
    set: &FileSet<G>,
    added: &[GroupId],
) -> Result<Vec<Arc<G>>, Memory>
    ensures groups { IfOk result (λ groups. map (λ g. arc_value g) groups.items
        ≡ filter (λ g. not (is_covered added.now (id_with G.entity_of G.range_of g))) set.now.groups) }
    ensures same { IfOk result (λ groups. set.now.ids ≡ map (id_with G.entity_of G.range_of) set.now.groups) }
    ensures order { IfOk result (λ groups.
        Rises 0 (places (map (id_with G.entity_of G.range_of) (map (λ g. arc_value g) groups.items)))) }
{
    let mut groups = Vec::new(alloc);
    for group in set.groups() {
        keep_uncovered(&mut groups, group, added)?;
    }
    Ok(groups)
}

/// A set of groups that are in order.
fn made<G: Group>(groups: Vec<Arc<G>>, ids: Vec<GroupId>) -> FileSet<G>
    requires same { ids.items ≡ map (id_with G.entity_of G.range_of) (map (λ g. arc_value g) groups.items) }
    requires order { Rises 0 (places ids.items) }
    requires cuts { (end : ℕ) × AreCuts ids.items end }
    ensures groups { result.groups ≡ map (λ g. arc_value g) groups.items }
    ensures ids { result.ids ≡ ids.items }
    ensures set { IsFileSet G.entity_of G.range_of result.groups result.ids result.end }
    ensures end { (end : ℕ) → AreCuts ids.items end → result.end ≡ end }
{
    let end = end_of_ids(&ids);
    FileSet { groups, ids, end }
}

/// A set of these groups, brought into order.
pub(crate) fn arranged<G: Group + Drop>(
    alloc: Global,
    set: Vec<Arc<G>>,
) -> Result<FileSet<G>, Memory>
    requires { (end : ℕ) × AreCuts (map (id_with G.entity_of G.range_of)
        (in_order (id_with G.entity_of G.range_of) (map (λ g. arc_value g) set.items))) end }
    ensures groups { IfOk result (λ made. made.groups
        ≡ in_order (id_with G.entity_of G.range_of) (map (λ g. arc_value g) set.items)) }
    ensures set { IfOk result (λ made. IsFileSet G.entity_of G.range_of made.groups made.ids made.end) }
    ensures end { IfOk result (λ made. (end : ℕ) →
        AreCuts (map (id_with G.entity_of G.range_of) made.groups) end → made.end ≡ end) }
{
    let mut groups = Vec::new(alloc);
    let mut ids = Vec::new(alloc);
    put_all(&mut groups, &mut ids, set)?;
    Ok(made(groups, ids))
}

/// The set in which the added groups have replaced those that they cover.
pub(crate) fn replacing<G: Group + Drop>(
    alloc: Global,
    set: &FileSet<G>,
    added: Vec<Arc<G>>,
) -> Result<FileSet<G>, Memory>
    requires { (end : ℕ) × AreCuts (map (id_with G.entity_of G.range_of)
        (replaced_by (id_with G.entity_of G.range_of) set.now.groups (map (λ g. arc_value g) added.items))) end }
    ensures groups { IfOk result (λ made. made.groups
        ≡ replaced_by (id_with G.entity_of G.range_of) set.now.groups (map (λ g. arc_value g) added.items)) }
    ensures replaces { IfOk result (λ made. Replaces set.now.ids made.ids) }
    ensures set { IfOk result (λ made. IsFileSet G.entity_of G.range_of made.groups made.ids made.end) }
    ensures end { IfOk result (λ made. (end : ℕ) →
        AreCuts (map (id_with G.entity_of G.range_of) made.groups) end → made.end ≡ end) }
{
    let covering = ids_of(alloc, &added)?;
    let mut groups = uncovered(alloc, set, &covering)?;
    let mut ids = ids_of(alloc, &groups)?;
    put_all(&mut groups, &mut ids, added)?;
    Ok(made(groups, ids))
}
