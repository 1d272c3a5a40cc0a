//! One more step: its groups, the set that they make with those below it, and its files.
ghost use Rattle.std.specs.Prelude.{◌≡◌, ◌*◌, ◌++◌, ◌<◌, ◌≤◌, ◌^◌, true, List, map, All, IfOk, IfErr, OnOk, OnErr, IfSome, is_some};
ghost use Rattle.std.specs.Arc.{arc_value};
ghost use Rattle.std.specs.Option.{ForSome};
ghost use Rattle.agg_outside.specs.Counts.{HasCause};
ghost use Rattle.agg_model.specs.Batch.{content_of};
ghost use Rattle.agg_model.specs.ChangeList.{ChangeList, IsChangeList};
ghost use Rattle.agg_model.specs.Entity.{is_domain_entity};
ghost use Rattle.agg_core.specs.Files.{HasExactly, SameOutside};
ghost use Rattle.collate_step.specs.Groups.{GroupFiles, AreGroupsBelow, step_groups};
ghost use Rattle.visible_files.specs.Sets.{IsFileSet};
ghost use Rattle.group_files.specs.NewFiles.{names_for};
ghost use Rattle.row_epochs.specs.Versions.{AreVersions};
ghost use Rattle.state_store.specs.Store.{SeesAll, IsLeft, HasPart, HasOneTemporary, step_names};
ghost use Rattle.state_store.specs.Settling.{IsOfStep, CanAdd, Follows, IsNextStep};

use crate::stop::Stop;
use agg_outside::{Disk, DiskError, Keeper, Memory};
use collate_step::{EntityFiles, Groups, collate};
use group_files::{exact_laws, name_laws, publish_groups, publish_laws};
use hot_keeper::Hot;
use merge_ranges::is_aligned_range;
use std::alloc::Global;
use std::rt::Clock;
use std::sync::{Arc, Wait};
use std::thread::Threads;
use visible_files::{FileSet, FileSets, Prepared, can_follow};

// How many groups a step has.
const STEP_GROUPS: usize = 7;

fn shared(alloc: Global, groups: Groups) -> Result<Vec<Arc<EntityFiles>>, Memory>
    ensures { IfOk result (λ shared. map (λ g. arc_value g) shared.items ≡ groups) }
{
    let mut shared = Vec::new(alloc);
    for group in groups.into_vec() {
        shared.push(Arc::new(alloc, group)?)?;
    }
    Ok(shared)
}

/// The groups of a step, made of its rows and of the groups below it.
pub(crate) fn groups_of_step<H: Threads + Wait + Clock + Sync, K: Keeper>(
    rt: &H,
    alloc: Global,
    hot: &mut Hot<K>,
    below: &[Arc<EntityFiles>],
    step: u64,
    size: u64,
) -> Result<Vec<Arc<EntityFiles>>, Stop>
    requires step { step < 4096 }
    requires size { size ≤ 2 ^ 32 }
    ensures groups { (list : ChangeList) → IsChangeList list → content_of list.changes ≤ 2 ^ 28 → list.size ≡ size →
        SeesAll hot.old list → AreGroupsBelow list step (map (λ g. arc_value g) below.now) →
        IfOk result (λ groups. map (λ g. arc_value g) groups.items ≡ step_groups list step) }
    ensures rows { IfSome hot.old.told (AreVersions hot.old.epoch) }
    ensures same { hot.new ≡ record hot.old { faults = hot.new.faults } }
    ensures cause { HasCause Stop.Keeper hot.old.faults hot.new.faults result }
    ensures only { IfErr result (λ stop. stop ≡ Stop.Disk → ⊥) }
    ensures unworn { IfErr result (λ stop. stop ≡ Stop.Worn → ⊥) }
{
    // That the rows are in order is a clause of this call.
    let _present = hot.epoch();
    let rows = hot.step_rows(alloc, step, size)?;
    let groups = collate(rt, alloc, &rows, below, size)?;
    Ok(shared(alloc, groups)?)
}

// Whether it has values and earlier values just where it is of a domain.
fn has_kinds(group: &EntityFiles) -> bool
    ensures { result ≡ true → (is_some group.now.kv ≡ is_domain_entity group.now.entity)
        × (is_some group.now.v ≡ is_domain_entity group.now.entity) }
{
    let is_domain = group.entity().is_domain();
    group.kv().is_some() == is_domain && group.v().is_some() == is_domain
}

// Whether the group begins at the step, and each of its files has a name.
fn is_of_step(group: &EntityFiles, step: u64) -> bool
    ensures { result ≡ true → IsOfStep step group.now }
{
    let range = group.range();
    range.from == step && is_aligned_range(range) && has_kinds(group)
}

fn are_of_step(groups: &[Arc<EntityFiles>], step: u64) -> bool
    ensures { result ≡ true → All (IsOfStep step) (map (λ g. arc_value g) groups.now) }
{
    for at in 0..groups.len() {
        if !is_of_step(&groups[at], step) {
            return false;
        }
    }
    true
}

fn copies(alloc: Global, groups: &[Arc<EntityFiles>]) -> Result<Vec<Arc<EntityFiles>>, Memory>
    ensures { IfOk result (λ copies. map (λ g. arc_value g) copies.items ≡ map (λ g. arc_value g) groups.now) }
{
    let mut copies = Vec::new(alloc);
    for group in groups {
        copies.push(Arc::try_clone(group)?)?;
    }
    Ok(copies)
}

// The step at which the groups end.
fn end_of(set: &FileSet<EntityFiles>) -> u64
    ensures end { result ≡ set.now.end }
    ensures set { IsFileSet (λ (g : GroupFiles). g.entity) (λ (g : GroupFiles). g.range)
        set.now.groups set.now.ids set.now.end }
{
    // That the groups are a set is a clause of this call.
    let _groups = set.groups();
    set.end()
}

// Whether the groups can be added to the set. Groups of no list can't.
fn can_add(
    alloc: Global,
    set: &FileSet<EntityFiles>,
    groups: &[Arc<EntityFiles>],
) -> Result<bool, Memory>
    requires early { set.now.end < 4096 }
    ensures can { IfOk result (λ can. can ≡ true → CanAdd set.now (map (λ g. arc_value g) groups.now)) }
    ensures set { IsFileSet (λ (g : GroupFiles). g.entity) (λ (g : GroupFiles). g.range)
        set.now.groups set.now.ids set.now.end }
{
    let step = end_of(set);
    if groups.len() != STEP_GROUPS {
        return Ok(false);
    }
    if !are_of_step(groups, step) {
        return Ok(false);
    }
    let follows = can_follow(alloc, set, groups, step + 1)?;
    Ok(follows)
}

/// The set that is to follow, with room to make it visible. Groups of no list are answered as want of memory.
pub(crate) fn prepared(
    alloc: Global,
    sets: &mut FileSets<EntityFiles>,
    groups: &[Arc<EntityFiles>],
) -> Result<Prepared<EntityFiles>, Memory>
    requires early { sets.old.current.end < 4096 }
    ensures next { IfOk result (Follows sets.new (map (λ g. arc_value g) groups.now)) }
    ensures can { OnOk result (CanAdd sets.old.current (map (λ g. arc_value g) groups.now)) }
    ensures current { sets.new.current ≡ sets.old.current }
    ensures held { sets.new.held ≡ sets.old.held }
{
    let can = can_add(alloc, sets.current(), groups)?;
    if !can {
        return Err(Memory);
    }
    let added = copies(alloc, groups)?;
    sets.reserve(STEP_GROUPS)?;
    let next = sets.prepare(alloc, added)?;
    Ok(next)
}

/// Writes the files of the groups of a step.
pub(crate) fn publish_step<D: Disk>(
    alloc: Global,
    disk: &mut D,
    groups: &[Arc<EntityFiles>],
    step: u64,
) -> Result<(), DiskError>
    requires of_step { All (IsOfStep step) (map (λ g. arc_value g) groups.now) }
    ensures ok { (list : ChangeList) (below : List GroupFiles) →
        IsNextStep list step below (map (λ g. arc_value g) groups.now) →
        ForSome (D.files disk.old) (HasExactly list (names_for below)) → OnOk result (ForSome (D.files disk.new)
        (HasExactly list (names_for below ++ names_for (map (λ g. arc_value g) groups.now)))) }
    ensures err { (list : ChangeList) (below : List GroupFiles) →
        IsNextStep list step below (map (λ g. arc_value g) groups.now) →
        ForSome (D.files disk.old) (HasExactly list (names_for below)) →
        OnErr result (ForSome (D.files disk.new) (IsLeft list below)) }
    ensures one_temporary { (list : ChangeList) (below : List GroupFiles) →
        IsNextStep list step below (map (λ g. arc_value g) groups.now) →
        ForSome (D.files disk.old) (HasExactly list (names_for below)) →
        OnErr result (ForSome (D.files disk.new) HasOneTemporary) }
    ensures resumed { (list : ChangeList) (below : List GroupFiles) →
        IsNextStep list step below (map (λ g. arc_value g) groups.now) →
        ForSome (D.files disk.old) (HasPart list (names_for below) (step_names step)) →
        OnOk result (ForSome (D.files disk.new)
        (HasExactly list (names_for below ++ names_for (map (λ g. arc_value g) groups.now)))) }
    ensures stopped { (list : ChangeList) (below : List GroupFiles) →
        IsNextStep list step below (map (λ g. arc_value g) groups.now) →
        ForSome (D.files disk.old) (HasPart list (names_for below) (step_names step)) →
        OnErr result (ForSome (D.files disk.new) (HasPart list (names_for below) (step_names step))) }
    ensures outside { SameOutside (D.files disk.old) (D.files disk.new) }
    ensures cause { HasCause DiskError.Failed (D.faults disk.old) (D.faults disk.new) result }
{
    // What these laws say is known once they are called.
    let _step = step;
    name_laws();
    publish_laws();
    exact_laws();
    publish_groups(alloc, disk, groups)
}
