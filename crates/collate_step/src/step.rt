//! The groups of a step.
ghost use Rattle.std.specs.Prelude.{◌≡◌, ◌+◌, ◌∷◌, ◌<◌, ◌≤◌, ◌^◌, map, drop, IfOk};
ghost use Rattle.std.specs.List.{filter};
ghost use Rattle.std.specs.Thread.{IsSync};
ghost use Rattle.std.specs.Arc.{arc_value};
ghost use Rattle.agg_model.specs.Batch.{content_of};
ghost use Rattle.agg_model.specs.ChangeList.{ChangeList, IsChangeList};
ghost use Rattle.agg_model.specs.Contents.{changes_over};
ghost use Rattle.domain_core.specs.KvFile.{kv_tag};
ghost use Rattle.history_core.specs.VFile.{v_tag};
ghost use Rattle.inverted_index.specs.EfFile.{ef_tag, ef_file};
ghost use Rattle.agg_model.specs.Entity.{entity_number};
ghost use Rattle.collate_step.specs.Groups.{AreGroupsBelow, IsDomain, group_of, kv_of, v_of, step_range, step_groups, step_changes, entities};
ghost use Rattle.collate_step.specs.Runs.{is_from};

use crate::befores::step_befores;
use crate::earlier::{EarlierValues, groups_of};
use crate::entity_files::EntityFiles;
use crate::lists::step_lists;
use crate::runs::split_run;
use crate::side::{MANY, both};
use agg_model::{Change, Entity, Range, StepRows};
use agg_outside::{ListOf, Memory};
use domain_core::{KvFile, are_pairs, build_kv, kv_tag, step_pairs};
use history_core::{VFile, are_befores, build_v_side_by_side, v_tag};
use inverted_index::{EfFile, are_lists, build_ef, ef_tag};
use std::alloc::Global;
use std::rt::Clock;
use std::sync::{Arc, Wait};
use std::thread::Threads;

/// The groups of a step, in the order of entities.
pub type Groups = ListOf<EntityFiles>;

/// Groups that others hold too, as those below a step and those of a merge.
pub type Inputs = ListOf<Arc<EntityFiles>>;

/// How many entities there are.
const ENTITY_COUNT: u8 = 7;

/// Which step is collated: its entity, its size and its number.
#[derive(Clone, Copy, Debug)]
pub(crate) struct Place {
    pub(crate) entity: Entity,
    pub(crate) size: u64,
    pub(crate) step: u64,
}

fn range_of(place: Place) -> Range
    requires { place.step < 4096 }
    ensures { result ≡ step_range place.step }
{
    Range {
        from: place.step,
        to: place.step + 1,
    }
}

// The values at the end of the step. Pairs of no list are answered as want of memory.
fn kv_file(alloc: Global, place: Place, changes: &[Change]) -> Result<KvFile, Memory>
    requires { place.step < 4096 }
    ensures tag { IfOk result (λ f. f.tag ≡ kv_tag place.entity place.size place.step (place.step + 1)) }
    ensures file { (list : ChangeList) → IsChangeList list → list.size ≡ place.size →
        changes.now ≡ changes_over list.size list.changes place.entity place.step (place.step + 1) →
        IfOk result (λ f. f ≡ kv_of list place.entity (step_range place.step)) }
{
    let pairs = step_pairs(alloc, place.step, changes)?;
    if !are_pairs(&pairs) {
        return Err(Memory);
    }
    let tag = kv_tag(place.entity, place.size, range_of(place));
    build_kv(alloc, tag, &pairs)
}

// The values before the changes of the step. Changes of no list are answered as want of memory.
fn v_file<R: Threads + Sync>(
    rt: &R,
    alloc: Global,
    place: Place,
    changes: &[Change],
    before: &[Arc<EntityFiles>],
) -> Result<VFile, Memory>
    requires { place.step < 4096 }
    ensures tag { IfOk result (λ f. f.tag ≡ v_tag place.entity place.size place.step (place.step + 1)) }
    ensures file { (list : ChangeList) → IsChangeList list → list.size ≡ place.size →
        changes.now ≡ changes_over list.size list.changes place.entity place.step (place.step + 1) →
        IsDomain place.entity → AreGroupsBelow list place.step (map (λ g. arc_value g) before.now) →
        IfOk result (λ f. f ≡ v_of list place.entity (step_range place.step)) }
{
    let own = groups_of(alloc, place.entity, before)?;
    let earlier = EarlierValues {
        entity: place.entity,
        groups: own.as_slice(),
    };
    let befores = step_befores(rt, alloc, &earlier, changes)?;
    let tag = v_tag(place.entity, place.size, range_of(place));
    if !are_befores(tag, &befores) {
        return Err(Memory);
    }
    build_v_side_by_side(rt, alloc, tag, &befores)
}

// The numbers of the changes of the step. Changes of no list are answered as want of memory.
fn ef_file(alloc: Global, place: Place, changes: &[Change]) -> Result<EfFile, Memory>
    requires { place.step < 4096 }
    ensures tag { IfOk result (λ f. f.tag ≡ ef_tag place.entity place.size place.step (place.step + 1)) }
    ensures file { (list : ChangeList) → IsChangeList list → content_of list.changes ≤ 2 ^ 28 → list.size ≡ place.size →
        changes.now ≡ changes_over list.size list.changes place.entity place.step (place.step + 1) →
        IfOk result (λ f. f ≡ ef_file list.size list.changes place.entity place.step (place.step + 1)) }
{
    let lists = step_lists(alloc, changes)?;
    let tag = ef_tag(place.entity, place.size, range_of(place));
    if !are_lists(tag, &lists) {
        return Err(Memory);
    }
    build_ef(alloc, tag, &lists)
}

// The values before the changes of the step and their numbers, side by side where there are many.
fn v_and_ef<R: Threads + Sync>(
    rt: &R,
    alloc: Global,
    place: Place,
    changes: &[Change],
    before: &[Arc<EntityFiles>],
) -> (Result<EfFile, Memory>, Result<VFile, Memory>)
    requires { place.step < 4096 }
    ensures ef_tag { IfOk result.0 (λ f. f.tag ≡ ef_tag place.entity place.size place.step (place.step + 1)) }
    ensures v_tag { IfOk result.1 (λ f. f.tag ≡ v_tag place.entity place.size place.step (place.step + 1)) }
    ensures ef { (list : ChangeList) → IsChangeList list → content_of list.changes ≤ 2 ^ 28 → list.size ≡ place.size →
        changes.now ≡ changes_over list.size list.changes place.entity place.step (place.step + 1) →
        IfOk result.0 (λ f. f ≡ ef_file list.size list.changes place.entity place.step (place.step + 1)) }
    ensures v { (list : ChangeList) → IsChangeList list → list.size ≡ place.size →
        changes.now ≡ changes_over list.size list.changes place.entity place.step (place.step + 1) →
        IsDomain place.entity → AreGroupsBelow list place.step (map (λ g. arc_value g) before.now) →
        IfOk result.1 (λ f. f ≡ v_of list place.entity (step_range place.step)) }
{
    both(
        rt,
        changes.len() >= MANY,
        || -> Result<EfFile, Memory>
            requires { place.step < 4096 }
            ensures { IfOk result (λ f. f.tag ≡ ef_tag place.entity place.size place.step (place.step + 1))
                × ((list : ChangeList) → IsChangeList list → content_of list.changes ≤ 2 ^ 28 → list.size ≡ place.size →
                changes.entry.now ≡ changes_over list.size list.changes place.entity place.step (place.step + 1) →
                IfOk result (λ f. f ≡ ef_file list.size list.changes place.entity place.step (place.step + 1))) }
        { ef_file(alloc, place, changes) },
        || -> Result<VFile, Memory>
            requires { IsSync R.row × (place.step < 4096) }
            ensures { IfOk result (λ f. f.tag ≡ v_tag place.entity place.size place.step (place.step + 1))
                × ((list : ChangeList) → IsChangeList list → list.size ≡ place.size →
                changes.entry.now ≡ changes_over list.size list.changes place.entity place.step (place.step + 1) →
                IsDomain place.entity → AreGroupsBelow list place.step (map (λ g. arc_value g) before.entry.now) →
                IfOk result (λ f. f ≡ v_of list place.entity (step_range place.step))) }
        { v_file(rt, alloc, place, changes, before) },
    )
}

// The three files of a domain over the step, side by side where there are many changes.
fn domain_files<R: Threads + Sync>(
    rt: &R,
    alloc: Global,
    place: Place,
    changes: &[Change],
    before: &[Arc<EntityFiles>],
) -> Result<EntityFiles, Memory>
    requires step { place.step < 4096 }
    requires domain { IsDomain place.entity }
    ensures { (list : ChangeList) → IsChangeList list → content_of list.changes ≤ 2 ^ 28 → list.size ≡ place.size →
        changes.now ≡ changes_over list.size list.changes place.entity place.step (place.step + 1) →
        AreGroupsBelow list place.step (map (λ g. arc_value g) before.now) →
        IfOk result (λ g. g ≡ group_of list place.entity (step_range place.step)) }
{
    let (kv, rest) = both(
        rt,
        changes.len() >= MANY,
        || -> Result<KvFile, Memory>
            requires { place.step < 4096 }
            ensures { IfOk result (λ f. f.tag ≡ kv_tag place.entity place.size place.step (place.step + 1))
                × ((list : ChangeList) → IsChangeList list → list.size ≡ place.size →
                changes.entry.now ≡ changes_over list.size list.changes place.entity place.step (place.step + 1) →
                IfOk result (λ f. f ≡ kv_of list place.entity (step_range place.step))) }
        { kv_file(alloc, place, changes) },
        || -> (Result<EfFile, Memory>, Result<VFile, Memory>)
            requires { IsSync R.row × (place.step < 4096) }
            ensures { IfOk result.0 (λ f. f.tag ≡ ef_tag place.entity place.size place.step (place.step + 1))
                × IfOk result.1 (λ f. f.tag ≡ v_tag place.entity place.size place.step (place.step + 1))
                × ((list : ChangeList) → IsChangeList list → content_of list.changes ≤ 2 ^ 28 → list.size ≡ place.size →
                changes.entry.now ≡ changes_over list.size list.changes place.entity place.step (place.step + 1) →
                IfOk result.0 (λ f. f ≡ ef_file list.size list.changes place.entity place.step (place.step + 1)))
                × ((list : ChangeList) → IsChangeList list → list.size ≡ place.size →
                changes.entry.now ≡ changes_over list.size list.changes place.entity place.step (place.step + 1) →
                IsDomain place.entity → AreGroupsBelow list place.step (map (λ g. arc_value g) before.entry.now) →
                IfOk result.1 (λ f. f ≡ v_of list place.entity (step_range place.step))) }
        { v_and_ef(rt, alloc, place, changes, before) },
    );
    let (ef, v) = rest;
    let kv = kv?;
    let ef = ef?;
    let v = v?;
    Ok(EntityFiles::of(place.entity, range_of(place), Some(kv), Some(v), ef))
}

// The files of an entity over the step.
fn collate_entity<R: Threads + Sync>(
    rt: &R,
    alloc: Global,
    place: Place,
    changes: &[Change],
    before: &[Arc<EntityFiles>],
) -> Result<EntityFiles, Memory>
    requires { place.step < 4096 }
    ensures { (list : ChangeList) → IsChangeList list → content_of list.changes ≤ 2 ^ 28 → list.size ≡ place.size →
        changes.now ≡ changes_over list.size list.changes place.entity place.step (place.step + 1) →
        AreGroupsBelow list place.step (map (λ g. arc_value g) before.now) →
        IfOk result (λ g. g ≡ group_of list place.entity (step_range place.step)) }
{
    if place.entity.is_domain() {
        return domain_files(rt, alloc, place, changes, before);
    }
    let ef = ef_file(alloc, place, changes)?;
    let range = range_of(place);
    Ok(EntityFiles::of(place.entity, range, None, None, ef))
}

// A group before others.
fn before_others(alloc: Global, group: EntityFiles, others: Groups) -> Result<Groups, Memory>
    ensures { IfOk result (λ groups. groups ≡ group ∷ others) }
{
    let mut groups = Vec::new(alloc);
    groups.push(group)?;
    let mut others = others.into_vec();
    groups.append(&mut others)?;
    Ok(Groups::from_vec(groups))
}

// The groups of the entities from this one on, of the changes that are of them: that of the first beside those of the
// others where both have many.
fn groups_from<R: Threads + Sync>(
    rt: &R,
    alloc: Global,
    place: Place,
    rest: &[Change],
    before: &[Arc<EntityFiles>],
) -> Result<Groups, Memory>
    requires { place.step < 4096 }
    ensures { (list : ChangeList) → IsChangeList list → content_of list.changes ≤ 2 ^ 28 → list.size ≡ place.size →
        rest.now ≡ filter (is_from (entity_number place.entity)) (step_changes list place.step) →
        AreGroupsBelow list place.step (map (λ g. arc_value g) before.now) →
        IfOk result (λ groups. groups ≡ map (λ e. group_of list e (step_range place.step)) (drop (entity_number place.entity) entities)) }
{
    let (run, others) = split_run(place.entity, rest);
    let Some(entity) = Entity::of_number(place.entity.number() + 1) else {
        let group = collate_entity(rt, alloc, place, run, before)?;
        return before_others(alloc, group, Groups::new(alloc));
    };
    let next = Place { entity, ..place };
    let (group, groups) = both(
        rt,
        run.len() >= MANY && others.len() >= MANY,
        || -> Result<EntityFiles, Memory>
            requires { IsSync R.row × (place.step < 4096) }
            ensures { (list : ChangeList) → IsChangeList list → content_of list.changes ≤ 2 ^ 28 → list.size ≡ place.size →
                run.entry.now ≡ changes_over list.size list.changes place.entity place.step (place.step + 1) →
                AreGroupsBelow list place.step (map (λ g. arc_value g) before.entry.now) →
                IfOk result (λ g. g ≡ group_of list place.entity (step_range place.step)) }
        { collate_entity(rt, alloc, place, run, before) },
        || -> Result<Groups, Memory>
            requires { IsSync R.row × (next.step < 4096) }
            ensures { (list : ChangeList) → IsChangeList list → content_of list.changes ≤ 2 ^ 28 → list.size ≡ next.size →
                others.entry.now ≡ filter (is_from (entity_number next.entity)) (step_changes list next.step) →
                AreGroupsBelow list next.step (map (λ g. arc_value g) before.entry.now) →
                IfOk result (λ groups. groups ≡ map (λ e. group_of list e (step_range next.step)) (drop (entity_number next.entity) entities)) }
        { groups_from(rt, alloc, next, others, before) },
    );
    before_others(alloc, group?, groups?)
}

/// The groups of a step: its changes, collated with the groups below it. What is of no list is answered as want
/// of memory. Each key is looked up once among the groups of its entity below, from the newest to the first that has
/// it.
///
/// Entities, and the three files of a domain, are built side by side where both sides have 1,000 changes. So are the
/// values before of parts of 8,000 and more changes, and the seeds of their accessor. A side for which no thread can be
/// made is built after the other. Beside the groups each thread holds one list of the changes that it collates at a
/// time, so a domain's three lists may be held at once, and what is found of an accessor until all is put together.
pub fn collate<H: Threads + Wait + Clock + Sync>(
    rt: &H,
    alloc: Global,
    rows: &StepRows,
    before: &[Arc<EntityFiles>],
    size: u64,
) -> Result<Groups, Memory>
    requires step { rows.now.step < 4096 }
    ensures { (list : ChangeList) → IsChangeList list → content_of list.changes ≤ 2 ^ 28 → list.size ≡ size →
        rows.now.changes ≡ step_changes list rows.now.step →
        AreGroupsBelow list rows.now.step (map (λ g. arc_value g) before.now) →
        IfOk result (λ groups. groups ≡ step_groups list rows.now.step) }
{
    let place = Place {
        entity: Entity::Accounts,
        size,
        step: rows.step,
    };
    groups_from(rt, alloc, place, rows.changes.as_slice(), before)
}
