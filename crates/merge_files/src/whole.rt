//! The merged group.
ghost use Rattle.std.specs.Prelude.{◌≡◌, ◌↔◌, ◌<◌, ℕ, List, length, map, IsTrue, IfOk, MatchResult, Err, Some};
ghost use Rattle.std.specs.Arc.{arc_value};
ghost use Rattle.agg_model.specs.ChangeList.{ChangeList, IsChangeList};
ghost use Rattle.agg_model.specs.declared.entity.Entity.{Entity};
ghost use Rattle.agg_model.specs.declared.entity.Range.{Range};
ghost use Rattle.content_laws.specs.Parts.{Adjoin};
ghost use Rattle.domain_core.specs.KvFile.{kv_tag};
ghost use Rattle.history_core.specs.VFile.{v_tag};
ghost use Rattle.inverted_index.specs.EfFile.{ef_tag, ef_file};
ghost use Rattle.merge_ranges.specs.Cut.{is_aligned};
ghost use Rattle.collate_step.specs.Groups.{IsDomain, group_of, kv_of, v_of};
ghost use Rattle.merge_files.specs.Adjacent.{first_gap};
ghost use Rattle.merge_files.specs.declared.error.MergeError.TheVariants.{NotAdjacent, Memory as NoMemory};

use crate::adjacent::first_gap;
use crate::error::MergeError;
use crate::history::merged_v;
use crate::numbers::merged_ef;
use crate::values::merged_kv;
use agg_model::{Entity, Range};
use agg_outside::Memory;
use collate_step::EntityFiles;
use domain_core::{KvFile, kv_tag};
use history_core::{VFile, v_tag};
use inverted_index::{EfFile, ef_tag};
use std::alloc::Global;
use std::sync::Arc;

/// What the merged group is of: its entity, the size of its steps and its range.
#[derive(Clone, Copy, Debug)]
pub(crate) struct Whole {
    pub(crate) entity: Entity,
    pub(crate) size: u64,
    pub(crate) range: Range,
}

// The values at the end of the steps. Pairs of no list are answered as want of memory.
fn kv_file(alloc: Global, whole: Whole, groups: &[Arc<EntityFiles>]) -> Result<KvFile, Memory>
    ensures tag { IfOk result (λ f. f.tag ≡ kv_tag whole.entity whole.size whole.range.from whole.range.to) }
    ensures file { (list : ChangeList) (ranges : List Range) → IsChangeList list → list.size ≡ whole.size →
        IsDomain whole.entity → Adjoin whole.range.from ranges whole.range.to →
        map (λ g. arc_value g) groups.now ≡ map (group_of list whole.entity) ranges →
        IfOk result (λ f. f ≡ kv_of list whole.entity whole.range) }
{
    let tag = kv_tag(whole.entity, whole.size, whole.range);
    merged_kv(alloc, tag, whole.range.from, groups)
}

// The values before the changes. Rows of no list are answered as want of memory.
fn v_file(alloc: Global, whole: Whole, groups: &[Arc<EntityFiles>]) -> Result<VFile, Memory>
    ensures tag { IfOk result (λ f. f.tag ≡ v_tag whole.entity whole.size whole.range.from whole.range.to) }
    ensures file { (list : ChangeList) (ranges : List Range) → IsChangeList list → list.size ≡ whole.size →
        IsDomain whole.entity → Adjoin whole.range.from ranges whole.range.to →
        map (λ g. arc_value g) groups.now ≡ map (group_of list whole.entity) ranges →
        IfOk result (λ f. f ≡ v_of list whole.entity whole.range) }
{
    let tag = v_tag(whole.entity, whole.size, whole.range);
    merged_v(alloc, tag, groups)
}

// The numbers of the changes. Lists of no list of changes are answered as want of memory.
fn ef_file(alloc: Global, whole: Whole, groups: &[Arc<EntityFiles>]) -> Result<EfFile, Memory>
    ensures tag { IfOk result (λ f. f.tag ≡ ef_tag whole.entity whole.size whole.range.from whole.range.to) }
    ensures file { (list : ChangeList) (ranges : List Range) → IsChangeList list → list.size ≡ whole.size →
        Adjoin whole.range.from ranges whole.range.to →
        map (λ g. arc_value g) groups.now ≡ map (group_of list whole.entity) ranges →
        IfOk result (λ f. f ≡ ef_file list.size list.changes whole.entity whole.range.from whole.range.to) }
{
    let tag = ef_tag(whole.entity, whole.size, whole.range);
    merged_ef(alloc, tag, groups)
}

// The files of the entity over the whole range.
fn merge_whole(
    alloc: Global,
    whole: Whole,
    groups: &[Arc<EntityFiles>],
) -> Result<EntityFiles, Memory>
    requires { IsTrue (is_aligned whole.range) }
    ensures { (list : ChangeList) (ranges : List Range) → IsChangeList list → list.size ≡ whole.size →
        Adjoin whole.range.from ranges whole.range.to →
        map (λ g. arc_value g) groups.now ≡ map (group_of list whole.entity) ranges →
        IfOk result (λ g. g ≡ group_of list whole.entity whole.range) }
{
    let ef = ef_file(alloc, whole, groups)?;
    if !whole.entity.is_domain() {
        return Ok(EntityFiles::of(whole.entity, whole.range, None, None, ef));
    }
    let kv = kv_file(alloc, whole, groups)?;
    let v = v_file(alloc, whole, groups)?;
    Ok(EntityFiles::of(whole.entity, whole.range, Some(kv), Some(v), ef))
}

// What the group of groups over the range is of, where there is a group.
fn whole_of(first: &EntityFiles, range: Range) -> Whole
    ensures { result ≡ record { entity = first.now.entity; size = first.now.ef.tag.step; range = range } }
{
    Whole {
        entity: first.entity(),
        size: first.ef().tag().step,
        range,
    }
}

// The group over the range, out of the groups over its parts.
fn merge_adjacent(
    alloc: Global,
    groups: &[Arc<EntityFiles>],
    range: Range,
) -> Result<EntityFiles, Memory>
    requires some { 0 < length groups.now }
    requires aligned { IsTrue (is_aligned range) }
    ensures { (list : ChangeList) (e : Entity) (ranges : List Range) → IsChangeList list →
        Adjoin range.from ranges range.to → map (λ g. arc_value g) groups.now ≡ map (group_of list e) ranges →
        IfOk result (λ g. g ≡ group_of list e range) }
{
    let whole = whole_of(&groups[0], range);
    merge_whole(alloc, whole, groups)
}

/// The group over the range, out of groups over the parts of it, the oldest first. What is of no list is answered
/// as the group of what it holds, or as want of memory. The groups are looked at before memory is taken.
pub fn merge(
    alloc: Global,
    inputs: &[Arc<EntityFiles>],
    range: Range,
) -> Result<EntityFiles, MergeError>
    requires { IsTrue (is_aligned range) }
    // Groups of a list become its group over the range, and are refused for want of memory alone.
    ensures group { (list : ChangeList) (e : Entity) (ranges : List Range) → IsChangeList list →
        Adjoin range.from ranges range.to → map (λ g. arc_value g) inputs.now ≡ map (group_of list e) ranges →
        MatchResult result (λ g. g ≡ group_of list e range) (λ e. e ≡ NoMemory) }
    // Which refusal it is, and where.
    ensures gap { (i : ℕ) →
        (result ≡ Err (NotAdjacent i)) ↔ (first_gap (map (λ g. arc_value g) inputs.now) range ≡ Some i) }
{
    if let Some(place) = first_gap(inputs, range) {
        return Err(MergeError::NotAdjacent(place));
    }
    match merge_adjacent(alloc, inputs, range) {
        Ok(group) => Ok(group),
        Err(_) => Err(MergeError::Memory),
    }
}
