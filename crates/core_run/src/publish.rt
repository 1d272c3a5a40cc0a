//! Whether files may become visible.
ghost use Rattle.std.specs.Prelude.{◌≡◌, ◌+◌, ◌-◌, ◌*◌, ◌≤◌, ◌<◌, ◌&&◌, nat_le, ℕ, [], ◌∷◌, List};
ghost use Rattle.std.specs.Prelude.{IfOk, IfSome, IsTrue, Some, is_some};
ghost use Rattle.std.specs.Bool.{Decides};
ghost use Rattle.agg_model.specs.declared.entity.Entity.TheVariants.{Accounts};
ghost use Rattle.merge_ranges.specs.declared.name.FileName.{FileName};
ghost use Rattle.merge_ranges.specs.Cut.{end_from, is_aligned};
ghost use Rattle.merge_ranges.specs.Name.{is_name, spelled};
ghost use Rattle.core_machine.specs.Publishing.{has_group, range_at, size_from, size_to, is_end, parts_of};
ghost use Rattle.core_machine.specs.Publishing.{IsCollation, IsMerge, IsPublish};
ghost use Rattle.core_machine.specs.Texts.{with_names, entity_texts};
ghost use Rattle.core_run.specs.Publishes.{IsStep, IsUnionOf, IsMergeTo};

use crate::names::{NameSet, add_entity, are_same, has_all, has_name, names_over, set_of};
use agg_model::{Entity, FileKind, Range, STEPS_MOST};
use agg_outside::{Bytes, ListOf, Memory, Names};
use merge_ranges::{Cut, FileName, is_aligned_range};
use std::alloc::Global;
use std::collections::BTreeSet;

// How many steps a group may have, most first.
const SIZES: [u8; 7] = [64, 32, 16, 8, 4, 2, 1];

// Whether the group is among the names.
#[tactic(auto, unfolding(core_machine::specs::Publishing::has_group))]
fn has_group(alloc: Global, names: &NameSet, entity: Entity, range: Range) -> Result<bool, Memory>
    ensures { IfOk result (λ b. b ≡ has_group names.now.keys entity range) }
{
    if !is_aligned_range(range) {
        return Ok(false);
    }
    let name = FileName {
        entity,
        range,
        kind: FileKind::Ef,
    };
    let text = name.print(alloc)?;
    Ok(has_name(names, &text))
}

// The length of the longest group among the names that begins at the step.
fn size_from(
    alloc: Global,
    names: &NameSet,
    entity: Entity,
    from: u64,
) -> Result<Option<u64>, Memory>
    requires { from ≤ STEPS_MOST }
    ensures is { IfOk result (λ size. size ≡ size_from names.now.keys entity from) }
    ensures small { IfOk result (λ size. IfSome size (λ n. n < 256)) }
{
    for count in SIZES {
        let size = count as u64;
        let range = Range {
            from,
            to: from + size,
        };
        let there = has_group(alloc, names, entity, range)?;
        if there {
            return Ok(Some(size));
        }
    }
    Ok(None)
}

// Whether a group of this length that ends at the step is among the names.
fn has_group_to(
    alloc: Global,
    names: &NameSet,
    entity: Entity,
    to: u64,
    size: u64,
) -> Result<bool, Memory>
    ensures { IfOk result (λ b. b ≡ (nat_le size to && has_group names.now.keys entity (range_at (to - size) size))) }
{
    if size > to {
        return Ok(false);
    }
    let from = to - size;
    let range = Range {
        from,
        to: from + size,
    };
    has_group(alloc, names, entity, range)
}

// Whether a group among the names ends at the step.
fn does_end(alloc: Global, names: &NameSet, entity: Entity, to: u64) -> Result<bool, Memory>
    ensures { IfOk result (λ b. b ≡ is_some (size_to names.now.keys entity to)) }
{
    for count in SIZES {
        let size = count as u64;
        let there = has_group_to(alloc, names, entity, to, size)?;
        if there {
            return Ok(true);
        }
    }
    Ok(false)
}

// Whether the visible groups end at the step.
fn is_end(alloc: Global, visible: &NameSet, step: u64) -> Result<bool, Memory>
    requires { step ≤ STEPS_MOST }
    ensures { IfOk result (λ b. b ≡ is_end visible.now.keys step) }
{
    let begins = size_from(alloc, visible, Entity::Accounts, step)?;
    if begins.is_some() {
        return Ok(false);
    }
    if step == 0 {
        return Ok(true);
    }
    does_end(alloc, visible, Entity::Accounts, step)
}

// The range alone.
fn one_range(alloc: Global, range: Range) -> Result<Cut, Memory>
    ensures { IfOk result (λ cut. cut ≡ range ∷ []) }
{
    let mut cut = ListOf::new(alloc);
    cut.push(range)?;
    Ok(cut)
}

// Whether the added names are those of all groups over the step, which is next and complete.
fn is_step(
    alloc: Global,
    visible: &NameSet,
    complete: u64,
    step: u64,
    added: &Names,
) -> Result<bool, Memory>
    requires { complete ≤ STEPS_MOST }
    ensures { IfOk result (λ b. Decides b (IsStep complete visible.now.keys added.now step)) }
{
    if step >= complete {
        return Ok(false);
    }
    let at_end = is_end(alloc, visible, step)?;
    if !at_end {
        return Ok(false);
    }
    let range = Range {
        from: step,
        to: step + 1,
    };
    let cut = one_range(alloc, range)?;
    let wanted = names_over(alloc, &cut)?;
    let set = set_of(alloc, added)?;
    Ok(are_same(&set, &wanted))
}

// The name of a file that the text is.
#[tactic(auto, unfolding(merge_ranges::specs::Name::is_name))]
fn read_name(text: &Bytes) -> Option<FileName>
    ensures name { IfSome result (λ n. IsTrue (is_name n)) }
    ensures within { IfSome result (λ n. n.range.to ≤ STEPS_MOST) }
    ensures only { (n : FileName) → IsTrue (is_name n) → spelled n ≡ text.now → result ≡ Some n }
{
    let Some(name) = FileName::read(text.as_slice()) else {
        return None;
    };
    Some(name)
}

// The name of a file that stands first, if it is one.
fn first_named(names: &Names) -> Option<FileName>
    ensures name { IfSome result (λ n. IsTrue (is_name n)) }
    ensures within { IfSome result (λ n. n.range.to ≤ STEPS_MOST) }
    ensures only { (n : FileName) (first : List ℕ) (rest : List (List ℕ)) → names.now ≡ first ∷ rest →
        IsTrue (is_name n) → spelled n ≡ first → result ≡ Some n }
{
    let Some(text) = names.get(0) else {
        return None;
    };
    read_name(text)
}

// Whether all groups over one step may become visible, and nothing is replaced.
fn is_collation(
    alloc: Global,
    visible: &NameSet,
    next: u64,
    size: u64,
    added: &Names,
) -> Result<bool, Memory>
    requires some { 1 ≤ size }
    requires within { next ≤ STEPS_MOST * size }
    ensures { IfOk result (λ b. Decides b (IsCollation next size visible.now.keys added.now [])) }
{
    let Some(name) = first_named(added) else {
        return Ok(false);
    };
    is_step(alloc, visible, next / size, name.range.from, added)
}

// The ranges of the entity's groups among the names that follow each other from the first step of the range on,
// and where they end.
fn parts_of(
    alloc: Global,
    names: &NameSet,
    entity: Entity,
    range: Range,
) -> Result<(Cut, u64), Memory>
    requires { range.to ≤ STEPS_MOST }
    ensures parts { IfOk result (λ found. found.0 ≡ parts_of names.now.keys entity range) }
    ensures end { IfOk result (λ found. found.1 ≡ end_from range.from found.0) }
{
    let mut parts = ListOf::new(alloc);
    let mut from = range.from;
    // One part a step at most.
    let mut left = range.to.saturating_sub(range.from);
    while left > 0 {
        if from >= range.to {
            return Ok((parts, from));
        }
        let Some(size) = size_from(alloc, names, entity, from)? else {
            return Ok((parts, from));
        };
        let to = from + size;
        parts.push(Range { from, to })?;
        from = to;
        left -= 1;
    }
    Ok((parts, from))
}

// Whether the replaced names are those of at least two visible groups of the entity whose union is the range.
fn is_union(
    alloc: Global,
    visible: &NameSet,
    entity: Entity,
    range: Range,
    replaced: &Names,
) -> Result<bool, Memory>
    requires { range.to ≤ STEPS_MOST }
    ensures { IfOk result (λ b. Decides b (IsUnionOf visible.now.keys replaced.now entity range)) }
{
    if !has_all(visible, replaced) {
        return Ok(false);
    }
    let set = set_of(alloc, replaced)?;
    let (parts, end) = parts_of(alloc, &set, entity, range)?;
    if end != range.to {
        return Ok(false);
    }
    if parts.len() < 2 {
        return Ok(false);
    }
    let wanted = names_of(alloc, entity, &parts)?;
    Ok(are_same(&set, &wanted))
}

// The names of the entity over the ranges.
fn names_of(alloc: Global, entity: Entity, cut: &Cut) -> Result<NameSet, Memory>
    ensures { IfOk result (λ set. set.keys ≡ with_names [] (entity_texts entity cut.now)) }
{
    let mut set = BTreeSet::new(alloc);
    add_entity(alloc, &mut set, entity, cut)?;
    Ok(set)
}

// Whether the group over the range may become visible in the place of the replaced ones.
fn is_merge_to(
    alloc: Global,
    visible: &NameSet,
    name: FileName,
    added: &Names,
    replaced: &Names,
) -> Result<bool, Memory>
    requires { name.range.to ≤ STEPS_MOST }
    ensures { IfOk result (λ b. Decides b (IsMergeTo visible.now.keys added.now replaced.now name.entity name.range)) }
{
    let union = is_union(alloc, visible, name.entity, name.range, replaced)?;
    if !union {
        return Ok(false);
    }
    let cut = one_range(alloc, name.range)?;
    let wanted = names_of(alloc, name.entity, &cut)?;
    let set = set_of(alloc, added)?;
    Ok(are_same(&set, &wanted))
}

// Whether a group may become visible in the place of others.
fn is_merge(
    alloc: Global,
    visible: &NameSet,
    added: &Names,
    replaced: &Names,
) -> Result<bool, Memory>
    ensures { IfOk result (λ b. Decides b (IsMerge visible.now.keys added.now replaced.now)) }
{
    let Some(name) = first_named(added) else {
        return Ok(false);
    };
    is_merge_to(alloc, visible, name, added, replaced)
}

/// Whether the added files may become visible in place of the replaced ones.
pub fn is_publish(
    alloc: Global,
    visible: &NameSet,
    next: u64,
    size: u64,
    added: &Names,
    replaced: &Names,
) -> Result<bool, Memory>
    requires some { 1 ≤ size }
    requires within { next ≤ STEPS_MOST * size }
    ensures { IfOk result (λ b. Decides b (IsPublish next size visible.now.keys added.now replaced.now)) }
{
    if replaced.len() == 0 {
        is_collation(alloc, visible, next, size, added)
    } else {
        is_merge(alloc, visible, added, replaced)
    }
}
