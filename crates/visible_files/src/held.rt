ghost use Rattle.std.specs.Prelude.{◌≡◌, ℕ, ◌+◌, ◌≤◌, ◌<◌, [], ◌∷◌, true, map, vec_len, vec_capacity, length, slice_index_or, if◌then◌else◌, ◌||◌, nat_lt, is_none, option_to_list, IfOk, false, ◌==◌, ◌^◌, ◌-◌};
ghost use Rattle.agg_model.specs.declared.entity.FileKind.TheVariants.{Ef};
ghost use Rattle.agg_model.specs.declared.entity.Entity.{Entity};
ghost use Rattle.merge_ranges.specs.declared.name.FileName.{FileName};
ghost use Rattle.merge_ranges.specs.Name.{has_kind};
ghost use Rattle.visible_files.specs.declared.ids.GroupId.{GroupId};
ghost use Rattle.visible_files.specs.declared.held.HeldGroup.{HeldGroup};
ghost use Rattle.visible_files.specs.Ids.{place, places, Ascends, IsLowerBound, IsSet, Replaces, contains_id, added_ids, gone_ids};
ghost use Rattle.visible_files.specs.Held.{held_places, unpinned, count_of, name_with, is_name_of, named_once, is_named, raised, has_full, retired_without, first_kind, first_free, is_shown_name, held_ids, AddsOne, Adds, IsHeld, is_retired, visible_group, is_free, free_place, kind_after, rest_of, without_first};

use crate::ids::{GroupId, contains, is_before, is_same};
use agg_model::{Entity, FileKind};
use agg_outside::Memory;
use merge_ranges::FileName;
use std::alloc::Global;

/// A group whose files are kept: it is visible, or replaced and not yet all taken away.
#[derive(Clone, Copy, Debug)]
pub struct HeldGroup {
    pub id: GroupId,
    /// How many pinned sets have it.
    pub pins: u64,
    /// The first kind whose name is still retired; none as long as the group is visible.
    pub retired: Option<FileKind>,
}

/// How many are before the id, by a binary search.
pub(crate) fn place_of(held: &[HeldGroup], id: GroupId) -> usize
    requires { Ascends 0 (held_places held.now) }
    ensures { IsLowerBound (λ h. place h.id) held.now (place id) result }
{
    held.partition_point(|group| is_before(group.id, id))
}

/// Whether some group couldn't be pinned once more.
pub(crate) fn is_full(held: &[HeldGroup]) -> bool
    ensures { result ≡ has_full held.now }
{
    held.iter().any(|group| group.pins == u64::MAX)
}

fn raise(group: HeldGroup) -> HeldGroup
    requires { (group.pins == 2 ^ 64 - 1) ≡ false }
    ensures { result ≡ raised group }
{
    let mut group = group;
    if group.retired.is_none() {
        group.pins += 1;
    }
    group
}

/// One more pin for each visible group.
pub(crate) fn pin_visible(held: &mut [HeldGroup])
    requires { has_full held.old ≡ false }
    ensures { held.new ≡ map raised held.old }
{
    for group in held.iter_mut() {
        *group = raise(*group);
    }
}

// One pin of the group less.
fn unpin_one(held: &mut [HeldGroup], id: GroupId)
    requires order { Ascends 0 (held_places held.old) }
    requires pinned { 1 ≤ count_of held.old (name_with id Ef) }
    ensures counts { (n : FileName) → count_of held.new n + named_once (id ∷ []) n ≡ count_of held.old n }
    ensures others { unpinned held.new ≡ unpinned held.old }
{
    let at = place_of(held, id);
    held[at].pins -= 1;
}

/// One pin of each of the groups less.
pub(crate) fn unpin_all(held: &mut [HeldGroup], ids: &[GroupId])
    requires order { Ascends 0 (held_places held.old) }
    requires set { Ascends 0 (places ids.now) }
    requires pinned { (n : FileName) → is_named ids.now n ≡ true → 1 ≤ count_of held.old n }
    ensures counts { (n : FileName) → count_of held.new n + named_once ids.now n ≡ count_of held.old n }
    ensures others { unpinned held.new ≡ unpinned held.old }
{
    for id in ids {
        unpin_one(held, *id);
    }
}

#[tactic(auto, unfolding(crate::specs::Held::first_kind))]
fn kind_before_all(entity: Entity) -> FileKind
    ensures { result ≡ first_kind entity }
{
    if entity.is_domain() {
        FileKind::Kv
    } else {
        FileKind::Ef
    }
}

fn retire(group: HeldGroup, ids: &[GroupId]) -> HeldGroup
    requires { Ascends 0 (places ids.now) }
    ensures { result ≡ retired_without ids.now group }
{
    let mut group = group;
    if group.retired.is_none() && !contains(ids, group.id) {
        group.retired = Some(kind_before_all(group.id.entity));
    }
    group
}

/// Each visible group that is none of these is replaced.
pub(crate) fn retire_others(held: &mut [HeldGroup], ids: &[GroupId])
    requires { Ascends 0 (places ids.now) }
    ensures { held.new ≡ map (retired_without ids.now) held.old }
{
    for group in held.iter_mut() {
        *group = retire(*group, ids);
    }
}

/// The first name that is left of the first group that is replaced and not pinned.
pub(crate) fn first_unpinned_name(held: &[HeldGroup]) -> Option<FileName>
    ensures { result ≡ first_free held.now }
{
    for group in held {
        if let Some(kind) = group.retired
            && group.pins == 0
        {
            return Some(FileName {
                entity: group.id.entity,
                range: group.id.range,
                kind,
            });
        }
    }
    None
}

/// One more pin for each visible group.
pub(crate) fn pin_held(held: &mut Vec<HeldGroup>)
    requires full { has_full held.old.items ≡ false }
    requires order { Ascends 0 (held_places held.old.items) }
    ensures counts { (n : FileName) →
        count_of held.new.items n ≡ count_of held.old.items n + (if is_shown_name held.old.items n then 1 else 0) }
    ensures others { unpinned held.new.items ≡ unpinned held.old.items }
    ensures len { vec_len held.new ≡ vec_len held.old }
    ensures capacity { vec_capacity held.new ≡ vec_capacity held.old }
{
    pin_visible(held.as_mut_slice());
}

/// One pin of each of the groups less.
pub(crate) fn unpin_held(held: &mut Vec<HeldGroup>, ids: &[GroupId])
    requires order { Ascends 0 (held_places held.old.items) }
    requires set { Ascends 0 (places ids.now) }
    requires pinned { (n : FileName) → is_named ids.now n ≡ true → 1 ≤ count_of held.old.items n }
    ensures counts { (n : FileName) → count_of held.new.items n + named_once ids.now n ≡ count_of held.old.items n }
    ensures others { unpinned held.new.items ≡ unpinned held.old.items }
    ensures len { vec_len held.new ≡ vec_len held.old }
    ensures capacity { vec_capacity held.new ≡ vec_capacity held.old }
{
    unpin_all(held.as_mut_slice(), ids);
}

// Where a group goes that isn't among these.
fn place_for(held: &[HeldGroup], id: GroupId) -> usize
    requires order { Ascends 0 (held_places held.now) }
    requires absent { contains_id (held_ids held.now) id ≡ false }
    ensures bound { IsLowerBound (λ h. place h.id) held.now (place id) result }
    ensures apart { (d : HeldGroup) → result < length held.now →
        place id < place (slice_index_or held.now result d).id }
{
    let at = place_of(held, id);
    if at >= held.len() {
        return at;
    }
    let _same = is_same(held[at].id, id);
    at
}

fn insert_visible(held: &mut Vec<HeldGroup>, id: GroupId)
    requires order { Ascends 0 (held_places held.old.items) }
    requires absent { contains_id (held_ids held.old.items) id ≡ false }
    requires room { vec_len held.old < vec_capacity held.old }
    ensures added { AddsOne id held.old.items held.new.items }
    ensures len { vec_len held.new ≡ vec_len held.old + 1 }
    ensures capacity { vec_capacity held.old ≤ vec_capacity held.new }
{
    let at = place_for(held.as_slice(), id);
    let _full = held.insert(
        at,
        HeldGroup {
            id,
            pins: 0,
            retired: None,
        },
    );
}

fn add_if_new(held: &mut Vec<HeldGroup>, before: &[GroupId], id: GroupId)
    requires first { Ascends 0 (places before.now) }
    requires order { Ascends 0 (held_places held.old.items) }
    requires absent { contains_id before.now id ≡ false → contains_id (held_ids held.old.items) id ≡ false }
    requires room { contains_id before.now id ≡ false → vec_len held.old < vec_capacity held.old }
    ensures kept { contains_id before.now id ≡ true → held.new.items ≡ held.old.items }
    ensures added { contains_id before.now id ≡ false → AddsOne id held.old.items held.new.items }
    ensures len { vec_len held.new ≡ vec_len held.old + (if contains_id before.now id then 0 else 1) }
    ensures capacity { vec_capacity held.old ≤ vec_capacity held.new }
{
    if contains(before, id) {
        return;
    }
    insert_visible(held, id);
}

/// Each group of the second list that isn't in the first is visible, with no pins.
fn add_visible(held: &mut Vec<HeldGroup>, before: &[GroupId], after: &[GroupId])
    requires first { Ascends 0 (places before.now) }
    requires adds { Adds before.now held.old.items held.old.items after.now after.now }
    requires room { vec_len held.old + length (added_ids before.now after.now) ≤ vec_capacity held.old }
    ensures added { Adds before.now held.old.items held.new.items after.now [] }
    ensures len { vec_len held.new ≡ vec_len held.old + length (added_ids before.now after.now) }
    ensures capacity { vec_capacity held.old ≤ vec_capacity held.new }
{
    for id in after {
        add_if_new(held, before, *id);
    }
}

fn retire_held(held: &mut Vec<HeldGroup>, ids: &[GroupId])
    requires { Ascends 0 (places ids.now) }
    ensures items { held.new.items ≡ map (retired_without ids.now) held.old.items }
    ensures len { vec_len held.new ≡ vec_len held.old }
    ensures capacity { vec_capacity held.new ≡ vec_capacity held.old }
{
    retire_others(held.as_mut_slice(), ids);
}

/// The groups of the second list are visible, in place of those of the first.
pub(crate) fn switch(held: &mut Vec<HeldGroup>, before: &[GroupId], after: &[GroupId])
    requires held { IsHeld before.now held.old.items }
    requires first { (end : ℕ) × IsSet before.now end }
    requires second { (end : ℕ) × IsSet after.now end }
    requires replaces { Replaces before.now after.now }
    requires room { vec_len held.old + length (added_ids before.now after.now) ≤ vec_capacity held.old }
    ensures held { IsHeld after.now held.new.items }
    ensures counts { (n : FileName) → count_of held.new.items n ≡ count_of held.old.items n }
    ensures retired { (n : FileName) → is_retired held.new.items n
        ≡ (is_retired held.old.items n || is_named (gone_ids before.now after.now) n) }
    ensures len { vec_len held.new ≡ vec_len held.old + length (added_ids before.now after.now) }
    ensures capacity { vec_capacity held.old ≤ vec_capacity held.new }
{
    retire_held(held, after);
    add_visible(held, before, after);
}

#[tactic(auto, unfolding(crate::specs::Held::kind_after))]
fn next_kind(kind: FileKind) -> Option<FileKind>
    ensures { result ≡ kind_after kind }
{
    match kind {
        FileKind::Kv => Some(FileKind::Bt),
        FileKind::Bt => Some(FileKind::Kvi),
        FileKind::Kvi => Some(FileKind::V),
        FileKind::V => Some(FileKind::Vi),
        FileKind::Vi => Some(FileKind::Ef),
        FileKind::Ef => Some(FileKind::Efi),
        FileKind::Efi => None,
    }
}

fn is_group_free(group: HeldGroup) -> bool
    ensures { result ≡ is_free group }
{
    group.retired.is_some() && group.pins == 0
}

fn place_of_free(held: &[HeldGroup]) -> usize
    ensures { result ≡ free_place held.now }
{
    let mut at = 0;
    for group in held {
        if is_group_free(*group) {
            return at;
        }
        at += 1;
    }
    at
}

// Without the first of its retired names, where some are left then.
fn after_first(group: HeldGroup) -> Option<HeldGroup>
    ensures { option_to_list result ≡ rest_of group }
{
    let Some(kind) = group.retired else {
        return None;
    };
    let Some(next) = next_kind(kind) else {
        return None;
    };
    Some(HeldGroup {
        id: group.id,
        pins: group.pins,
        retired: Some(next),
    })
}

/// Takes away the first name that is left of the first group that is replaced and not pinned, if
/// there is one.
pub(crate) fn drop_first(held: &mut Vec<HeldGroup>)
    ensures items { held.new.items ≡ without_first held.old.items }
    ensures len { vec_len held.new ≤ vec_len held.old }
    ensures capacity { vec_capacity held.new ≡ vec_capacity held.old }
{
    let at = place_of_free(held.as_slice());
    if at >= held.len() {
        return;
    }
    match after_first(held[at]) {
        Some(group) => held[at] = group,
        None => {
            let _group = held.remove(at);
        }
    }
}

/// Whether the file is visible or pinned.
pub(crate) fn is_name_seen(held: &[HeldGroup], name: FileName) -> bool
    requires { Ascends 0 (held_places held.now) }
    ensures { result ≡ (is_shown_name held.now name || nat_lt 0 (count_of held.now name)) }
{
    if !does_have(name.entity, name.kind) {
        return false;
    }
    let id = GroupId {
        entity: name.entity,
        range: name.range,
    };
    let at = place_of(held, id);
    if at >= held.len() {
        return false;
    }
    if !is_same(held[at].id, id) {
        return false;
    }
    is_group_seen(held[at])
}

fn is_group_seen(group: HeldGroup) -> bool
    ensures { result ≡ (is_none group.retired || nat_lt 0 group.pins) }
{
    group.retired.is_none() || group.pins > 0
}

#[tactic(auto, unfolding(merge_ranges::specs::Name::has_kind, merge_ranges::specs::Kind::is_index_kind))]
fn does_have(entity: Entity, kind: FileKind) -> bool
    ensures { result ≡ has_kind entity kind }
{
    entity.is_domain() || matches!(kind, FileKind::Ef | FileKind::Efi)
}

/// The groups as visible ones, with no pins.
pub(crate) fn all_visible(alloc: Global, ids: &[GroupId]) -> Result<Vec<HeldGroup>, Memory>
    ensures { IfOk result (λ held. held.items ≡ map visible_group ids.now) }
{
    let mut held = Vec::new(alloc);
    for id in ids {
        held.push(HeldGroup {
            id: *id,
            pins: 0,
            retired: None,
        })?;
    }
    Ok(held)
}
