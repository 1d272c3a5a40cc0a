//! Sets of names.
ghost use Rattle.std.specs.Prelude.{◌≡◌, [], ◌∷◌, List, IfOk, OnOk, map, filter, All, true};
ghost use Rattle.std.specs.Bool.{Decides};
ghost use Rattle.agg_model.specs.declared.entity.FileKind.{FileKind};
ghost use Rattle.merge_ranges.specs.declared.name.FileName.{FileName};
ghost use Rattle.merge_ranges.specs.CanonicalNames.{kinds, group_names};
ghost use Rattle.merge_ranges.specs.Name.{has_kind};
ghost use Rattle.core_machine.specs.Texts.{has, SameNames, AreAmong, IsInForm, with_names, without_names};
ghost use Rattle.core_machine.specs.Texts.{texts_of, entity_texts, all_texts};

use agg_model::{Entity, FileKind, Range};
use agg_outside::{Bytes, ListOf, Memory, Names};
use merge_ranges::{Cut, FileName};
use std::alloc::Global;
use std::collections::BTreeSet;

pub type NameSet = BTreeSet<Bytes>;

/// Whether the name is in the set.
pub fn has_name(set: &NameSet, name: &Bytes) -> bool
    ensures { result ≡ has set.now.keys name.now }
{
    set.contains(name)
}

/// Puts copies of the names into the set too.
pub fn add_names(alloc: Global, set: &mut NameSet, names: &Names) -> Result<(), Memory>
    ensures { OnOk result (set.new.keys ≡ with_names set.old.keys names.now) }
{
    for name in names.as_slice() {
        let copy = name.copy(alloc)?;
        let _new = set.insert(copy)?;
    }
    Ok(())
}

/// The set of the names.
pub fn set_of(alloc: Global, names: &Names) -> Result<NameSet, Memory>
    ensures { IfOk result (λ set. set.keys ≡ with_names [] names.now) }
{
    let mut set = BTreeSet::new(alloc);
    add_names(alloc, &mut set, names)?;
    Ok(set)
}

/// Takes the name out of the set.
pub fn remove_name(set: &mut NameSet, name: &Bytes)
    ensures { set.new.keys ≡ without_names set.old.keys (name.now ∷ []) }
{
    // That its names ascend is known from here on.
    let _count = set.len();
    let _there = set.remove(name);
}

/// Takes the names out of the set.
pub fn remove_names(set: &mut NameSet, names: &Names)
    ensures { set.new.keys ≡ without_names set.old.keys names.now }
{
    // That its names ascend is known from here on.
    let _count = set.len();
    for name in names.as_slice() {
        let _there = set.remove(name);
    }
}

/// Whether the sets have the same names; stops at the first at which they differ.
pub fn are_same(one: &NameSet, two: &NameSet) -> bool
    ensures { Decides result (one.now.keys ≡ two.now.keys) }
{
    *one == *two
}

/// Whether each of the names is in the set.
pub fn has_all(set: &NameSet, names: &Names) -> bool
    ensures { Decides result (AreAmong names.now set.now.keys) }
{
    for name in names.as_slice() {
        if !has_name(set, name) {
            return false;
        }
    }
    true
}

// The kinds of file that the entity has.
#[tactic(auto, unfolding(merge_ranges::specs::Name::has_kind, merge_ranges::specs::Kind::is_index_kind))]
fn kinds_of(entity: Entity) -> &'static [FileKind]
    ensures { result.now ≡ filter (has_kind entity) kinds }
{
    if entity.is_domain() {
        &[
            FileKind::Kv,
            FileKind::Bt,
            FileKind::Kvi,
            FileKind::V,
            FileKind::Vi,
            FileKind::Ef,
            FileKind::Efi,
        ]
    } else {
        &[FileKind::Ef, FileKind::Efi]
    }
}

// Puts the names of a group into the set too.
fn add_group(alloc: Global, set: &mut NameSet, entity: Entity, range: Range) -> Result<(), Memory>
    ensures { OnOk result (set.new.keys ≡ with_names set.old.keys (texts_of (group_names entity range))) }
{
    for kind in kinds_of(entity) {
        let name = FileName {
            entity,
            range,
            kind: *kind,
        };
        let text = name.print(alloc)?;
        let _new = set.insert(text)?;
    }
    Ok(())
}

/// Puts the names of an entity over the ranges into the set too.
pub fn add_entity(alloc: Global, set: &mut NameSet, entity: Entity, cut: &Cut) -> Result<(), Memory>
    ensures { OnOk result (set.new.keys ≡ with_names set.old.keys (entity_texts entity cut.now)) }
{
    for range in cut.as_slice() {
        add_group(alloc, set, entity, *range)?;
    }
    Ok(())
}

/// The names of all entities over the ranges.
pub fn names_over(alloc: Global, cut: &Cut) -> Result<NameSet, Memory>
    ensures { IfOk result (λ set. set.keys ≡ with_names [] (all_texts cut.now)) }
{
    let mut set = BTreeSet::new(alloc);
    add_entity(alloc, &mut set, Entity::Accounts, cut)?;
    add_entity(alloc, &mut set, Entity::Storage, cut)?;
    add_entity(alloc, &mut set, Entity::Code, cut)?;
    add_entity(alloc, &mut set, Entity::LogAddrs, cut)?;
    add_entity(alloc, &mut set, Entity::LogTopics, cut)?;
    add_entity(alloc, &mut set, Entity::TracesFrom, cut)?;
    add_entity(alloc, &mut set, Entity::TracesTo, cut)?;
    Ok(set)
}

/// The names of the set, in order.
pub fn list_of(alloc: Global, set: NameSet) -> Result<Names, Memory>
    ensures { IfOk result (λ names. names ≡ set.keys) }
{
    let mut names = ListOf::new(alloc);
    for name in set {
        names.push(name)?;
    }
    Ok(names)
}
