//! The values before a step, out of the groups below it.
ghost use Rattle.std.specs.Prelude.{◌≡◌, ◌==◌, ◌<◌, map, IfOk};
ghost use Rattle.std.specs.Arc.{arc_value};
ghost use Rattle.std.specs.Option.{option_copied};
ghost use Rattle.agg_model.specs.Entity.{entity_number};
ghost use Rattle.agg_model.specs.Pairs.{newest_word, word_in};
ghost use Rattle.collate_step.specs.Groups.{GroupFiles, groups_for, pairs_for, word_of_group};

use crate::befores::Earlier;
use crate::entity_files::EntityFiles;
use agg_model::Entity;
use agg_outside::{Memory, Steps};
use std::alloc::Global;
use std::marker::Brand;
use std::sync::Arc;
use std::sync::ledger::{Blank, Ledger};

/// The groups below a step, of which those of one entity are looked into.
#[derive(Debug, Drop)]
pub(crate) struct EarlierValues<'a> {
    pub(crate) entity: Entity,
    pub(crate) groups: &'a [Arc<EntityFiles>],
}

// Whether the group is one of the entity.
fn is_of(entity: Entity, group: &EntityFiles) -> bool
    ensures { result ≡ (entity_number group.now.entity == entity_number entity) }
{
    group.entity().number() == entity.number()
}

/// The groups of the entity, each once more, so that a look for one of its keys passes by no group of another.
pub(crate) fn groups_of(
    alloc: Global,
    entity: Entity,
    groups: &[Arc<EntityFiles>],
) -> Result<Vec<Arc<EntityFiles>>, Memory>
    ensures { IfOk result (λ own. map (λ g. arc_value g) own.items
        ≡ groups_for entity (map (λ g. arc_value g) groups.now)) }
{
    let mut own = Vec::new(alloc);
    for group in groups {
        if is_of(entity, group) {
            own.push(Arc::try_clone(group)?)?;
        }
    }
    Ok(own)
}

// The stored value of a key in a group, if it is one of the entity.
fn word_of_group<'a, L: Ledger>(
    entity: Entity,
    group: &'a EntityFiles,
    key: &[u8],
    steps: &mut Steps<L>,
) -> Option<&'a [u8]>
    ensures { option_copied result ≡ word_of_group entity group.now key.now }
{
    if !is_of(entity, group) {
        return None;
    }
    let kv = group.kv()?;
    kv.get(key, steps)
}

/// The stored value of a key in the last of the groups of the entity that has it.
pub fn newest_word<'a, L: Ledger>(
    entity: Entity,
    groups: &'a [Arc<EntityFiles>],
    key: &[u8],
    steps: &mut Steps<L>,
) -> Option<&'a [u8]>
    ensures { option_copied result ≡ newest_word (pairs_for entity (map (λ g. arc_value g) groups.now)) key.now }
{
    let mut left = groups.len();
    while left > 0 {
        left -= 1;
        if let Some(word) = word_of_group(entity, &groups[left], key, steps) {
            return Some(word);
        }
    }
    None
}

fn newest_uncounted<'a, L: Ledger>(
    entity: Entity,
    groups: &'a [Arc<EntityFiles>],
    key: &[u8],
    blank: Blank,
) -> Option<&'a [u8]>
    requires name { blank.name ≡ L.name }
    requires parts { blank.parts ≡ L.parts }
    requires some { 0 < L.parts }
    ensures { option_copied result ≡ newest_word (pairs_for entity (map (λ g. arc_value g) groups.now)) key.now }
{
    let mut steps = Steps::<L>::of(blank);
    newest_word(entity, groups, key, &mut steps)
}

impl<'a> Earlier for EarlierValues<'a> {
    ghost use Rattle.std.specs.Prelude.{map};
    ghost use Rattle.std.specs.Arc.{arc_value};
    ghost use Rattle.collate_step.specs.Groups.{value_in_groups};

    ghost found = { λ it k. value_in_groups it.entity (map (λ g. arc_value g) it.groups.now) k };

    fn word(&self, key: &[u8]) -> &[u8] {
        match newest_uncounted::<Brand>(self.entity, self.groups, key, Blank::new(1)) {
            Some(word) => word,
            None => &[],
        }
    }
}
