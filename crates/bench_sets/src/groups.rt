ghost use Rattle.std.specs.Prelude.{◌≡◌, IfOk, IfSome};
ghost use Rattle.std.specs.Arc.{arc_value};
ghost use Rattle.merge_ranges.specs.declared.name.FileName.{FileName};
ghost use Rattle.visible_files.specs.Ids.{ExtendsOrMerges};
ghost use Rattle.visible_files.specs.Held.{count_of};

use agg_model::{Entity, Range};
use agg_outside::Memory;
use merge_ranges::{Cut, Group, next_merge};
use std::alloc::Global;
use std::sync::Arc;
use visible_files::{FileSet, FileSets, can_begin, can_follow};

/// A group without its files.
#[derive(Debug, Drop)]
pub struct Files {
    pub entity: Entity,
    pub range: Range,
}

impl Group for Files {
    ghost entity_of = { λ f. f.entity };

    ghost range_of = { λ f. f.range };

    fn entity(&self) -> Entity {
        self.entity
    }

    fn range(&self) -> Range {
        self.range
    }
}

fn group_over(alloc: Global, entity: Entity, range: Range) -> Result<Arc<Files>, Memory>
    ensures { IfOk result (λ a. arc_value a ≡ record { entity = entity; range = range }) }
{
    Ok(Arc::new(alloc, Files { entity, range })?)
}

/// All entities.
pub const ENTITIES: [Entity; 7] = [
    Entity::Accounts,
    Entity::Storage,
    Entity::Code,
    Entity::LogAddrs,
    Entity::LogTopics,
    Entity::TracesFrom,
    Entity::TracesTo,
];

fn steps(alloc: Global, count: u64) -> Result<Vec<Arc<Files>>, Memory> {
    let mut groups = Vec::new(alloc);
    for entity in ENTITIES {
        for from in 0..count {
            let to = from + 1;
            groups.push(group_over(alloc, entity, Range { from, to })?)?;
        }
    }
    Ok(groups)
}

/// So many groups of one step of each entity; none where that is no set.
pub fn begun(alloc: Global, count: u64) -> Result<Option<FileSets<Files>>, Memory> {
    let groups = steps(alloc, count)?;
    let can = can_begin(alloc, groups.as_slice(), count)?;
    if !can {
        return Ok(None);
    }
    Ok(Some(FileSets::new(alloc, groups, count)?))
}

fn next_range(alloc: Global, set: &FileSet<Files>, entity: Entity) -> Result<Option<Range>, Memory>
    ensures { IfOk result (λ next. IfSome next (λ range.
        ExtendsOrMerges set.now.ids (record { entity = entity; range = range }))) }
{
    let cut = set.cut(alloc, entity)?;
    let busy = Cut::new(alloc);
    let Some(range) = next_merge(&cut, &busy) else {
        return Ok(None);
    };
    Ok(Some(range))
}

// The most groups that a merge is made over.
const GROUPS_MOST: usize = 100_000;

/// Publishes the next merge of the entity; false where there is none.
pub fn merged(alloc: Global, sets: &mut FileSets<Files>, entity: Entity) -> Result<bool, Memory>
    ensures { (n : FileName) → count_of sets.new.held n ≡ count_of sets.old.held n }
{
    let groups = sets.current().groups().len();
    if groups > GROUPS_MOST {
        return Ok(false);
    }
    let end = sets.current().end();
    sets.reserve(groups + 1)?;
    let next = next_range(alloc, sets.current(), entity)?;
    let Some(range) = next else {
        return Ok(false);
    };
    let added = group_over(alloc, entity, range)?;
    let list = vec![in alloc; added]?;
    let can = can_follow(alloc, sets.current(), list.as_slice(), end)?;
    if !can {
        return Ok(false);
    }
    let prepared = sets.prepare(alloc, list)?;
    sets.publish(prepared);
    Ok(true)
}
