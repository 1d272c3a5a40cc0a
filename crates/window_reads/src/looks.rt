//! Looks for a key into the groups of an entity.
ghost use Rattle.std.specs.Prelude.{◌≡◌, ◌*◌, ◌<◌, ◌==◌, nat_le, map};
ghost use Rattle.std.specs.Arc.{arc_value};
ghost use Rattle.std.specs.Option.{option_copied, option_or};
ghost use Rattle.agg_model.specs.Entity.{entity_number};
ghost use Rattle.agg_model.specs.Pairs.{newest_word};
ghost use Rattle.collate_step.specs.Groups.{GroupFiles, pairs_for};
ghost use Rattle.window_reads.specs.Folds.{word_before_in, word_from, first_word};

use agg_model::Entity;
use agg_outside::Steps;
use collate_step::{EntityFiles, newest_word};
use std::marker::Brand;
use std::sync::Arc;
use std::sync::ledger::{Blank, Ledger};

/// Whether the group is one of the entity.
pub fn is_of(group: &EntityFiles, entity: Entity) -> bool
    ensures { result ≡ (entity_number group.now.entity == entity_number entity) }
{
    group.entity().number() == entity.number()
}

/// Whether the steps of the group end by the number.
pub fn ends_by(group: &EntityFiles, size: u64, n: u64) -> bool
    ensures { result ≡ nat_le (group.now.range.to * size) n }
{
    u128::from(group.range().to) * u128::from(size) <= u128::from(n)
}

// The stored value before the first change of a key in a group from `n` on.
fn word_before<'a, L: Ledger>(
    group: &'a EntityFiles,
    key: &[u8],
    n: u64,
    steps: &mut Steps<L>,
) -> Option<&'a [u8]>
    ensures { option_copied result ≡ word_before_in group.now key.now n }
{
    let number = group.ef().first_from(key, n, steps)?;
    let values = group.v()?;
    values.previous(key, number, steps)
}

// The same, where the group is one of the entity and doesn't end by the number.
fn word_from<'a, L: Ledger>(
    entity: Entity,
    group: &'a EntityFiles,
    size: u64,
    key: &[u8],
    n: u64,
    steps: &mut Steps<L>,
) -> Option<&'a [u8]>
    ensures { option_copied result ≡ word_from size entity key.now n group.now }
{
    if !is_of(group, entity) || ends_by(group, size, n) {
        return None;
    }
    word_before(group, key, n, steps)
}

// In the first of the groups of the entity that has such a change.
fn first_word<'a, L: Ledger>(
    entity: Entity,
    files: &'a [Arc<EntityFiles>],
    size: u64,
    key: &[u8],
    n: u64,
    steps: &mut Steps<L>,
) -> Option<&'a [u8]>
    ensures { option_copied result ≡ first_word size entity key.now n (map (λ g. arc_value g) files.now) }
{
    for group in files {
        if let Some(word) = word_from(entity, group, size, key, n, steps) {
            return Some(word);
        }
    }
    None
}

fn newest_uncounted<'a, L: Ledger>(
    entity: Entity,
    files: &'a [Arc<EntityFiles>],
    key: &[u8],
    blank: Blank,
) -> Option<&'a [u8]>
    requires name { blank.name ≡ L.name }
    requires parts { blank.parts ≡ L.parts }
    requires some { 0 < L.parts }
    ensures { option_copied result ≡ newest_word (pairs_for entity (map (λ g. arc_value g) files.now)) key.now }
{
    let mut steps = Steps::<L>::of(blank);
    newest_word(entity, files, key, &mut steps)
}

fn before_uncounted<'a, L: Ledger>(
    entity: Entity,
    files: &'a [Arc<EntityFiles>],
    size: u64,
    key: &[u8],
    n: u64,
    blank: Blank,
) -> Option<&'a [u8]>
    requires name { blank.name ≡ L.name }
    requires parts { blank.parts ≡ L.parts }
    requires some { 0 < L.parts }
    ensures { option_copied result ≡ option_or (first_word size entity key.now n (map (λ g. arc_value g) files.now))
        (newest_word (pairs_for entity (map (λ g. arc_value g) files.now)) key.now) }
{
    let mut steps = Steps::<L>::of(blank);
    match first_word(entity, files, size, key, n, &mut steps) {
        Some(word) => Some(word),
        None => newest_word(entity, files, key, &mut steps),
    }
}

/// The stored value of a key at the end of the files: a look into each file from the last on, up to the one that
/// has the key.
pub(crate) fn newest_in_files<'a>(
    entity: Entity,
    files: &'a [Arc<EntityFiles>],
    key: &[u8],
) -> Option<&'a [u8]>
    ensures { option_copied result ≡ newest_word (pairs_for entity (map (λ g. arc_value g) files.now)) key.now }
{
    newest_uncounted::<Brand>(entity, files, key, Blank::new(1))
}

/// The stored value of a key just before `n`, which lies below the end of the files: the one before its first change
/// from `n` on, or where the files have none, the one at their end.
pub(crate) fn before_in_files<'a>(
    entity: Entity,
    files: &'a [Arc<EntityFiles>],
    size: u64,
    key: &[u8],
    n: u64,
) -> Option<&'a [u8]>
    ensures { option_copied result ≡ option_or (first_word size entity key.now n (map (λ g. arc_value g) files.now))
        (newest_word (pairs_for entity (map (λ g. arc_value g) files.now)) key.now) }
{
    before_uncounted::<Brand>(entity, files, size, key, n, Blank::new(1))
}
