//! Where a page stands in each group of its entity.
ghost use Rattle.std.specs.Prelude.{◌≡◌, ◌++◌, [], ◌∷◌, map, Some, IfSome, IfOk, OnOk, IfErr};
ghost use Rattle.std.specs.Arc.{arc_value};
ghost use Rattle.std.specs.Option.{option_copied, option_map};
ghost use Rattle.collate_step.specs.Groups.{groups_for};
ghost use Rattle.hot_keeper.specs.declared.error.ReadError.TheVariants.{Memory as NoMemory};
ghost use Rattle.inverted_index.specs.EfFile.{words_of};
ghost use Rattle.recsplit_index.specs.Keys.{IsKeyAt};
ghost use Rattle.window_pages.specs.Finds.{numbers_at};
ghost use Rattle.window_pages.specs.Places.{place_from, places_from, next_moved, moved, least_next, is_at};

use crate::lists::{key_from, next_in_group};
use crate::order::{is_below, lesser};
use agg_model::Entity;
use collate_step::EntityFiles;
use elias_fano::EfList;
use std::alloc::Global;
use std::marker::Model;
use std::sync::Arc;
use window_reads::{ReadError, is_of};

/// A group, the next key of its `.ef` file where there is one, and the offset of its pair. It only moves forward, so
/// that a page goes over each key of a group once.
#[derive(Drop)]
pub(crate) struct Cursor<'a> {
    group: &'a EntityFiles,
    next: Option<&'a [u8]>,
    at: u64,
}

impl<'a> Model for Cursor<'a> {
    ghost use Rattle.std.specs.Option.{option_copied};
    ghost use Rattle.window_pages.specs.Places.{Place, IsPlaced};

    ghost Value = { Place };

    ghost view = { λ c. record { group = c.group.now; next = option_copied c.next } };

    ghost invariant = { λ c. IsPlaced c.group.now.ef.lists (option_copied c.next) c.at };
}

impl<'a> Cursor<'a> {
    // At what was found in the group.
    fn of(group: &'a EntityFiles, found: Option<(&'a [u8], u64)>) -> Cursor<'a>
        requires { IfSome found (λ p. IsKeyAt (words_of group.now.ef.lists) p.0.now p.1) }
        ensures { result ≡ record { group = group.now; next = option_map (λ p. p.0.now) found.entry } }
    {
        match found {
            Some((key, at)) => Cursor {
                group,
                next: Some(key),
                at,
            },
            None => Cursor {
                group,
                next: None,
                at: 0,
            },
        }
    }

    // At the first key that isn't below this one.
    fn begin(group: &'a EntityFiles, first: &[u8]) -> Cursor<'a>
        ensures { result ≡ place_from first.now group.now }
    {
        Cursor::of(group, next_in_group(group, first))
    }

    // The same from where it stands.
    fn moved_to(&self, first: &[u8]) -> Cursor<'a>
        ensures { result ≡ moved first.now self.now }
    {
        let found = match self.next {
            Some(key) => found_from(self.group, key, self.at, first),
            None => None,
        };
        Cursor::of(self.group, found)
    }

    pub(crate) fn group(&self) -> &'a EntityFiles
        ensures { result.now ≡ self.now.group }
    {
        self.group
    }

    /// The next key.
    pub(crate) fn next(&self) -> Option<&'a [u8]>
        ensures { option_copied result ≡ self.now.next }
    {
        self.next
    }

    /// Whether it stands at this key.
    pub(crate) fn is_at(&self, key: &[u8]) -> bool
        ensures { result ≡ is_at self.now.next key.now }
    {
        match self.next {
            Some(next) => next == key,
            None => false,
        }
    }

    /// The numbers of the key, if it stands there: no accessor is looked into.
    pub(crate) fn numbers(&self, key: &[u8]) -> Option<EfList<'a>>
        ensures { result ≡ numbers_at self.now key.now }
    {
        if !self.is_at(key) {
            return None;
        }
        let ef = self.group.ef();
        // That the keys ascend is a clause of this call.
        let _held = ef.words();
        let (_next, numbers) = ef.pair_at(self.at);
        Some(numbers)
    }
}

// The first key from this place on that isn't below the first one.
fn found_from<'a>(
    group: &'a EntityFiles,
    key: &'a [u8],
    at: u64,
    first: &[u8],
) -> Option<(&'a [u8], u64)>
    requires { IsKeyAt (words_of group.now.ef.lists) key.now at }
    ensures next { option_map (λ p. p.0.now) result ≡ next_moved first.now group.now.ef.lists (Some key.now) }
    ensures there { IfSome result (λ p. IsKeyAt (words_of group.now.ef.lists) p.0.now p.1) }
{
    if !is_below(key, first) {
        return Some((key, at));
    }
    let ef = group.ef();
    // That the keys ascend is a clause of this call.
    let _held = ef.words();
    key_from(ef, first, at)
}

// Adds the cursor at the end.
fn add<'a>(cursors: &mut Vec<Cursor<'a>>, cursor: Cursor<'a>) -> Result<(), ReadError>
    ensures ok { OnOk result (cursors.new.items ≡ cursors.old.items ++ cursor.entry ∷ []) }
    ensures err { IfErr result (λ e. e ≡ NoMemory) }
{
    match cursors.push(cursor) {
        Ok(()) => Ok(()),
        Err(_) => Err(ReadError::Memory),
    }
}

/// A cursor for each group of the entity, at its first key that isn't below this one.
pub(crate) fn cursors_from<'a>(
    alloc: Global,
    files: &'a [Arc<EntityFiles>],
    entity: Entity,
    first: &[u8],
) -> Result<Vec<Cursor<'a>>, ReadError>
    ensures ok { IfOk result (λ cursors. cursors.items
        ≡ places_from first.now (groups_for entity (map (λ g. arc_value g) files.now))) }
    ensures err { IfErr result (λ e. e ≡ NoMemory) }
{
    let mut cursors = Vec::new(alloc);
    for group in files {
        if is_of(group, entity) {
            add(&mut cursors, Cursor::begin(group, first))?;
        }
    }
    Ok(cursors)
}

/// Moves each to the first key that isn't below this one.
pub(crate) fn move_all(cursors: &mut [Cursor<'_>], first: &[u8])
    ensures { cursors.new ≡ map (moved first.now) cursors.old }
{
    for cursor in cursors.iter_mut() {
        *cursor = cursor.moved_to(first);
    }
}

/// The least of the next keys.
pub(crate) fn least<'a>(cursors: &[Cursor<'a>]) -> Option<&'a [u8]>
    ensures { option_copied result ≡ least_next cursors.now }
{
    let mut next = None;
    let mut left = cursors.len();
    while left > 0 {
        left -= 1;
        next = lesser(cursors[left].next(), next);
    }
    next
}
