//! A walk over the words of the files of a kind, key word by key word.
ghost use Rattle.std.specs.Prelude.{◌≡◌, ◌≤◌, [], ◌∷◌, length, map, take, drop, All, IfOk, MatchOption};
ghost use Rattle.std.specs.Borrow.{sem};
ghost use Rattle.std.specs.Arc.{arc_value};
ghost use Rattle.agg_model.specs.declared.entity.FileKind.{FileKind};
ghost use Rattle.merge_files.specs.Walks.{IsWalked, HasFile, IsInput, IsWalk, IsGiven, HasWords};
ghost use Rattle.merge_files.specs.Walks.{file_pairs, items_left};
ghost use Rattle.merge_files.specs.Shown.{shown};

use crate::cursor::Cursor;
use crate::input::input_of;
use crate::item::MergeItem;
use crate::least::{choose, give_all};
use agg_model::FileKind;
use agg_outside::Memory;
use collate_step::EntityFiles;
use std::alloc::Global;
use std::marker::Model;
use std::sync::Arc;

/// The key words of the files of a kind, in their order, that have not been given yet.
#[derive(Debug, Drop)]
pub struct MergeWalk<'a> {
    kind: FileKind,
    inputs: Vec<Cursor<'a>>,
    marks: Vec<usize>,
    words: Vec<&'a [u8]>,
}

impl<'a> Model for MergeWalk<'a> {
    ghost use Rattle.std.specs.Prelude.{List};
    ghost use Rattle.merge_files.specs.Walks.{Item, IsWalk, items_left};

    ghost Value = { List Item };

    ghost view = { λ w. items_left w.kind w.inputs.items };

    ghost invariant = { λ w. IsWalk w.kind w.inputs.items w.marks.items w.words.items };
}

// The next key word, and how many value words are given.
#[derive(Debug, Drop)]
struct Given<'a> {
    key: &'a [u8],
    count: usize,
}

fn give_next<'a>(
    kind: FileKind,
    inputs: &mut Vec<Cursor<'a>>,
    marks: &mut Vec<usize>,
    words: &mut Vec<&'a [u8]>,
) -> Option<Given<'a>>
    requires { IsWalk kind inputs.old.items marks.old.items words.old.items }
    ensures walk { IsWalk kind inputs.new.items marks.new.items words.new.items }
    ensures item { MatchOption result
        ((items_left kind inputs.old.items ≡ []) × (items_left kind inputs.new.items ≡ []))
        (λ g. IsGiven kind g.key.now g.count (map (λ w. w.now) words.new.items) (items_left kind inputs.old.items)
        (items_left kind inputs.new.items)) }
{
    let least = choose(kind, inputs.as_slice(), marks.as_mut_slice());
    let Some(key) = least.word else {
        return None;
    };
    let count = give_all(
        inputs.as_mut_slice(),
        marks.as_slice(),
        least.turn,
        words.as_mut_slice(),
    );
    Some(Given { key, count })
}

// The first so many of the words.
fn front<'a>(words: &'a [&'a [u8]], count: usize) -> &'a [&'a [u8]]
    requires { count ≤ length words.now }
    ensures { result.now ≡ take count words.now }
{
    &words[..count]
}

// The item of this key word, whose value words are the first so many.
fn item_of<'a>(kind: FileKind, key: &'a [u8], words: &'a [&'a [u8]], count: usize) -> MergeItem<'a>
    requires { HasWords kind count (map (λ w. w.now) words.now) }
    ensures { shown result ≡ record { kind = kind; key = key.now; words = take count (map (λ w. w.now) words.now) } }
{
    let words = front(words, count);
    MergeItem { kind, key, words }
}

// The files of this kind of the groups.
fn inputs_of<'a>(
    alloc: Global,
    groups: &'a [Arc<EntityFiles>],
    kind: FileKind,
) -> Result<Vec<Cursor<'a>>, Memory>
    requires walked { IsWalked kind }
    requires there { All (HasFile kind) (map (λ g. arc_value g) groups.now) }
    ensures pairs { IfOk result (λ v. v.items ≡ map (file_pairs kind) (map (λ g. arc_value g) groups.now)) }
    ensures inputs { IfOk result (λ v. All (IsInput kind) v.items) }
{
    let mut inputs = Vec::with_capacity(alloc, groups.len())?;
    for i in 0..groups.len() {
        inputs.push(input_of(&groups[i], kind))?;
    }
    Ok(inputs)
}

// A place for a value word of each of so many inputs.
fn places_for<'a>(alloc: Global, count: usize) -> Result<Vec<&'a [u8]>, Memory>
    ensures { IfOk result (λ v. length v.items ≡ count) }
{
    let mut places: Vec<&'a [u8]> = Vec::with_capacity(alloc, count)?;
    for _passed in 0..count {
        places.push(&[])?;
    }
    Ok(places)
}

impl<'a> MergeWalk<'a> {
    ghost use Rattle.merge_files.specs.WalkLends.{EndsWith};

    /// A walk over the files of this kind, of which nothing has been given yet. Takes one place for each input.
    pub fn of(
        alloc: Global,
        inputs: &'a [Arc<EntityFiles>],
        kind: FileKind,
    ) -> Result<MergeWalk<'a>, Memory>
        requires walked { IsWalked kind }
        requires there { All (HasFile kind) (map (λ g. arc_value g) inputs.now) }
        ensures { IfOk result
            (λ walk. walk ≡ items_left kind (map (file_pairs kind) (map (λ g. arc_value g) inputs.now))) }
    {
        let marks = vec![in alloc; 0; inputs.len()]?;
        let words = places_for(alloc, inputs.len())?;
        let inputs = inputs_of(alloc, inputs, kind)?;
        Ok(MergeWalk {
            kind,
            inputs,
            marks,
            words,
        })
    }

    /// The least key word that has not been given yet, and its value words; `None` exactly where all were given.
    pub fn next(&mut self) -> Option<MergeItem<'_>>
        ensures* leaves { sem 𝓛 (EndsWith self.entry (drop 1 self.old)) }
        ensures item { MatchOption result (self.old ≡ []) (λ item. self.old ≡ shown item ∷ drop 1 self.old) }
    {
        let given = give_next(
            self.kind,
            &mut self.inputs,
            &mut self.marks,
            &mut self.words,
        );
        let Some(given) = given else {
            return None;
        };
        Some(item_of(self.kind, given.key, self.words.as_slice(), given.count))
    }
}
