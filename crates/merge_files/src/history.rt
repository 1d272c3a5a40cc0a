//! The values before the changes of several groups, written as they are walked.
ghost use Rattle.std.specs.Prelude.{◌≡◌, ◌*◌, ◌<◌, ◌∷◌, [], map, nat_lt, slice_index, IsTrue, IfOk, OnOk};
ghost use Rattle.std.specs.Arc.{arc_value};
ghost use Rattle.agg_model.specs.declared.entity.FileKind.TheVariants.{V};
ghost use Rattle.history_core.specs.VFile.{tagged_befores};
ghost use Rattle.history_core.specs.Befores.{IsInside};
ghost use Rattle.merge_files.specs.MergedRows.{row_of, AreRow, RowsPut, PutsNextRow};
ghost use Rattle.merge_files.specs.Shown.{shown};
ghost use Rattle.merge_files.specs.Walks.{file_pairs, items_left};

use crate::input::have_file;
use crate::item::MergeItem;
use crate::walk::MergeWalk;
use agg_model::{FileKind, KEY_MOST, VALUE_MOST};
use agg_outside::{Memory, slice_fits};
use collate_step::EntityFiles;
use file_numbers::u64_at;
use history_core::VFile;
use std::alloc::Global;
use std::sync::Arc;
use word_file::{Tag, WordWriter};

/// The bytes of the number at the end of a key word.
const NUMBER: usize = 8;

// Whether the number is below the first one of this step. A product that has no room in 64 bits is above each.
fn is_below(step: u64, size: u64, number: u64) -> bool
    ensures { result ≡ nat_lt number (step * size) }
{
    match step.checked_mul(size) {
        Some(first) => number < first,
        None => true,
    }
}

// Whether the number is in the steps of the tag.
fn is_inside(tag: Tag, number: u64) -> bool
    ensures { IsTrue result → IsInside tag number }
{
    !is_below(tag.from, tag.step, number) && is_below(tag.to, tag.step, number)
}

// Whether the words are a row that a file of the tag may have.
fn are_row(tag: Tag, word: &[u8], value: &[u8]) -> bool
    ensures { IsTrue result → AreRow tag word.now value.now }
{
    if word.len() <= NUMBER || (word.len() - NUMBER) as u64 > KEY_MOST {
        return false;
    }
    let number = u64_at(word, word.len() - NUMBER);
    value.len() as u64 <= VALUE_MOST && is_inside(tag, number)
}

// Puts an item's row behind the words. What no file may have is answered as want of memory.
fn put_row(item: &MergeItem<'_>, tag: Tag, writer: &mut WordWriter) -> Result<(), Memory>
    requires { writer.old.tag ≡ tag }
    ensures { OnOk result (RowsPut writer.old writer.new (row_of (shown item.now) ∷ [])) }
{
    let word = item.key();
    let value = item.oldest();
    slice_fits(word);
    if !are_row(tag, word, value) {
        return Err(Memory);
    }
    writer.push(word)?;
    writer.push(value)?;
    Ok(())
}

// Puts the next item, if there is one.
fn put_next(walk: &mut MergeWalk<'_>, tag: Tag, writer: &mut WordWriter) -> Result<bool, Memory>
    requires { writer.old.tag ≡ tag }
    ensures { IfOk result (λ more. PutsNextRow more walk.old walk.new writer.old writer.new) }
{
    let Some(item) = walk.next() else {
        return Ok(false);
    };
    put_row(&item, tag, writer)?;
    Ok(true)
}

// Puts all items.
fn put_all(walk: &mut MergeWalk<'_>, tag: Tag, writer: &mut WordWriter) -> Result<(), Memory>
    requires { writer.old.tag ≡ tag }
    ensures { OnOk result (RowsPut writer.old writer.new (map row_of walk.old)) }
{
    'items: loop {
        if !put_next(walk, tag, writer)? {
            return Ok(());
        }
    }
}

// How many bytes the words of all groups take.
fn room_for(groups: &[Arc<EntityFiles>]) -> usize {
    let mut room = 0usize;
    for i in 0..groups.len() {
        if let Some(bytes) = groups[i].bytes_of(FileKind::V) {
            room = room.saturating_add(bytes.len());
        }
    }
    room
}

/// The file of the values before the changes of all groups, under this tag. No list of a file is held. What no file
/// may have is answered as want of memory.
pub(crate) fn merged_v(
    alloc: Global,
    tag: Tag,
    groups: &[Arc<EntityFiles>],
) -> Result<VFile, Memory>
    ensures { IfOk result (λ f. f ≡ tagged_befores tag
        (map row_of (items_left V (map (file_pairs V) (map (λ g. arc_value g) groups.now))))) }
{
    if !have_file(groups, FileKind::V) {
        return Err(Memory);
    }
    let mut walk = MergeWalk::of(alloc, groups, FileKind::V)?;
    let mut writer = WordWriter::with_room(alloc, tag, room_for(groups))?;
    put_all(&mut walk, tag, &mut writer)?;
    VFile::of(alloc, writer.finish())
}
