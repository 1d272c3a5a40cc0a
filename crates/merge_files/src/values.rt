//! The values of several groups, written as they are walked.
ghost use Rattle.std.specs.Prelude.{◌≡◌, ◌∷◌, [], ℕ, List, map, IsTrue, IfOk, OnOk};
ghost use Rattle.std.specs.Arc.{arc_value};
ghost use Rattle.agg_model.specs.Pairs.{IsPair};
ghost use Rattle.agg_model.specs.declared.entity.FileKind.TheVariants.{Kv};
ghost use Rattle.domain_core.specs.KvFile.{tagged_pairs};
ghost use Rattle.merge_files.specs.KeptPairs.{kept_pairs, ArePut, PutsNext};
ghost use Rattle.merge_files.specs.Shown.{shown};
ghost use Rattle.merge_files.specs.Walks.{file_pairs, items_left};

use crate::input::have_file;
use crate::item::MergeItem;
use crate::walk::MergeWalk;
use agg_model::{FileKind, KEY_MOST, VALUE_MOST};
use agg_outside::Memory;
use collate_step::EntityFiles;
use domain_core::KvFile;
use std::alloc::Global;
use std::sync::Arc;
use word_file::{Tag, WordWriter};

// Whether a file may have the pair.
fn is_pair(key: &[u8], value: &[u8]) -> bool
    ensures { IsTrue result → IsPair (record { key = key.now; value = value.now }) }
{
    let key = key.len() as u64;
    let value = value.len() as u64;
    1 <= key && key <= KEY_MOST && value <= VALUE_MOST
}

// Puts an item's pair behind the words, but for one without a value in files from step 0 on. What no file may have
// is answered as want of memory.
fn put_item(item: &MergeItem<'_>, from: u64, writer: &mut WordWriter) -> Result<(), Memory>
    ensures { OnOk result (ArePut writer.old writer.new (kept_pairs from (shown item.now ∷ []))) }
{
    let key = item.key();
    let value = item.newest();
    if from == 0 && value.is_empty() {
        return Ok(());
    }
    if !is_pair(key, value) {
        return Err(Memory);
    }
    writer.push(key)?;
    writer.push(value)?;
    Ok(())
}

// Puts the next item, if there is one.
fn put_next(walk: &mut MergeWalk<'_>, from: u64, writer: &mut WordWriter) -> Result<bool, Memory>
    ensures { IfOk result (λ more. PutsNext from more walk.old walk.new writer.old writer.new) }
{
    let Some(item) = walk.next() else {
        return Ok(false);
    };
    put_item(&item, from, writer)?;
    Ok(true)
}

// Puts all items.
fn put_all(walk: &mut MergeWalk<'_>, from: u64, writer: &mut WordWriter) -> Result<(), Memory>
    ensures { OnOk result (ArePut writer.old writer.new (kept_pairs from walk.old)) }
{
    'items: loop {
        if !put_next(walk, from, writer)? {
            return Ok(());
        }
    }
}

// How many bytes the words of all groups take.
fn room_for(groups: &[Arc<EntityFiles>]) -> usize {
    let mut room = 0usize;
    for i in 0..groups.len() {
        if let Some(bytes) = groups[i].bytes_of(FileKind::Kv) {
            room = room.saturating_add(bytes.len());
        }
    }
    room
}

/// The file of the newest values of all groups, under this tag, where the files begin with this step. No list of a
/// file is held. What no file may have is answered as want of memory.
pub(crate) fn merged_kv(
    alloc: Global,
    tag: Tag,
    from: u64,
    groups: &[Arc<EntityFiles>],
) -> Result<KvFile, Memory>
    ensures { IfOk result (λ f. f ≡ tagged_pairs tag
        (kept_pairs from (items_left Kv (map (file_pairs Kv) (map (λ g. arc_value g) groups.now))))) }
{
    if !have_file(groups, FileKind::Kv) {
        return Err(Memory);
    }
    let mut walk = MergeWalk::of(alloc, groups, FileKind::Kv)?;
    let mut writer = WordWriter::with_room(alloc, tag, room_for(groups))?;
    put_all(&mut walk, from, &mut writer)?;
    KvFile::of(alloc, writer.finish())
}
