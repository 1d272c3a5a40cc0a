//! The numbers of several groups, written as they are walked.
ghost use Rattle.std.specs.Prelude.{◌≡◌, ◌+◌, ◌<◌, ◌^◌, ◌++◌, ◌∷◌, [], ℕ, List, length, map, All, IfOk, OnOk};
ghost use Rattle.std.specs.Arc.{arc_value};
ghost use Rattle.agg_model.specs.declared.entity.FileKind.TheVariants.{Ef};
ghost use Rattle.inverted_index.specs.EfFile.{IsTimes, AreLists, tagged_lists};
ghost use Rattle.merge_files.specs.MergedLists.{all_numbers, times_of, HasLists, ListsPut, PutsNextList};
ghost use Rattle.merge_files.specs.Shown.{shown};
ghost use Rattle.merge_files.specs.Walks.{file_pairs, items_left};

use crate::input::have_file;
use crate::item::MergeItem;
use crate::walk::MergeWalk;
use agg_model::{FileKind, Lists, Times};
use agg_outside::{Bytes, Memory, Numbers};
use collate_step::EntityFiles;
use elias_fano::{EfList, encode};
use inverted_index::{EfFile, are_lists};
use std::alloc::Global;
use std::sync::Arc;
use word_file::{Tag, WordWriter};

/// The numbers of all lists of a file are fewer.
const NUMBERS_END: u64 = 8_388_608;

fn add_list(items: &mut Numbers, list: &EfList<'_>) -> Result<(), Memory>
    ensures { OnOk result (items.new ≡ items.old ++ list.now) }
{
    for number in list.iter_from(0) {
        items.push(number)?;
    }
    Ok(())
}

// The numbers of an item, those of the first input first.
fn numbers_of(alloc: Global, item: &MergeItem<'_>) -> Result<Numbers, Memory>
    requires { (shown item.now).kind ≡ Ef }
    ensures { IfOk result (λ ns. ns ≡ all_numbers (shown item.now).words) }
{
    let mut items = Numbers::new(alloc);
    for i in 0..item.lists() {
        let list = item.list(i);
        add_list(&mut items, &list)?;
    }
    Ok(items)
}

// The list of a key alone, where a file of the tag may have it; else want of memory.
fn one_list(alloc: Global, tag: Tag, key: &[u8], items: Numbers) -> Result<Lists, Memory>
    ensures list { IfOk result (λ lists. lists ≡ record { key = key.now; items = items } ∷ []) }
    ensures are { IfOk result (λ lists. AreLists tag lists) }
{
    let key = Bytes::of(alloc, key)?;
    let mut lists = Lists::new(alloc);
    lists.push(Times { key, items })?;
    if !are_lists(tag, &lists) {
        return Err(Memory);
    }
    Ok(lists)
}

// Puts a list behind the words, and answers how many numbers there are then. Too many are answered as want of
// memory.
fn put_times(
    alloc: Global,
    times: &Times,
    counted: u64,
    writer: &mut WordWriter,
) -> Result<u64, Memory>
    requires times { IsTimes writer.old.tag times.now }
    requires few { length times.now.items < 2 ^ 23 }
    requires counted { counted < 2 ^ 23 }
    ensures { IfOk result (λ total. ListsPut counted total writer.old writer.new (times.now ∷ [])) }
{
    let total = counted + times.items.len() as u64;
    if total >= NUMBERS_END {
        return Err(Memory);
    }
    let text = encode(alloc, times.items.as_slice())?;
    writer.push(times.key.as_slice())?;
    writer.push(text.as_slice())?;
    Ok(total)
}

// Puts an item's list.
fn put_item(
    alloc: Global,
    item: &MergeItem<'_>,
    counted: u64,
    tag: Tag,
    writer: &mut WordWriter,
) -> Result<u64, Memory>
    requires kind { (shown item.now).kind ≡ Ef }
    requires tag { writer.old.tag ≡ tag }
    requires counted { counted < 2 ^ 23 }
    ensures { IfOk result (λ total. ListsPut counted total writer.old writer.new (times_of (shown item.now) ∷ [])) }
{
    let items = numbers_of(alloc, item)?;
    let key = item.key();
    let lists = one_list(alloc, tag, key, items)?;
    let lists = lists.as_slice();
    if lists.is_empty() {
        return Err(Memory);
    }
    put_times(alloc, &lists[0], counted, writer)
}

// Puts the next item, if there is one.
fn put_next(
    alloc: Global,
    walk: &mut MergeWalk<'_>,
    counted: u64,
    tag: Tag,
    writer: &mut WordWriter,
) -> Result<Option<u64>, Memory>
    requires tag { writer.old.tag ≡ tag }
    requires counted { counted < 2 ^ 23 }
    ensures { IfOk result (λ total. PutsNextList counted total walk.old walk.new writer.old writer.new) }
{
    let Some(item) = walk.next() else {
        return Ok(None);
    };
    match item.kind {
        FileKind::Ef => Ok(Some(put_item(alloc, &item, counted, tag, writer)?)),
        _ => Err(Memory),
    }
}

// Puts all items.
fn put_all(
    alloc: Global,
    walk: &mut MergeWalk<'_>,
    tag: Tag,
    writer: &mut WordWriter,
) -> Result<u64, Memory>
    requires { writer.old.tag ≡ tag }
    ensures { IfOk result (λ total. ListsPut 0 total writer.old writer.new (map times_of walk.old)) }
{
    let mut counted = 0;
    'items: loop {
        match put_next(alloc, walk, counted, tag, writer)? {
            Some(total) => counted = total,
            None => return Ok(counted),
        }
    }
}

// How many bytes the words of all groups take, of which each has the lists of a file.
fn room_for(groups: &[Arc<EntityFiles>]) -> usize
    ensures { All HasLists (map (λ g. arc_value g) groups.now) }
{
    let mut room = 0usize;
    for i in 0..groups.len() {
        let bytes = groups[i].ef().words().bytes();
        room = room.saturating_add(bytes.len());
    }
    room
}

/// The file of the numbers of all groups, under this tag. No list of a file is held, but the numbers of one key at a
/// time. What no file may have is answered as want of memory.
pub(crate) fn merged_ef(
    alloc: Global,
    tag: Tag,
    groups: &[Arc<EntityFiles>],
) -> Result<EfFile, Memory>
    ensures lists { IfOk result (λ f. All HasLists (map (λ g. arc_value g) groups.now)) }
    ensures file { IfOk result (λ f. f ≡ tagged_lists tag
        (map times_of (items_left Ef (map (file_pairs Ef) (map (λ g. arc_value g) groups.now))))) }
{
    if !have_file(groups, FileKind::Ef) {
        return Err(Memory);
    }
    let room = room_for(groups);
    let mut walk = MergeWalk::of(alloc, groups, FileKind::Ef)?;
    let mut writer = WordWriter::with_room(alloc, tag, room)?;
    put_all(alloc, &mut walk, tag, &mut writer)?;
    EfFile::of(alloc, writer.finish())
}
