//! How a file is built of its pairs.
ghost use Rattle.std.specs.Prelude.{◌≡◌, ℕ, [], ◌∷◌, ◌+◌, ◌*◌, ◌<◌, ◌≤◌, List, ◌++◌, All, IfOk, OnOk};
ghost use Rattle.agg_model.specs.ChangeList.{ChangeList, IsChangeList};
ghost use Rattle.agg_model.specs.Contents.{changes_over, kv_contents};
ghost use Rattle.agg_model.specs.Pairs.{IsPair, ArePairs};
ghost use Rattle.agg_model.specs.declared.change.Change.{Change};
ghost use Rattle.agg_model.specs.declared.entity.Entity.{Entity};
ghost use Rattle.word_file.specs.Reading.{tagged};
ghost use Rattle.domain_core.specs.KvFile.{TaggedPairs, words_of, tagged_pairs, kv_tag, kv_spelling, bt_spelling, kvi_spelling, kv_file_of, kv_file_bytes, bt_file_bytes, kvi_file_bytes};

use crate::check::are_pairs;
use crate::kv_file::KvFile;
use crate::step::step_pairs;
use agg_model::{Change, Entity, Pair, Pairs, Range};
use agg_outside::Memory;
use std::alloc::Global;
use word_file::{Tag, WordFile, WordWriter};

fn push_pair(writer: &mut WordWriter, pair: &Pair) -> Result<(), Memory>
    requires { IsPair pair.now }
    ensures { OnOk result
        (writer.new ≡ tagged writer.old.tag (writer.old.words ++ pair.now.key ∷ pair.now.value ∷ [])) }
{
    writer.push(pair.key.as_slice())?;
    writer.push(pair.value.as_slice())?;
    Ok(())
}

// How many bytes the words take.
fn room_for(pairs: &[Pair]) -> usize {
    let mut room = 0usize;
    for pair in pairs {
        let lengths = pair
            .key
            .as_slice()
            .len()
            .saturating_add(pair.value.as_slice().len());
        room = room.saturating_add(lengths).saturating_add(8);
    }
    room
}

fn words_for(alloc: Global, tag: Tag, pairs: &[Pair]) -> Result<WordFile, Memory>
    requires { All IsPair pairs.now }
    ensures { IfOk result (λ words. words ≡ tagged tag (words_of pairs.now)) }
{
    let mut writer = WordWriter::with_room(alloc, tag, room_for(pairs))?;
    for pair in pairs {
        push_pair(&mut writer, pair)?;
    }
    Ok(writer.finish())
}

/// The file of these pairs.
pub fn build_kv(alloc: Global, tag: Tag, pairs: &Pairs) -> Result<KvFile, Memory>
    requires { ArePairs pairs.now }
    ensures { IfOk result (λ file. file ≡ tagged_pairs tag pairs.now) }
{
    let words = words_for(alloc, tag, pairs.as_slice())?;
    KvFile::of(alloc, words)
}

/// What the `.kv` file of an entity over these steps says that it is of.
pub fn kv_tag(entity: Entity, size: u64, range: Range) -> Tag
    ensures { result ≡ kv_tag entity size range.from range.to }
{
    Tag {
        entity: entity.number(),
        kind: 0,
        version: 1,
        step: size,
        from: range.from,
        to: range.to,
    }
}

/// The file of one step, from the changes of the entity in it, sorted by key and number. Changes of no
/// list, whose keys don't ascend or are too long, are answered as want of memory.
pub fn build_step(
    alloc: Global,
    entity: Entity,
    size: u64,
    step: u64,
    changes: &[Change],
) -> Result<KvFile, Memory>
    requires { step < 4096 }
    ensures { (list : ChangeList) → IsChangeList list → list.size ≡ size →
        changes.now ≡ changes_over size list.changes entity step (step + 1) →
        IfOk result (λ file. file ≡ kv_file_of size list.changes entity step (step + 1)) }
{
    let pairs = step_pairs(alloc, step, changes)?;
    if !are_pairs(&pairs) {
        return Err(Memory);
    }
    let range = Range {
        from: step,
        to: step + 1,
    };
    build_kv(alloc, kv_tag(entity, size, range), &pairs)
}

/// What holds of the bytes of files over every list.
pub fn file_laws()
    ensures bytes { (size : ℕ) (changes : List Change) (e : Entity) (from to : ℕ) (file : TaggedPairs) →
        file ≡ tagged_pairs (kv_tag e size from to) (kv_contents size changes e from to) →
        kv_spelling file ≡ kv_file_bytes size changes e from to }
    ensures bt_bytes { (size : ℕ) (changes : List Change) (e : Entity) (from to : ℕ) (file : TaggedPairs) →
        file ≡ kv_file_of size changes e from to → bt_spelling file ≡ bt_file_bytes size changes e from to }
    ensures kvi_bytes { (size : ℕ) (changes : List Change) (e : Entity) (from to : ℕ) (file : TaggedPairs) →
        file ≡ kv_file_of size changes e from to → kvi_spelling file ≡ kvi_file_bytes size changes e from to }
    // Changes from the end of the steps on leave the files alone.
    ensures stays { (size : ℕ) (cs ds : List Change) (e : Entity) (from to : ℕ) →
        All (λ d. to * size ≤ d.tx) ds →
        kv_file_bytes size (cs ++ ds) e from to ≡ kv_file_bytes size cs e from to }
    ensures bt_stays { (size : ℕ) (cs ds : List Change) (e : Entity) (from to : ℕ) →
        All (λ d. to * size ≤ d.tx) ds →
        bt_file_bytes size (cs ++ ds) e from to ≡ bt_file_bytes size cs e from to }
    ensures kvi_stays { (size : ℕ) (cs ds : List Change) (e : Entity) (from to : ℕ) →
        All (λ d. to * size ≤ d.tx) ds →
        kvi_file_bytes size (cs ++ ds) e from to ≡ kvi_file_bytes size cs e from to }
{}
