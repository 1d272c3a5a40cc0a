//! The tag of a file, and what holds of the bytes of files over every list.
ghost use Rattle.std.specs.Prelude.{◌≡◌, ℕ, ◌*◌, ◌≤◌, ◌<◌, ◌^◌, List, ◌++◌, All};
ghost use Rattle.agg_model.specs.Batch.{content_of};
ghost use Rattle.agg_model.specs.ChangeList.{ChangeList, IsChangeList};
ghost use Rattle.agg_model.specs.Contents.{ef_contents};
ghost use Rattle.agg_model.specs.declared.change.Change.{Change};
ghost use Rattle.agg_model.specs.declared.entity.Entity.{Entity};
ghost use Rattle.inverted_index.specs.EfFile.{TaggedLists, AreLists, ef_tag, ef_file, ef_spelling, efi_spelling, ef_file_bytes, efi_file_bytes};

use agg_model::{Entity, Range};
use word_file::Tag;

/// What the `.ef` file of an entity over these steps says that it is of.
pub fn ef_tag(entity: Entity, size: u64, range: Range) -> Tag
    ensures { result ≡ ef_tag entity size range.from range.to }
{
    Tag {
        entity: entity.number(),
        kind: 2,
        version: 1,
        step: size,
        from: range.from,
        to: range.to,
    }
}

/// What holds of the bytes of files over every list.
pub fn file_laws()
    ensures bytes { (size : ℕ) (changes : List Change) (e : Entity) (from to : ℕ) (file : TaggedLists) →
        file ≡ ef_file size changes e from to → ef_spelling file ≡ ef_file_bytes size changes e from to }
    ensures accessor { (size : ℕ) (changes : List Change) (e : Entity) (from to : ℕ) (file : TaggedLists) →
        file ≡ ef_file size changes e from to → efi_spelling file ≡ efi_file_bytes size changes e from to }
    // Changes from the end of the steps on leave the files alone.
    ensures stays { (size : ℕ) (cs ds : List Change) (e : Entity) (from to : ℕ) →
        All (λ d. to * size ≤ d.tx) ds → ef_file_bytes size (cs ++ ds) e from to ≡ ef_file_bytes size cs e from to }
    ensures accessor_stays { (size : ℕ) (cs ds : List Change) (e : Entity) (from to : ℕ) →
        All (λ d. to * size ≤ d.tx) ds → efi_file_bytes size (cs ++ ds) e from to ≡ efi_file_bytes size cs e from to }
{}

/// What a file is built of is what the contents of a list are, where the list has no more than may be had.
pub fn list_laws()
    ensures { (list : ChangeList) (e : Entity) (from to : ℕ) → IsChangeList list → content_of list.changes ≤ 2 ^ 28 →
        AreLists (ef_tag e list.size from to) (ef_contents list.size list.changes e from to) }
{}
