//! The tag of a file, and what holds of the bytes of files over every list.
ghost use Rattle.std.specs.Prelude.{◌≡◌, ℕ, ◌*◌, ◌≤◌, List, ◌++◌, All};
ghost use Rattle.agg_model.specs.ChangeList.{ChangeList, IsChangeList};
ghost use Rattle.agg_model.specs.Contents.{v_contents};
ghost use Rattle.agg_model.specs.declared.change.Change.{Change};
ghost use Rattle.agg_model.specs.declared.entity.Entity.{Entity};
ghost use Rattle.history_core.specs.Befores.{AreBefores};
ghost use Rattle.history_core.specs.VFile.{TaggedBefores, tagged_befores, v_tag, v_spelling, vi_spelling, v_file_bytes, vi_file_bytes};

use agg_model::{Entity, Range};
use word_file::Tag;

/// What the `.v` file of an entity over these steps says that it is of.
pub fn v_tag(entity: Entity, size: u64, range: Range) -> Tag
    ensures { result ≡ v_tag entity size range.from range.to }
{
    Tag {
        entity: entity.number(),
        kind: 1,
        version: 1,
        step: size,
        from: range.from,
        to: range.to,
    }
}

/// What holds of the bytes of files over every list.
pub fn file_laws()
    ensures bytes { (size : ℕ) (changes : List Change) (e : Entity) (from to : ℕ) (file : TaggedBefores) →
        file ≡ tagged_befores (v_tag e size from to) (v_contents size changes e from to) →
        v_spelling file ≡ v_file_bytes size changes e from to }
    ensures accessor { (size : ℕ) (changes : List Change) (e : Entity) (from to : ℕ) (file : TaggedBefores) →
        file ≡ tagged_befores (v_tag e size from to) (v_contents size changes e from to) →
        vi_spelling file ≡ vi_file_bytes size changes e from to }
    // Changes from the end of the steps on leave the files alone.
    ensures stays { (size : ℕ) (cs ds : List Change) (e : Entity) (from to : ℕ) →
        All (λ d. to * size ≤ d.tx) ds →
        v_file_bytes size (cs ++ ds) e from to ≡ v_file_bytes size cs e from to }
    ensures accessor_stays { (size : ℕ) (cs ds : List Change) (e : Entity) (from to : ℕ) →
        All (λ d. to * size ≤ d.tx) ds →
        vi_file_bytes size (cs ++ ds) e from to ≡ vi_file_bytes size cs e from to }
{}

/// The contents of a list are what a file may be built of.
pub fn list_laws()
    ensures { (list : ChangeList) (e : Entity) (from to : ℕ) → IsChangeList list →
        AreBefores (v_tag e list.size from to) (v_contents list.size list.changes e from to) }
{}
