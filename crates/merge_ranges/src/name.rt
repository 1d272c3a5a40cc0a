ghost use Rattle.std.specs.Prelude.{◌≡◌, ◌≢◌, ◌*◌, ◌++◌, Bool, List, AllPairs, filter, length, ◌<◌, ◌^◌, IsTrue, IfOk, IfSome, OnOk, OnErr, Some, decimal};
ghost use Rattle.agg_model.specs.declared.entity.Entity.{Entity};
ghost use Rattle.agg_model.specs.declared.entity.Range.{Range};
ghost use Rattle.agg_model.specs.declared.entity.FileKind.{FileKind};
ghost use Rattle.merge_ranges.specs.Cut.{is_size, is_aligned};
ghost use Rattle.agg_model.specs.Entity.{entity_name};
ghost use Rattle.merge_ranges.specs.CanonicalNames.{NamesAscend, RangesAscend, entity_names, names_over};
ghost use Rattle.merge_ranges.specs.Kind.{ending};
ghost use Rattle.merge_ranges.specs.Name.{has_kind, is_name, spelled, spelled_on_disk, on_disk_of, range_and_kind};
ghost use Rattle.merge_ranges.specs.declared.name.FileName.{FileName};
ghost use Rattle.merge_ranges.specs.declared.name.DiskName.{DiskName};

use crate::cut::is_aligned_range;
use crate::kind::{ending_of, is_of_indexes, kind_of};
use crate::text::{after, before, cut_at, read_number};
use agg_model::{Entity, FileKind, Range};
use agg_outside::{Bytes, Memory};
use itoa::Buffer;
use std::alloc::Global;

/// The name of a file: what it is of, over which steps, and of which kind.
#[derive(Clone, Copy, Debug, PartialEq, Eq)]
pub struct FileName {
    pub entity: Entity,
    pub range: Range,
    pub kind: FileKind,
}

/// A name on the disk: that of a file, or the temporary one under which it is written.
#[derive(Clone, Copy, Debug, PartialEq, Eq)]
pub struct DiskName {
    pub name: FileName,
    pub temp: bool,
}

#[tactic(auto, unfolding(crate::specs::Name::is_name, crate::specs::Name::has_kind))]
fn is_in_grammar(name: FileName) -> bool
    ensures { result ≡ is_name name }
{
    is_aligned_range(name.range) && (name.entity.is_domain() || is_of_indexes(name.kind))
}

fn append_number(text: &mut Vec<u8>, n: u64) -> Result<(), Memory>
    ensures { OnOk result (text.new.items ≡ text.old.items ++ decimal n) }
{
    let mut buffer = Buffer::new();
    text.extend_from_slice(buffer.format(n).as_bytes())?;
    Ok(())
}

#[tactic(auto, unfolding(crate::specs::Name::spelled))]
fn spell(alloc: Global, name: &FileName) -> Result<Vec<u8>, Memory>
    ensures { IfOk result (λ text. text.items ≡ spelled name.now) }
{
    let mut text = Vec::from_slice(alloc, b"v1-")?;
    text.extend_from_slice(name.entity.name().as_bytes())?;
    text.extend_from_slice(b".")?;
    append_number(&mut text, name.range.from)?;
    text.extend_from_slice(b"-")?;
    append_number(&mut text, name.range.to)?;
    text.extend_from_slice(b".")?;
    text.extend_from_slice(ending_of(name.kind).as_bytes())?;
    Ok(text)
}

fn parts_of(from: &[u8], to: &[u8], ending_text: &[u8]) -> Option<(Range, FileKind)>
    ensures from { IfSome result (λ parts. decimal parts.0.from ≡ from.now) }
    ensures to { IfSome result (λ parts. decimal parts.0.to ≡ to.now) }
    ensures kind { IfSome result (λ parts. ending parts.1 ≡ ending_text.now) }
    ensures only { (r : Range) (k : FileKind) → r.from < 2 ^ 64 → r.to < 2 ^ 64 → decimal r.from ≡ from.now →
        decimal r.to ≡ to.now → ending k ≡ ending_text.now → result ≡ Some (r, k) }
{
    let Some(from) = read_number(from) else {
        return None;
    };
    let Some(to) = read_number(to) else {
        return None;
    };
    let Some(kind) = kind_of(ending_text) else {
        return None;
    };
    Some((Range { from, to }, kind))
}

// The range and the kind that the end of a name spells.
fn read_range_and_kind(text: &[u8]) -> Option<(Range, FileKind)>
    ensures found { IfSome result (λ parts. range_and_kind parts.0 parts.1 ≡ text.now) }
    ensures only { (r : Range) (k : FileKind) → r.from < 2 ^ 64 → r.to < 2 ^ 64 → range_and_kind r k ≡ text.now →
        result ≡ Some (r, k) }
{
    let Some((from, rest)) = cut_at(text, b'-') else {
        return None;
    };
    let Some((to, last)) = cut_at(rest, b'.') else {
        return None;
    };
    parts_of(from, to, last)
}

fn name_of(entity: &[u8], tail: &[u8]) -> Option<FileName>
    ensures entity { IfSome result (λ name. entity_name name.entity ≡ entity.now) }
    ensures tail { IfSome result (λ name. range_and_kind name.range name.kind ≡ tail.now) }
    ensures only { (name : FileName) → name.range.from < 2 ^ 64 → name.range.to < 2 ^ 64 → entity_name name.entity ≡ entity.now →
        range_and_kind name.range name.kind ≡ tail.now → result ≡ Some name }
{
    let Some(entity) = Entity::of_name(entity) else {
        return None;
    };
    let Some((range, kind)) = read_range_and_kind(tail) else {
        return None;
    };
    Some(FileName {
        entity,
        range,
        kind,
    })
}

// The name that is spelled so, perhaps with a range that isn't aligned or a kind of others.
fn read_any(text: &[u8]) -> Option<FileName>
    ensures found { IfSome result (λ name. spelled name ≡ text.now) }
    ensures only { (name : FileName) → IsTrue (is_name name) → spelled name ≡ text.now → result ≡ Some name }
{
    let Some(rest) = after(text, b"v1-") else {
        return None;
    };
    let Some((entity, tail)) = cut_at(rest, b'.') else {
        return None;
    };
    name_of(entity, tail)
}

impl FileName {
    /// The name that the text is; a text that is no name of the grammar gives none.
    pub fn read(text: &[u8]) -> Option<FileName>
        ensures in_grammar { IfSome result (λ name. IsTrue (is_name name)) }
        ensures same_text { IfSome result (λ name. spelled name ≡ text.now) }
        ensures only { (name : FileName) → IsTrue (is_name name) → spelled name ≡ text.now → result ≡ Some name }
    {
        let Some(name) = read_any(text) else {
            return None;
        };
        if is_in_grammar(name) {
            Some(name)
        } else {
            None
        }
    }

    /// The bytes of the name, whether or not its range is aligned.
    pub fn print(&self, alloc: Global) -> Result<Bytes, Memory>
        ensures { IfOk result (λ text. text ≡ spelled self.now) }
    {
        Ok(Bytes::from_vec(spell(alloc, self)?))
    }
}

fn on_disk(name: Option<FileName>, temp: bool) -> Option<DiskName>
    ensures { result ≡ on_disk_of name temp }
{
    match name {
        Some(name) => Some(DiskName { name, temp }),
        None => None,
    }
}

impl DiskName {
    /// The name that the text is; a text that is neither a name of the grammar nor one followed by
    /// `.tmp` gives none.
    pub fn read(text: &[u8]) -> Option<DiskName>
        ensures in_grammar { IfSome result (λ name. IsTrue (is_name name.name)) }
        ensures same_text { IfSome result (λ name. spelled_on_disk name ≡ text.now) }
        ensures only { (name : DiskName) → IsTrue (is_name name.name) → spelled_on_disk name ≡ text.now → result ≡ Some name }
    {
        match before(text, b".tmp") {
            Some(front) => on_disk(FileName::read(front), true),
            None => on_disk(FileName::read(text), false),
        }
    }

    /// The bytes of the name, whether or not its range is aligned.
    #[tactic(auto, unfolding(crate::specs::Name::spelled_on_disk))]
    pub fn print(&self, alloc: Global) -> Result<Bytes, Memory>
        ensures { IfOk result (λ text. text ≡ spelled_on_disk self.now) }
    {
        let mut text = spell(alloc, &self.name)?;
        if self.temp {
            text.extend_from_slice(b".tmp")?;
        }
        Ok(Bytes::from_vec(text))
    }
}

/// What holds of all names.
pub fn name_laws()
    ensures apart { (n o : FileName) → IsTrue (is_name n) → IsTrue (is_name o) → spelled n ≡ spelled o → n ≡ o }
    ensures count { (ranges : List Range) → length (names_over ranges) ≡ 29 * length ranges }

    // Over ranges that ascend, the names of one entity ascend, those of all entities do, and what is
    // kept of them does.
    ensures entity { (e : Entity) (ranges : List Range) → RangesAscend ranges → NamesAscend (entity_names e ranges) }
    ensures ascend { (ranges : List Range) → RangesAscend ranges → NamesAscend (names_over ranges) }
    ensures kept { (p : FileName → Bool) (names : List FileName) → NamesAscend names → NamesAscend (filter p names) }
    ensures distinct { (names : List FileName) → NamesAscend names → AllPairs (λ n o. n ≢ o) names }
{}
