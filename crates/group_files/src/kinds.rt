//! One group on a disk, and its names.
ghost use Rattle.std.specs.Prelude.{◌≡◌, ◌++◌, ◌<◌, length, slice_index_or, map, Some, None, IfSome, IfNone, OnOk, IsSomeAnd};
ghost use Rattle.agg_outside.specs.Counts.{HasCause};
ghost use Rattle.merge_ranges.specs.Name.{spelled};
ghost use Rattle.group_files.specs.NewFiles.{all_of, name_of, file_of_kind, files_of, new_names, with_files, IsStopped};

use crate::publishing::publish_file;
use agg_model::FileKind;
use agg_outside::{Disk, DiskError, Memory, Names};
use collate_step::EntityFiles;
use merge_ranges::FileName;
use std::alloc::Global;

/// All kinds, in their order.
const KINDS: [FileKind; 7] = [
    FileKind::Kv,
    FileKind::Bt,
    FileKind::Kvi,
    FileKind::V,
    FileKind::Vi,
    FileKind::Ef,
    FileKind::Efi,
];

fn kind_at(kinds: &[FileKind], at: usize) -> FileKind
    requires { at < length kinds.now }
    ensures { result ≡ slice_index_or kinds.now at result }
{
    kinds[at]
}

fn file_name(group: &EntityFiles, kind: FileKind) -> FileName
    ensures { result ≡ name_of group.now kind }
{
    FileName {
        entity: group.entity(),
        range: group.range(),
        kind,
    }
}

// Writes the file of this kind, where the entity has one.
fn publish_kind<D: Disk>(
    alloc: Global,
    disk: &mut D,
    group: &EntityFiles,
    kind: FileKind,
) -> Result<(), DiskError>
    ensures ok { IfSome (D.files disk.old) (λ f. OnOk result
        (D.files disk.new ≡ Some (with_files (file_of_kind group.now kind) f))) }
    ensures left { IfSome (D.files disk.old) (λ f.
        IsSomeAnd (D.files disk.new) (IsStopped (file_of_kind group.now kind) f)) }
    ensures silent { IfNone (D.files disk.old) (D.files disk.new ≡ None) }
    ensures cause { HasCause DiskError.Failed (D.faults disk.old) (D.faults disk.new) result }
{
    let Some(bytes) = group.bytes_of(kind) else {
        return Ok(());
    };
    let name = file_name(group, kind);
    publish_file(disk, alloc, &name, bytes)
}

fn publish_kinds<D: Disk>(
    alloc: Global,
    disk: &mut D,
    group: &EntityFiles,
    kinds: &[FileKind],
) -> Result<(), DiskError>
    ensures ok { IfSome (D.files disk.old) (λ f. OnOk result
        (D.files disk.new ≡ Some (with_files (all_of (file_of_kind group.now) kinds.now) f))) }
    ensures left { IfSome (D.files disk.old) (λ f.
        IsSomeAnd (D.files disk.new) (IsStopped (all_of (file_of_kind group.now) kinds.now) f)) }
    ensures silent { IfNone (D.files disk.old) (D.files disk.new ≡ None) }
    ensures cause { HasCause DiskError.Failed (D.faults disk.old) (D.faults disk.new) result }
{
    for at in 0..kinds.len() {
        let kind = kind_at(kinds, at);
        publish_kind(alloc, disk, group, kind)?;
    }
    Ok(())
}

/// Writes the files of a group, in the order of kinds.
pub(crate) fn publish_group<D: Disk>(
    alloc: Global,
    disk: &mut D,
    group: &EntityFiles,
) -> Result<(), DiskError>
    ensures ok { IfSome (D.files disk.old) (λ f. OnOk result
        (D.files disk.new ≡ Some (with_files (files_of group.now) f))) }
    ensures left { IfSome (D.files disk.old) (λ f.
        IsSomeAnd (D.files disk.new) (IsStopped (files_of group.now) f)) }
    ensures silent { IfNone (D.files disk.old) (D.files disk.new ≡ None) }
    ensures cause { HasCause DiskError.Failed (D.faults disk.old) (D.faults disk.new) result }
{
    publish_kinds(alloc, disk, group, &KINDS)
}

// Adds the name of the file of this kind, where the entity has one.
fn add_name(
    alloc: Global,
    names: &mut Names,
    group: &EntityFiles,
    kind: FileKind,
) -> Result<(), Memory>
    ensures { OnOk result (names.new ≡ names.old ++ map spelled (new_names (file_of_kind group.now kind))) }
{
    if group.bytes_of(kind).is_none() {
        return Ok(());
    }
    names.push(file_name(group, kind).print(alloc)?)
}

fn add_kinds(
    alloc: Global,
    names: &mut Names,
    group: &EntityFiles,
    kinds: &[FileKind],
) -> Result<(), Memory>
    ensures { OnOk result
        (names.new ≡ names.old ++ map spelled (new_names (all_of (file_of_kind group.now) kinds.now))) }
{
    for at in 0..kinds.len() {
        let kind = kind_at(kinds, at);
        add_name(alloc, names, group, kind)?;
    }
    Ok(())
}

/// Adds the names of the files of a group, in the order of kinds.
pub(crate) fn add_names(alloc: Global, names: &mut Names, group: &EntityFiles) -> Result<(), Memory>
    ensures { OnOk result (names.new ≡ names.old ++ map spelled (new_names (files_of group.now))) }
{
    add_kinds(alloc, names, group, &KINDS)
}
