//! Groups on a disk, and their names.
ghost use Rattle.std.specs.Prelude.{◌≡◌, map, Some, None, IfSome, IfNone, IfOk, OnOk, OnErr, IsSomeAnd};
ghost use Rattle.std.specs.Arc.{arc_value};
ghost use Rattle.agg_outside.specs.Counts.{HasCause};
ghost use Rattle.merge_ranges.specs.Name.{spelled};
ghost use Rattle.group_files.specs.NewFiles.{files_of_groups, new_names, with_files, IsStopped};
ghost use Rattle.group_files.specs.NewFiles.{ArePublished, ArePartlyPublished};

use crate::kinds::{add_names, publish_group};
use agg_outside::{Disk, DiskError, Memory, Names};
use collate_step::EntityFiles;
use std::alloc::Global;
use std::sync::Arc;

// What a disk holds then is told as one map: the files were put there one after the other.
fn publish_all<D: Disk>(
    alloc: Global,
    disk: &mut D,
    groups: &[Arc<EntityFiles>],
) -> Result<(), DiskError>
    ensures ok { IfSome (D.files disk.old) (λ f. OnOk result
        (D.files disk.new ≡ Some (with_files (files_of_groups (map (λ g. arc_value g) groups.now)) f))) }
    ensures left { IfSome (D.files disk.old) (λ f. IsSomeAnd (D.files disk.new)
        (IsStopped (files_of_groups (map (λ g. arc_value g) groups.now)) f)) }
    ensures silent { IfNone (D.files disk.old) (D.files disk.new ≡ None) }
    ensures cause { HasCause DiskError.Failed (D.faults disk.old) (D.faults disk.new) result }
{
    for at in 0..groups.len() {
        publish_group(alloc, disk, &groups[at])?;
    }
    Ok(())
}

/// Writes the files of the groups in the order given, and of each in the order of kinds: under its temporary
/// name first, which is then renamed. After an error the first of them are whole, and the others as they were.
pub fn publish_groups<D: Disk>(
    alloc: Global,
    disk: &mut D,
    groups: &[Arc<EntityFiles>],
) -> Result<(), DiskError>
    ensures ok { IfSome (D.files disk.old) (λ f. OnOk result (IsSomeAnd (D.files disk.new)
        (ArePublished (files_of_groups (map (λ g. arc_value g) groups.now)) f))) }
    ensures err { IfSome (D.files disk.old) (λ f. OnErr result (IsSomeAnd (D.files disk.new)
        (ArePartlyPublished (files_of_groups (map (λ g. arc_value g) groups.now)) f))) }
    ensures silent { IfNone (D.files disk.old) (D.files disk.new ≡ None) }
    ensures cause { HasCause DiskError.Failed (D.faults disk.old) (D.faults disk.new) result }
{
    publish_all(alloc, disk, groups)
}

/// The names of the files of the groups, as they are spelled, in the order in which they are written.
pub fn group_names(alloc: Global, groups: &[Arc<EntityFiles>]) -> Result<Names, Memory>
    ensures { IfOk result
        (λ names. names ≡ map spelled (new_names (files_of_groups (map (λ g. arc_value g) groups.now)))) }
{
    let mut names = Names::new(alloc);
    for at in 0..groups.len() {
        add_names(alloc, &mut names, &groups[at])?;
    }
    Ok(names)
}
