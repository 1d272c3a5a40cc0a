//! A file that comes to its name whole: written under a temporary name first, and then renamed.
ghost use Rattle.std.specs.Prelude.{◌≡◌, ◌≢◌, Some, None, IfSome, IfNone, IfOk, OnOk, IsSomeAnd};
ghost use Rattle.std.specs.FinMap as map;
ghost use Rattle.agg_outside.specs.Counts.{HasCause};
ghost use Rattle.merge_ranges.specs.Name.{spelled};
ghost use Rattle.agg_core.specs.Files.{temporary_of, LeftBy};

use agg_outside::{Bytes, Disk, DiskError, Memory};
use merge_ranges::{DiskName, FileName};
use std::alloc::Global;

/// Puts the bytes under the name. However it ends, a file of that name is the one that was there or
/// has all the bytes; after an error the temporary name may be left, with any bytes.
pub fn publish_file<D: Disk>(
    disk: &mut D,
    alloc: Global,
    name: &FileName,
    bytes: &[u8],
) -> Result<(), DiskError>
    ensures ok { IfSome (D.files disk.old) (λ f. OnOk result (D.files disk.new ≡
        Some (map.insert (map.remove f (temporary_of name.now)) (spelled name.now) bytes.now))) }
    ensures left { IfSome (D.files disk.old) (λ f.
        IsSomeAnd (D.files disk.new) (LeftBy (temporary_of name.now) (spelled name.now) bytes.now f)) }
    ensures silent { IfNone (D.files disk.old) (D.files disk.new ≡ None) }
    ensures cause { HasCause DiskError.Failed (D.faults disk.old) (D.faults disk.new) result }
{
    let temporary = temporary_name(alloc, name)?;
    let place = name.print(alloc)?;
    write_and_rename(disk, alloc, temporary.as_slice(), place.as_slice(), bytes)
}

fn temporary_name(alloc: Global, name: &FileName) -> Result<Bytes, Memory>
    ensures { IfOk result (λ text. text ≡ temporary_of name.now) }
{
    let name = DiskName {
        name: *name,
        temp: true,
    };
    name.print(alloc)
}

fn write_and_rename<D: Disk>(
    disk: &mut D,
    alloc: Global,
    temporary: &[u8],
    name: &[u8],
    bytes: &[u8],
) -> Result<(), DiskError>
    requires { name.now ≢ temporary.now }
    ensures ok { IfSome (D.files disk.old) (λ f. OnOk result (D.files disk.new ≡
        Some (map.insert (map.remove f temporary.now) name.now bytes.now))) }
    ensures left { IfSome (D.files disk.old) (λ f.
        IsSomeAnd (D.files disk.new) (LeftBy temporary.now name.now bytes.now f)) }
    ensures silent { IfNone (D.files disk.old) (D.files disk.new ≡ None) }
    ensures cause { HasCause DiskError.Failed (D.faults disk.old) (D.faults disk.new) result }
{
    disk.write_new(alloc, temporary, bytes)?;
    disk.rename(alloc, temporary, name)
}
