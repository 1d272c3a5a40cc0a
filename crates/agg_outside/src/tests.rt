ghost use Rattle.std.specs.Prelude.{◌≡◌, IfOk, [], length};
ghost use Rattle.agg_outside.specs.Devices.{KeepsFiles, KeepsRows};
ghost use Rattle.agg_outside.specs.Counts.{HasCause};

use crate::*;
use std::alloc::Global;
use std::test::Fail;

// One argument, `D.Disk`, stands for all that a disk tells.
fn name_count<D: Disk>(alloc: Global, disk: &mut D) -> Result<usize, DiskError>
    ensures kept { KeepsFiles D.Disk disk.old disk.new }
{
    let names = disk.list(alloc)?;
    Ok(names.len())
}

fn floor_twice<K: Keeper>(keeper: &mut K) -> Result<(u64, u64), KeeperError>
    ensures kept { KeepsRows K.Keeper keeper.old keeper.new }
{
    let first = keeper.floor()?;
    let second = keeper.floor()?;
    Ok((first, second))
}

fn entry(alloc: Global, name: &[u8], bytes: &[u8]) -> Result<FileEntry, Memory>
    ensures { IfOk result (λ e. e ≡ record { name = name.now; bytes = bytes.now }) }
{
    Ok(FileEntry {
        name: Bytes::of(alloc, name)?,
        bytes: Bytes::of(alloc, bytes)?,
    })
}

#[test]
fn files_are_pushed_in_order_and_handed_out(rt: HostRuntime) -> Result<(), Fail> {
    let alloc = rt.alloc();
    let mut files = FileMap::new(alloc);
    files.push(entry(alloc, b"a", b"1")?)?;
    files.push(entry(alloc, b"ab", b"2")?)?;
    assert_eq!(rt; files.len(), 2);
    assert!(rt; files.get(2).is_none());
    let first = files
        .get(0)
        .map_or(b"".as_slice(), |file| file.bytes.as_slice());
    assert!(rt; first == b"1".as_slice());
    assert_eq!(rt; files.as_slice().len(), 2);
    let files = files.into_vec();
    assert_eq!(rt; files.len(), 2);
    assert!(rt; files[1].name.as_slice() == b"ab".as_slice());
    Ok(())
}

#[test]
fn no_gate_returns(rt: HostRuntime) -> Result<(), Fail> {
    NoGate.at(Point::Collated);
    assert_eq!(rt; NoGate, NoGate);
    Ok(())
}
