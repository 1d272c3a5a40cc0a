ghost use Rattle.std.specs.Prelude.{◌≡◌, [], IfOk, IsTrue};
ghost use Rattle.std.specs.Option.{ForSome};
ghost use Rattle.agg_outside.specs.Rows.{ascends, CanApply};

use crate::*;
use agg_outside::*;
use std::alloc::Global;
use std::process::Abort;
use std::test::Fail;

fn row_of(alloc: Global, key: &[u8], tx: u64) -> Result<Row, Memory>
    ensures { IfOk result (λ row. row ≡ record { id = record { entity = 1; key = key.now; tx = tx; born = 1 }; killed = 0; act = 0; value = key.now }) }
{
    Ok(Row {
        id: id_of(alloc, key, tx)?,
        killed: 0,
        act: 0,
        value: Bytes::of(alloc, key)?,
    })
}

fn id_of(alloc: Global, key: &[u8], tx: u64) -> Result<RowId, Memory>
    ensures { IfOk result (λ id. id ≡ record { entity = 1; key = key.now; tx = tx; born = 1 }) }
{
    Ok(RowId {
        entity: 1,
        key: Bytes::of(alloc, key)?,
        tx,
        born: 1,
    })
}

#[test]
fn a_source_gives_pieces_and_fails_at_its_second_call(rt: HostRuntime) -> Result<(), Fail> {
    let mut buf = [0; 4];
    let mut source = MemSource::new(rt.alloc(), b"abcde", &[2])?;
    source.piece(3);
    assert_eq!(rt; source.take(&mut buf), Ok(3));
    assert_eq!(rt; buf, [97, 98, 99, 0]);
    assert_eq!(rt; source.take(&mut buf), Err(Failed));
    assert_eq!(rt; source.take(&mut buf), Ok(2));
    assert_eq!(rt; buf, [100, 101, 99, 0]);
    assert_eq!(rt; source.take(&mut buf), Ok(0));
    let mut sure = SureSource::new(rt.alloc(), b"ab")?;
    sure.piece(1);
    assert_eq!(rt; sure.take(&mut buf), Ok(1));
    assert_eq!(rt; sure.take(&mut buf), Ok(1));
    assert_eq!(rt; sure.take(&mut buf), Ok(0));
    Ok(())
}

#[test]
fn a_sink_takes_all_but_what_its_failing_call_was_given(rt: HostRuntime) -> Result<(), Fail> {
    let mut sink = MemSink::new(rt.alloc(), b"a", &[2])?;
    assert_eq!(rt; sink.put(b"bc"), Ok(2));
    assert_eq!(rt; sink.put(b"de"), Err(SinkError::Failed));
    assert_eq!(rt; sink.put(b"f"), Ok(1));
    assert!(rt; sink.bytes() == b"abcf".as_slice());
    let mut sure = SureSink::new(rt.alloc(), b"a")?;
    assert_eq!(rt; sure.put(b"b"), Ok(1));
    assert!(rt; sure.bytes() == b"ab".as_slice());
    Ok(())
}

// Writes a file and reads it.
fn reads_back<D: Disk>(
    alloc: Global,
    disk: &mut D,
    name: &[u8],
    bytes: &[u8],
) -> Result<Bytes, DiskError> {
    disk.write_new(alloc, name, bytes)?;
    disk.read(alloc, name)
}

// Writes a file and moves it.
fn moves<D: Disk>(
    alloc: Global,
    disk: &mut D,
    from: &[u8],
    to: &[u8],
    bytes: &[u8],
) -> Result<(), DiskError> {
    disk.write_new(alloc, from, bytes)?;
    disk.rename(alloc, from, to)
}

// Eight calls, after which a disk that was empty has one file.
fn holds_files<D: Disk>(rt: &impl Abort, alloc: Global, disk: &mut D) -> Result<(), DiskError> {
    let bytes = reads_back(alloc, disk, b"b", b"2")?;
    assert!(rt; bytes.as_slice() == b"2".as_slice());
    disk.write_new(alloc, b"a", b"1")?;
    let names = disk.list(alloc)?;
    assert_eq!(rt; names.len(), 2);
    assert!(rt;
        names
            .get(0)
            .is_some_and(|name| name.as_slice() == b"a".as_slice())
    );
    moves(alloc, disk, b"c", b"b", b"3")?;
    disk.remove(alloc, b"a")?;
    assert_eq!(rt; disk.list(alloc)?.len(), 1);
    Ok(())
}

// The one file is the one that was moved.
fn has_the_moved_file(files: &FileMap) -> bool {
    let is_moved = |bytes: &Bytes| bytes.as_slice() == b"3".as_slice();
    files.len() == 1 && files.find(b"b").is_some_and(is_moved)
}

#[test]
fn disks_list_in_order_read_and_rename_over_a_file(rt: HostRuntime) -> Result<(), Fail> {
    let alloc = rt.alloc();
    let start = FileMap::new(alloc);
    let mut disk = MemDisk::new(alloc, &start, &[9])?;
    holds_files(&rt, alloc, &mut disk)?;
    assert!(rt; has_the_moved_file(disk.files()));
    assert!(rt; disk.list(alloc).is_err());
    let mut sure = SureDisk::new(alloc, &start)?;
    holds_files(&rt, alloc, &mut sure)?;
    assert!(rt; has_the_moved_file(sure.files()));
    Ok(())
}

#[test]
fn a_call_of_a_disk_that_fails_changes_nothing(rt: HostRuntime) -> Result<(), Fail> {
    let alloc = rt.alloc();
    let start = FileMap::new(alloc);
    let mut disk = MemDisk::new(alloc, &start, &[5, 2, 4, 3])?;
    assert!(rt; disk.write_new(alloc, b"a", b"1").is_ok());
    assert!(rt; disk.write_new(alloc, b"c", b"").is_err());
    assert!(rt; disk.files().find(b"a").is_some());
    assert!(rt; disk.rename(alloc, b"a", b"b").is_err());
    assert!(rt; disk.files().find(b"a").is_some());
    assert!(rt; disk.remove(alloc, b"a").is_err());
    assert!(rt; disk.list(alloc).is_err());
    assert_eq!(rt; disk.files().len(), 1);
    assert!(rt; disk.files().find(b"a").is_some());
    Ok(())
}

#[test]
fn doors_give_out_each_link_once_and_take_it_back(rt: HostRuntime) -> Result<(), Fail> {
    let alloc = rt.alloc();
    let mut inputs = Keys::new(alloc);
    inputs.push(Bytes::of(alloc, b"ab")?)?;
    inputs.push(Bytes::of(alloc, b"c")?)?;
    let mut doors = SureDoors::new(alloc, &inputs)?;
    assert!(rt; doors.listen(7, 1).is_ok());
    let Ok(Some((mut input, mut output))) = doors.next_link() else {
        panic!(rt; "no link");
    };
    let mut buf = [0; 4];
    assert_eq!(rt; input.take(&mut buf), Ok(2));
    assert_eq!(rt; output.put(b"xy"), Ok(2));
    doors.take_back(SureDoors::close_link(input, output));
    assert!(rt; doors.output(0) == Some(b"xy".as_slice()));
    assert!(rt; doors.output(1).is_none());
    assert!(rt; matches!(doors.next_link(), Ok(None)));
    Ok(())
}

// The transaction number of the row, 100 where there is none, and 200 after an error.
fn tx_of(found: Result<Option<Row>, KeeperError>) -> u64 {
    match found {
        Ok(Some(row)) => row.id.tx,
        Ok(None) => 100,
        Err(_) => 200,
    }
}

#[tactic(auto, unfolding(agg_outside::specs::Rows::id_cmp))]
fn two_rows(alloc: Global) -> Result<KeeperStart, Memory>
    ensures { IfOk result (λ start. IsTrue (ascends start.rows)) }
{
    let mut rows = Rowlist::new(alloc);
    rows.push(row_of(alloc, b"b", 1)?)?;
    rows.push(row_of(alloc, b"d", 2)?)?;
    Ok(KeeperStart { rows, floor: 5 })
}

fn seeks_everywhere<K: Keeper>(
    rt: &impl Abort,
    alloc: Global,
    keeper: &mut K,
) -> Result<(), Memory> {
    for (key, from, before) in [(b"a", 1, 100), (b"c", 2, 1), (b"e", 100, 2)] {
        let id = id_of(alloc, key, 0)?;
        assert_eq!(rt; tx_of(keeper.seek(alloc, &id)), from);
        assert_eq!(rt; tx_of(keeper.seek_back(alloc, &id)), before);
    }
    // The id of a row itself: the row is not before itself.
    let id = id_of(alloc, b"d", 2)?;
    assert_eq!(rt; tx_of(keeper.seek(alloc, &id)), 2);
    assert_eq!(rt; tx_of(keeper.seek_back(alloc, &id)), 1);
    assert_eq!(rt;
        keeper.scan_some(alloc, &id, 5).map_or(9, |rows| rows.len()),
        1
    );
    assert_eq!(rt; keeper.floor(), Ok(5));
    Ok(())
}

#[test]
fn keepers_seek_below_between_and_above(rt: HostRuntime) -> Result<(), Fail> {
    let alloc = rt.alloc();
    let start = two_rows(alloc)?;
    let mut keeper = MemKeeper::new(alloc, &start, &[12])?;
    seeks_everywhere(&rt, alloc, &mut keeper)?;
    assert_eq!(rt; keeper.floor(), Ok(5));
    assert_eq!(rt; keeper.floor(), Err(KeeperError::Failed));
    let mut sure = SureKeeper::new(alloc, &start)?;
    seeks_everywhere(&rt, alloc, &mut sure)?;
    Ok(())
}

// The rows after the writes, in order.
fn applied<K: Keeper>(
    alloc: Global,
    keeper: &mut K,
    writes: &[RowWrite],
) -> Result<Rowlist, KeeperError>
    requires { ForSome (K.held keeper.old) (CanApply writes.now) }
{
    keeper.apply(alloc, writes)?;
    let from = id_of(alloc, b"", 0)?;
    keeper.scan_some(alloc, &from, 5)
}

fn no_rows(alloc: Global) -> KeeperStart
    ensures { result ≡ record { rows = []; floor = 0 } }
{
    KeeperStart {
        rows: Rowlist::new(alloc),
        floor: 0,
    }
}

#[tactic(auto, unfolding(agg_outside::specs::Rows::id_cmp))]
fn four_writes(alloc: Global) -> Result<Vec<RowWrite>, Memory>
    ensures { IfOk result (λ writes. CanApply writes.items (record { rows = []; floor = 0 })) }
{
    let mut writes = Vec::new(alloc);
    writes.push(RowWrite::Insert(row_of(alloc, b"d", 2)?))?;
    writes.push(RowWrite::Insert(row_of(alloc, b"b", 1)?))?;
    writes.push(RowWrite::Kill(id_of(alloc, b"d", 2)?, 8))?;
    writes.push(RowWrite::Remove(id_of(alloc, b"b", 1)?))?;
    writes.push(RowWrite::Floor(6))?;
    Ok(writes)
}

// Two of the four writes, of rows that two_rows has.
#[tactic(auto, unfolding(agg_outside::specs::Rows::id_cmp))]
fn changes(alloc: Global) -> Result<(KeeperStart, Vec<RowWrite>), Memory>
    ensures ascends { IfOk result (λ pair. IsTrue (ascends pair.0.rows)) }
    ensures can { IfOk result (λ pair. CanApply pair.1.items (record { rows = pair.0.rows; floor = pair.0.floor })) }
{
    let mut rows = Rowlist::new(alloc);
    rows.push(row_of(alloc, b"b", 1)?)?;
    rows.push(row_of(alloc, b"d", 2)?)?;
    let mut writes = Vec::new(alloc);
    writes.push(RowWrite::Kill(id_of(alloc, b"d", 2)?, 8))?;
    writes.push(RowWrite::Remove(id_of(alloc, b"b", 1)?))?;
    Ok((KeeperStart { rows, floor: 6 }, writes))
}

fn is_killed_alone(rows: &Rowlist) -> bool {
    rows.len() == 1 && rows.get(0).is_some_and(|row| row.killed == 8)
}

#[test]
fn apply_makes_all_four_writes_in_order(rt: HostRuntime) -> Result<(), Fail> {
    let alloc = rt.alloc();
    let writes = four_writes(alloc)?;
    let mut keeper = MemKeeper::new(alloc, &no_rows(alloc), &[])?;
    assert!(rt; is_killed_alone(&applied(alloc, &mut keeper, &writes)?));
    assert!(rt; is_killed_alone(keeper.rows()));
    assert_eq!(rt; keeper.floor(), Ok(6));
    let mut sure = SureKeeper::new(alloc, &no_rows(alloc))?;
    assert!(rt; is_killed_alone(&applied(alloc, &mut sure, &writes)?));
    assert_eq!(rt; sure.floor(), Ok(6));
    Ok(())
}

#[test]
fn a_tree_takes_changes_alone(rt: HostRuntime) -> Result<(), Fail> {
    let alloc = rt.alloc();
    let (start, writes) = changes(alloc)?;
    let mut sure = SureKeeper::new(alloc, &start)?;
    assert!(rt; is_killed_alone(&applied(alloc, &mut sure, &writes)?));
    assert_eq!(rt; sure.rows(alloc)?.len(), 1);
    Ok(())
}
