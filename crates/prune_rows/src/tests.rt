ghost use Rattle.std.specs.Prelude.{◌≡◌, ◌≤◌, ◌^◌, None, IfOk};
ghost use Rattle.agg_model.specs.Batch.{HasNoRepeats};

use super::*;
use crate::plain_keeper::PlainKeeper;
use agg_model::{Act, Batch, Change, Entity};
use agg_outside::{Bytes, Memory, Numbers, RowId};
use hot_keeper::{Hot, Low, Pruned};
use row_epochs::{Rows, RowsError, first_place};
use std::alloc::Global;
use std::test::Fail;

const LIMIT: u64 = 1 << 62;

/// How many rows are compared with a filter.
const ROWS: u64 = 500;

// One put of accounts.
fn put_of(alloc: Global, tx: u64, key: u8, value: u8) -> Result<Batch, Memory>
    ensures { IfOk result HasNoRepeats }
{
    let change = Change {
        tx,
        entity: Entity::Accounts,
        key: Bytes::of(alloc, &[key])?,
        act: Act::Put(Bytes::of(alloc, &[value])?),
    };
    let mut batch = Batch::new(alloc);
    batch.push(change)?;
    Ok(batch)
}

fn opened(alloc: Global, fails: u64) -> Hot<PlainKeeper>
    ensures { result.told ≡ None }
{
    Hot::of(Rows::of(PlainKeeper::new(alloc, fails), 0))
}

fn put(
    hot: &mut Hot<PlainKeeper>,
    alloc: Global,
    tx: u64,
    key: u8,
    value: u8,
) -> Result<(), RowsError>
    requires { hot.old.told ≡ None }
    ensures { hot.new.told ≡ None }
{
    let batch = put_of(alloc, tx, key, value)?;
    hot.ingest(alloc, &batch)
}

// The value that the key has at an epoch; 0 where it has none.
fn value_at(hot: &mut Hot<PlainKeeper>, alloc: Global, epoch: u64, key: u8) -> Result<u8, RowsError>
    requires { hot.old.told ≡ None }
    ensures { hot.new.told ≡ None }
{
    let act = hot.last(alloc, epoch, Entity::Accounts, &[key], 0, u64::MAX)?;
    Ok(match act {
        Some(Act::Put(value)) => value.as_slice().first().copied().unwrap_or(0),
        _ => 0,
    })
}

// Two puts of one key, and prunes of one row each while a view is open.
fn prune_twice(
    hot: &mut Hot<PlainKeeper>,
    alloc: Global,
) -> Result<(Pruned, u8, Pruned, u8), RowsError>
    requires { hot.old.told ≡ None }
    ensures { hot.new.told ≡ None }
{
    put(hot, alloc, 2, 7, 1)?;
    put(hot, alloc, 5, 7, 2)?;
    let open = hot.epoch();
    let first = prune_some(alloc, hot, 6, 1, open, 1)?;
    let between = value_at(hot, alloc, open, 7)?;
    let second = prune_some(alloc, hot, 6, 1, open, 1)?;
    let after = value_at(hot, alloc, open, 7)?;
    Ok((first, between, second, after))
}

// One of 32 keys, at random.
fn key_at(tx: u64) -> u8 {
    (tx.wrapping_mul(0x9e37_79b9_7f4a_7c15) >> 59) as u8
}

fn put_rows(hot: &mut Hot<PlainKeeper>, alloc: Global) -> Result<(), RowsError>
    requires { hot.old.told ≡ None }
    ensures { hot.new.told ≡ None }
{
    for tx in 0..ROWS {
        put(hot, alloc, tx, key_at(tx), 1)?;
    }
    Ok(())
}

// The numbers of the key from one on, ascending.
fn numbers_of(alloc: Global, key: u8, from: u64) -> Result<Vec<u64>, Memory> {
    let mut numbers = Vec::new(alloc);
    for tx in from..ROWS {
        if key_at(tx) == key {
            numbers.push(tx)?;
        }
    }
    Ok(numbers)
}

// The key's numbers that an epoch sees.
fn times_at(
    hot: &mut Hot<PlainKeeper>,
    alloc: Global,
    epoch: u64,
    key: u8,
    back: bool,
) -> Result<Numbers, RowsError> {
    hot.times(alloc, epoch, Entity::Accounts, &[key], 0, ROWS, back, 500)
}

// Kills all rows below 200, at most 60 at a time, while the epoch before is open.
fn prune_to_200(hot: &mut Hot<PlainKeeper>, alloc: Global) -> Result<u64, RowsError>
    requires { hot.old.told ≡ None }
{
    let open = hot.epoch();
    for _round in 0..4 {
        let _pruned = prune_some(alloc, hot, 4, 50, open, 60)?;
    }
    Ok(open)
}

#[test]
fn random_rows_answer_as_a_filter_does(rt: HostRuntime) -> Result<(), Fail> {
    let mut hot = opened(rt.alloc(), 0);
    put_rows(&mut hot, rt.alloc())?;
    let open = prune_to_200(&mut hot, rt.alloc())?;
    let present = hot.epoch();
    for key in 0..32 {
        let all = numbers_of(rt.alloc(), key, 0)?;
        let rest = numbers_of(rt.alloc(), key, 200)?;
        let seen = times_at(&mut hot, rt.alloc(), open, key, false)?;
        assert_eq!(rt; seen.as_slice(), all.as_slice());
        let seen = times_at(&mut hot, rt.alloc(), present, key, false)?;
        assert_eq!(rt; seen.as_slice(), rest.as_slice());
        let seen = times_at(&mut hot, rt.alloc(), present, key, true)?;
        assert_eq!(rt; seen.as_slice().last(), rest.as_slice().first());
        assert_eq!(rt; seen.len(), rest.len());
    }
    Ok(())
}

#[test]
fn steps_keys_and_views_answer_what_is_there(rt: HostRuntime) -> Result<(), Fail> {
    let mut hot = opened(rt.alloc(), 0);
    put_rows(&mut hot, rt.alloc())?;
    let open = prune_to_200(&mut hot, rt.alloc())?;
    assert_eq!(rt; hot.raise(), Ok(()));
    let present = hot.epoch();
    assert_eq!(rt; hot.step_rows(rt.alloc(), 3, 50)?.changes.len(), 0);
    assert_eq!(rt; hot.step_rows(rt.alloc(), 9, 50)?.changes.len(), 50);
    let keys = hot.keys(rt.alloc(), present, Entity::Accounts, &[8], 0, ROWS, 100)?;
    assert_eq!(rt; keys.len(), 24);
    let mut rows = hot.into_rows();
    let first = first_place(rt.alloc())?;
    assert_eq!(rt; rows.view_some(rt.alloc(), open, &first, 1000)?.len(), 500);
    assert_eq!(rt;
        rows.view_some(rt.alloc(), present, &first, 1000)?.len(),
        300
    );
    assert_eq!(rt; rows.view_some(rt.alloc(), present, &first, 7)?.len(), 7);
    assert!(rt; rows.row_from(rt.alloc(), &first)?.is_some());
    assert!(rt; rows.row_before(rt.alloc(), &first)?.is_none());
    assert_eq!(rt; rows.floor()?, 4);
    assert_eq!(rt; rows.purge(rt.alloc(), present)?, 200);
    Ok(())
}

// Whether the rows have a change of the key 7 at an epoch.
fn has_seven(rows: &mut Rows<PlainKeeper>, alloc: Global, epoch: u64) -> Result<bool, RowsError> {
    let change = rows.view_last(alloc, epoch, Entity::Accounts, &[7], 0, 9)?;
    Ok(change.is_some())
}

#[test]
fn a_killed_row_is_seen_up_to_its_kill(rt: HostRuntime) -> Result<(), Fail> {
    let mut rows = Rows::of(PlainKeeper::new(rt.alloc(), 0), 0);
    let batch = put_of(rt.alloc(), 2, 7, 1)?;
    assert_eq!(rt; rows.write(rt.alloc(), &batch), Ok(()));
    let id = RowId {
        entity: 0,
        key: Bytes::of(rt.alloc(), &[7])?,
        tx: 2,
        born: 1,
    };
    assert_eq!(rt; rows.kill(rt.alloc(), &[id], 3), Ok(()));
    assert!(rt; !has_seven(&mut rows, rt.alloc(), 0)?);
    assert!(rt; has_seven(&mut rows, rt.alloc(), 1)?);
    assert!(rt; !has_seven(&mut rows, rt.alloc(), 2)?);
    assert_eq!(rt; rows.floor(), Ok(3));
    Ok(())
}

#[test]
fn an_open_view_keeps_what_is_pruned(rt: HostRuntime) -> Result<(), Fail> {
    let mut hot = opened(rt.alloc(), 0);
    let (first, between, second, after) = prune_twice(&mut hot, rt.alloc())?;
    assert_eq!(rt; (first.killed, first.left), (1, 1));
    assert_eq!(rt; (second.killed, second.left), (1, 0));
    assert_eq!(rt; (between, after), (2, 2));
    let present = hot.epoch();
    assert_eq!(rt; value_at(&mut hot, rt.alloc(), present, 7)?, 0);
    assert_eq!(rt; hot.low(rt.alloc(), 6)?, Low { alive: 0, floor: 6 });
    assert_eq!(rt; hot.purge(rt.alloc(), LIMIT)?, 2);
    assert_eq!(rt; hot.into_rows().into_keeper().rows.len(), 0);
    Ok(())
}

#[test]
fn a_keeper_that_fails_at_any_call_is_blamed(rt: HostRuntime) -> Result<(), Fail> {
    for fails in 1..13 {
        let mut hot = opened(rt.alloc(), fails);
        let done = prune_twice(&mut hot, rt.alloc());
        assert!(rt; matches!(done, Err(RowsError::Keeper)));
    }
    Ok(())
}

#[test]
fn an_epoch_at_its_limit_does_not_rise(rt: HostRuntime) -> Result<(), Fail> {
    let worn = RowsError::Worn { epoch: LIMIT };
    let mut rows = Rows::of(PlainKeeper::new(rt.alloc(), 0), LIMIT);
    assert_eq!(rt; rows.raise(), Err(worn));
    assert_eq!(rt; rows.kill(rt.alloc(), &[], 1), Err(worn));
    assert_eq!(rt; rows.floor(), Ok(0));
    let mut hot = Hot::of(rows);
    assert_eq!(rt; put(&mut hot, rt.alloc(), 1, 1, 1), Err(worn));
    assert_eq!(rt;
        hot.kill_below(rt.alloc(), 9, 0, 4)?,
        Pruned { killed: 0, left: 0 }
    );
    assert_eq!(rt; hot.kill_below(rt.alloc(), 9, 1, 4), Err(worn));
    Ok(())
}
