ghost use Rattle.std.specs.Prelude.{◌^◌, ◌≤◌};
ghost use Rattle.core_machine.specs.Sound.{IsSound};

use super::*;
use crate::names::{NameSet, add_entity, list_of, names_over};
use agg_model::{Act, Batch, Change, Entity, Range};
use agg_outside::{Bytes, ListOf, Memory, Names};
use core_machine::{Entry, Machine, Opening};
use merge_ranges::Cut;
use std::alloc::Global;
use std::collections::BTreeSet;
use std::test::Fail;

mod random;

// Nothing came, and nothing stands on the disk.
fn empty(alloc: Global, size: u64) -> Machine
    requires some { 1 ≤ size }
    requires within { size ≤ 2 ^ 32 }
    ensures { IsSound result }
{
    let changes = ListOf::new(alloc);
    let opened = ListOf::new(alloc);
    let present = ListOf::new(alloc);
    let visible = ListOf::new(alloc);
    Machine {
        changes,
        next: 0,
        size,
        opened,
        present,
        visible,
    }
}

fn cut_of(alloc: Global, from: u64, to: u64) -> Result<Cut, Memory> {
    let mut cut = ListOf::new(alloc);
    cut.push(Range { from, to })?;
    Ok(cut)
}

// All names over a range.
fn all_names(alloc: Global, from: u64, to: u64) -> Result<Names, Memory> {
    let cut = cut_of(alloc, from, to)?;
    let set = names_over(alloc, &cut)?;
    list_of(alloc, set)
}

fn account_names(alloc: Global, cut: &Cut) -> Result<Names, Memory> {
    let mut set: NameSet = BTreeSet::new(alloc);
    add_entity(alloc, &mut set, Entity::Accounts, cut)?;
    list_of(alloc, set)
}

fn mark_at(alloc: Global, tx: u64) -> Result<Batch, Memory> {
    let mut batch = ListOf::new(alloc);
    batch.push(Change {
        tx,
        entity: Entity::LogAddrs,
        key: Bytes::of(alloc, b"a")?,
        act: Act::Mark,
    })?;
    Ok(batch)
}

fn ingest(alloc: Global, tx: u64) -> Result<Entry, Memory> {
    let batch = mark_at(alloc, tx)?;
    Ok(Entry::Ingest { caller: 0, batch })
}

fn collation(alloc: Global, step: u64) -> Result<Entry, Memory>
    requires { step ≤ 4096 }
{
    let added = all_names(alloc, step, step + 1)?;
    let replaced = ListOf::new(alloc);
    Ok(Entry::Publish {
        caller: 2,
        added,
        replaced,
    })
}

// Accounts of the first two steps become one group.
fn merge(alloc: Global) -> Result<Entry, Memory> {
    let whole = cut_of(alloc, 0, 2)?;
    let mut parts = cut_of(alloc, 0, 1)?;
    parts.push(Range { from: 1, to: 2 })?;
    let added = account_names(alloc, &whole)?;
    let replaced = account_names(alloc, &parts)?;
    Ok(Entry::Publish {
        caller: 2,
        added,
        replaced,
    })
}

fn sweep(alloc: Global, name: &[u8]) -> Result<Entry, Memory> {
    let name = Bytes::of(alloc, name)?;
    Ok(Entry::Sweep { caller: 2, name })
}

fn place_of(ended: Result<Machine, CoreError>) -> Option<u64> {
    match ended {
        Err(CoreError::NotLegal { place }) => Some(place),
        _ => None,
    }
}

// How many rows are open, and how many names are present and visible.
fn counts(ended: Result<Machine, CoreError>) -> Option<(usize, usize, usize)> {
    match ended {
        Ok(machine) => Some((
            machine.opened.len(),
            machine.present.len(),
            machine.visible.len(),
        )),
        Err(_) => None,
    }
}

fn one_step(alloc: Global) -> Result<Vec<Entry>, Memory> {
    let mut entries = Vec::new(alloc);
    entries.push(ingest(alloc, 0)?)?;
    entries.push(Entry::Open {
        caller: 1,
        number: 1,
        names: ListOf::new(alloc),
    })?;
    entries.push(collation(alloc, 0)?)?;
    Ok(entries)
}

#[test]
fn a_visible_name_is_not_swept(rt: HostRuntime) -> Result<(), Fail> {
    let alloc = rt.alloc();
    let mut entries = one_step(alloc)?;
    let ended = run_core(alloc, empty(alloc, 1), entries.as_slice());
    assert!(rt; counts(ended) == Some((1, 29, 29)));
    entries.push(sweep(alloc, b"v1-code.0-1.kv")?)?;
    let ended = run_core(alloc, empty(alloc, 1), entries.as_slice());
    assert!(rt; place_of(ended) == Some(3));
    Ok(())
}

// Two steps, a row that sees both, and the two groups of accounts merged.
fn two_steps(alloc: Global) -> Result<Vec<Entry>, Memory> {
    let mut entries = Vec::new(alloc);
    entries.push(ingest(alloc, 1)?)?;
    entries.push(collation(alloc, 0)?)?;
    entries.push(collation(alloc, 1)?)?;
    let mut both = cut_of(alloc, 0, 1)?;
    both.push(Range { from: 1, to: 2 })?;
    let set = names_over(alloc, &both)?;
    let names = list_of(alloc, set)?;
    entries.push(Entry::Open {
        caller: 1,
        number: 7,
        names,
    })?;
    entries.push(merge(alloc)?)?;
    Ok(entries)
}

#[test]
fn an_open_row_keeps_what_a_merge_replaced(rt: HostRuntime) -> Result<(), Fail> {
    let alloc = rt.alloc();
    let mut entries = two_steps(alloc)?;
    let ended = run_core(alloc, empty(alloc, 1), entries.as_slice());
    assert!(rt; counts(ended) == Some((1, 65, 51)));
    entries.push(sweep(alloc, b"v1-accounts.1-2.kv")?)?;
    let ended = run_core(alloc, empty(alloc, 1), entries.as_slice());
    assert!(rt; place_of(ended) == Some(5));
    Ok(())
}

#[test]
fn a_closed_row_keeps_nothing(rt: HostRuntime) -> Result<(), Fail> {
    let alloc = rt.alloc();
    let mut entries = two_steps(alloc)?;
    entries.push(Entry::Close {
        caller: 1,
        number: 7,
    })?;
    entries.push(sweep(alloc, b"v1-accounts.1-2.kv")?)?;
    let ended = run_core(alloc, empty(alloc, 1), entries.as_slice());
    assert!(rt; counts(ended) == Some((0, 64, 51)));
    Ok(())
}
