//! How many open rows have each name, so that a name is looked up once, however many rows are open.
ghost use Rattle.std.specs.Prelude.{◌≡◌, ◌+◌, ◌-◌, ℕ, List, IfOk, OnOk};
ghost use Rattle.core_run.specs.Counts.{count_of, at_once, times, AreCounted};

use crate::names::NameSet;
use crate::running::Row;
use agg_outside::{Bytes, Memory};
use std::alloc::Global;
use std::collections::BTreeMap;

/// For each name in an open row, how many rows have it.
pub type Counts = BTreeMap<Bytes, u64>;

/// How many open rows have the name.
pub fn count_of(counts: &Counts, name: &Bytes) -> u64
    ensures { result ≡ count_of counts.now.entries name.now }
{
    match counts.get(name) {
        Some(count) => *count,
        None => 0,
    }
}

// A count past the end of its type would be of more rows than memory holds.
fn one_more(count: u64) -> Result<u64, Memory>
    ensures { IfOk result (λ more. more ≡ count + 1) }
{
    let Some(more) = count.checked_add(1) else {
        return Err(Memory);
    };
    Ok(more)
}

// Counts the name once more.
fn count_name(counts: &mut Counts, name: Bytes) -> Result<(), Memory>
    ensures { OnOk result ((q : List ℕ) →
        count_of counts.new.entries q ≡ at_once name q + count_of counts.old.entries q) }
{
    let count = one_more(count_of(counts, &name))?;
    counts.insert(name, count)?;
    Ok(())
}

/// Counts each name of a row once more.
pub fn count_names(alloc: Global, counts: &mut Counts, names: &NameSet) -> Result<(), Memory>
    ensures { OnOk result ((q : List ℕ) →
        count_of counts.new.entries q ≡ times names.now.keys q + count_of counts.old.entries q) }
{
    for name in names {
        let copy = name.copy(alloc)?;
        count_name(counts, copy)?;
    }
    Ok(())
}

/// The counts of these rows.
pub fn counts_of(alloc: Global, rows: &[Row]) -> Result<Counts, Memory>
    ensures { IfOk result (λ counts. AreCounted counts.entries rows.now) }
{
    let mut counts = BTreeMap::new(alloc);
    for row in rows {
        count_names(alloc, &mut counts, &row.names)?;
    }
    Ok(counts)
}

// Counts the name once less. A name that no row has any more isn't kept.
fn uncount_name(counts: &mut Counts, name: Bytes)
    ensures { (q : List ℕ) → count_of counts.new.entries q ≡ count_of counts.old.entries q - at_once name q }
{
    let count = count_of(counts, &name);
    if count > 1 {
        // It is there, so that this takes no memory.
        let _before = counts.insert(name, count - 1);
        return;
    }
    let _last = counts.remove(&name);
}

/// Counts each name of a row once less.
pub fn uncount_names(counts: &mut Counts, names: NameSet)
    ensures { (q : List ℕ) → count_of counts.new.entries q ≡ count_of counts.old.entries q - times names.keys q }
{
    for name in names {
        uncount_name(counts, name);
    }
}
