//! The machine while it runs.
ghost use Rattle.std.specs.Prelude.{◌≡◌, [], All, IfOk, OnOk, map};
ghost use Rattle.core_machine.specs.declared.machine.Opening.{Opening};
ghost use Rattle.core_machine.specs.Sound.{IsSound};
ghost use Rattle.core_machine.specs.Texts.{IsInForm};
ghost use Rattle.core_run.specs.Counts.{IsCounted};
ghost use Rattle.core_run.specs.Running.{machine_of, opening_of, openings};

use crate::counts::{Counts, counts_of};
use crate::names::{NameSet, list_of, set_of};
use agg_model::Batch;
use agg_outside::{ListOf, Memory};
use core_machine::{Machine, OpenRows, Opening};
use std::alloc::Global;

/// An open row, with its names as a set.
#[derive(Drop)]
pub struct Row {
    pub caller: u32,
    pub number: u64,
    pub at: u64,
    pub names: NameSet,
}

/// A machine, with its names as sets.
#[derive(Drop)]
pub struct Running {
    pub changes: Batch,
    pub next: u64,
    pub size: u64,
    pub rows: Vec<Row>,
    /// How many of the rows have each name.
    pub counts: Counts,
    pub present: NameSet,
    pub visible: NameSet,
}

fn row_of(alloc: Global, row: Opening) -> Result<Row, Memory>
    requires { IsInForm row.names }
    ensures { IfOk result (λ r. opening_of r ≡ row) }
{
    let names = set_of(alloc, &row.names)?;
    Ok(Row {
        caller: row.caller,
        number: row.number,
        at: row.at,
        names,
    })
}

fn rows_of(alloc: Global, opened: OpenRows) -> Result<Vec<Row>, Memory>
    requires { All (λ (row : Opening). IsInForm row.names) opened }
    ensures { IfOk result (λ rows. openings rows.items ≡ opened) }
{
    let mut rows = Vec::new(alloc);
    for row in opened.into_vec() {
        let row = row_of(alloc, row)?;
        rows.push(row)?;
    }
    Ok(rows)
}

/// The machine, ready to run.
pub fn running_of(alloc: Global, machine: Machine) -> Result<Running, Memory>
    requires { IsSound machine }
    ensures is { IfOk result (λ running. machine_of running ≡ machine) }
    ensures counted { IfOk result IsCounted }
{
    let Machine {
        changes,
        next,
        size,
        opened,
        present,
        visible,
    } = machine;
    let rows = rows_of(alloc, opened)?;
    let counts = counts_of(alloc, rows.as_slice())?;
    let present = set_of(alloc, &present)?;
    let visible = set_of(alloc, &visible)?;
    Ok(Running {
        changes,
        next,
        size,
        rows,
        counts,
        present,
        visible,
    })
}

fn opening_of(alloc: Global, row: Row) -> Result<Opening, Memory>
    ensures { IfOk result (λ opening. opening ≡ opening_of row) }
{
    let Row {
        caller,
        number,
        at,
        names,
    } = row;
    let names = list_of(alloc, names)?;
    Ok(Opening {
        caller,
        number,
        at,
        names,
    })
}

fn openings(alloc: Global, rows: Vec<Row>) -> Result<OpenRows, Memory>
    ensures { IfOk result (λ opened. opened ≡ openings rows.items) }
{
    let mut opened = ListOf::new(alloc);
    for row in rows {
        let opening = opening_of(alloc, row)?;
        opened.push(opening)?;
    }
    Ok(opened)
}

/// The machine that ran.
pub fn machine_of(alloc: Global, running: Running) -> Result<Machine, Memory>
    ensures { IfOk result (λ machine. machine ≡ machine_of running) }
{
    let Running {
        changes,
        next,
        size,
        rows,
        counts: _,
        present,
        visible,
    } = running;
    let opened = openings(alloc, rows)?;
    let present = list_of(alloc, present)?;
    let visible = list_of(alloc, visible)?;
    Ok(Machine {
        changes,
        next,
        size,
        opened,
        present,
        visible,
    })
}
