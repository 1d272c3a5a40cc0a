//! Threads that write into one list by turns.
ghost use Rattle.std.specs.Prelude.{◌≡◌, ◌+◌, ◌≤◌, ◌%◌, ◌^◌, ◌++◌, ◌∷◌, [], ℕ, length, vec_len, All, IfOk, OnOk, Some};
ghost use Rattle.turn_cell.specs.Steps.{after_turn};
ghost use Rattle.turn_cell.specs.Passes.{knowledge_of, knowledge_in, found_of, IsAtRest, IsTurnOf};

use crate::{Kept, Naming, Pass, Recorded, Turn, TurnCell};
use agg_outside::Memory;
use std::alloc::Global;
use std::marker::Brand;
use std::sync::Wait;
use std::test::Fail;
use std::thread::{Threads, map_vec};

/// One turn: who took it, and how many it had taken before.
#[derive(Clone, Copy)]
struct Entry {
    by: u64,
    count: u64,
}

impl Recorded for Entry {
    type Start = ();

    ghost caller = { λ e. e.by };
}

/// What the turns wrote, as far as memory was had, and how many they were.
#[derive(Drop)]
struct Notes {
    entries: Vec<Entry>,
    turns: u64,
}

impl Kept for Notes {
    type Record = Entry;

    ghost stands = { λ x log. x.turns ≡ length log % 2 ^ 64 };

    ghost start = { λ x. tt };
}

impl Naming<Entry> for Brand {
    ghost added = { record { by = 0; count = 0 } };
}

impl Notes {
    fn add(&mut self, entry: Entry)
        ensures { self.new.turns ≡ (self.old.turns + 1) % 2 ^ 64 }
    {
        let _ = self.entries.push(entry);
        self.turns = self.turns.wrapping_add(1);
    }
}

fn finish<J: Naming<Entry>>(
    cell: &TurnCell<Notes>,
    pass: &mut Pass<Entry>,
    turn: Turn<Notes>,
    entry: Entry,
)
    requires own { IsTurnOf cell.now pass.old turn }
    requires record { J.added ≡ entry }
    requires by { entry.by ≡ (knowledge_in turn).number }
    requires state { turn.state.turns ≡ (length (found_of turn) + 1) % 2 ^ 64 }
    requires start { Some tt ≡ (knowledge_in turn).start }
    ensures rest { IsAtRest cell.now pass.new }
    ensures added { knowledge_of pass.new ≡ after_turn (knowledge_in turn) (found_of turn) entry }
{
    cell.give_back::<J>(pass, turn);
}

// One turn of the pass.
fn write<R: Wait>(rt: &R, cell: &TurnCell<Notes>, pass: &mut Pass<Entry>, count: u64)
    requires { IsAtRest cell.now pass.old }
    ensures rest { IsAtRest cell.now pass.new }
    ensures number { (knowledge_of pass.new).number ≡ (knowledge_of pass.old).number }
    ensures made { (knowledge_of pass.new).made ≡ (knowledge_of pass.old).made }
    ensures out { (knowledge_of pass.new).out ≡ (knowledge_of pass.old).out }
{
    let entry = Entry {
        by: pass.number(),
        count,
    };
    let mut turn = cell.take(rt, pass);
    turn.state().add(entry);
    finish::<Brand>(cell, pass, turn, entry);
}

fn write_all<R: Wait>(
    rt: &R,
    cell: &TurnCell<Notes>,
    mut pass: Pass<Entry>,
    turns: u64,
) -> Pass<Entry>
    requires { IsAtRest cell.now pass }
    ensures { IsAtRest cell.now result }
{
    for count in 0..turns {
        write(rt, cell, &mut pass, count);
    }
    pass
}

fn split_all(
    alloc: Global,
    cell: &TurnCell<Notes>,
    zero: &mut Pass<Entry>,
    count: u64,
) -> Result<Vec<Pass<Entry>>, Memory>
    requires few { count ≤ 1000 }
    requires rest { IsAtRest cell.now zero.old }
    requires first { ((knowledge_of zero.old).number ≡ 0) × ((knowledge_of zero.old).made ≡ 1) × ((knowledge_of zero.old).out ≡ 0) }
    ensures rest { IsAtRest cell.now zero.new }
    ensures zero { OnOk result ((knowledge_of zero.new).number ≡ 0) }
    ensures out { IfOk result (λ v. (knowledge_of zero.new).out ≡ vec_len v) }
    ensures all { IfOk result (λ v. All (λ p. IsAtRest cell.now p) v.items) }
{
    let mut passes = Vec::new(alloc);
    for _passed in 0..count {
        let pass = cell.split(alloc, zero)?;
        passes.push(pass)?;
    }
    Ok(passes)
}

fn join_all(cell: &TurnCell<Notes>, zero: &mut Pass<Entry>, mut passes: Vec<Pass<Entry>>)
    requires rest { IsAtRest cell.now zero.old }
    requires zero { (knowledge_of zero.old).number ≡ 0 }
    requires out { (knowledge_of zero.old).out ≡ vec_len passes }
    requires all { All (λ p. IsAtRest cell.now p) passes.items }
    ensures rest { IsAtRest cell.now zero.new }
    ensures zero { ((knowledge_of zero.new).number ≡ 0) × ((knowledge_of zero.new).out ≡ 0) }
{
    while let Some(pass) = passes.pop() {
        cell.join(zero, pass);
    }
}

// A turn of pass 0, and then so many turns by each of so many threads.
fn together<R: Threads + Wait + Sync>(
    rt: &R,
    alloc: Global,
    threads: u64,
    turns: u64,
) -> Result<Notes, Memory>
    requires { threads ≤ 1000 }
{
    let start = Notes {
        entries: Vec::new(alloc),
        turns: 0,
    };
    let Ok((cell, mut zero)) = TurnCell::new(alloc, start) else {
        return Err(Memory);
    };
    write(rt, &cell, &mut zero, 0);
    let passes = split_all(alloc, &cell, &mut zero, threads)?;
    let shared = &cell;
    let passes = map_vec(
        rt,
        passes,
        &|pass: Pass<Entry>| -> Pass<Entry>
            requires { IsAtRest shared.now pass }
            ensures { IsAtRest shared.entry.now result }
        { write_all(rt, shared, pass, turns) },
    )?;
    join_all(&cell, &mut zero, passes);
    Ok(cell.close(zero))
}

// How many entries each pass wrote; none where one of them isn't the next of its pass.
fn counted(notes: &Notes) -> Option<[u64; 17]> {
    let mut next = [0u64; 17];
    for entry in &notes.entries {
        let place = usize::try_from(entry.by).ok()?;
        let count = next.get_mut(place)?;
        if entry.count != *count {
            return None;
        }
        *count = count.wrapping_add(1);
    }
    Some(next)
}

#[test]
fn each_turn_is_there_once_in_its_order(rt: HostRuntime) -> Result<(), Fail> {
    let notes = together(&rt, rt.alloc(), 8, 1000)?;
    assert_eq!(rt; notes.turns, 8001);
    assert_eq!(rt; notes.entries.len(), 8001);
    let counts = counted(&notes).ok_or("a turn out of its order")?;
    for (pass, count) in counts.iter().enumerate() {
        let wanted = match pass {
            0 => 1,
            1..=8 => 1000,
            _ => 0,
        };
        assert_eq!(rt; *count, wanted, "of pass {pass}");
    }
    Ok(())
}

#[test]
fn any_number_of_passes_is_split_and_joined(rt: HostRuntime) -> Result<(), Fail> {
    for (threads, turns, wanted) in [(0, 3, 1), (1, 0, 1), (1, 3, 4), (16, 0, 1), (16, 3, 49)] {
        let notes = together(&rt, rt.alloc(), threads, turns)?;
        assert_eq!(rt; notes.turns, wanted, "of {threads} passes");
    }
    Ok(())
}
