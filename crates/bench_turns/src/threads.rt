//! So many threads, with so many turns each.
ghost use Rattle.std.specs.Prelude.{◌≡◌, ◌+◌, ◌*◌, ◌≤◌, ◌%◌, ◌^◌, [], length, vec_len, All, IfOk, OnOk, Some};
ghost use Rattle.turn_cell.specs.Rule.{fresh};
ghost use Rattle.turn_cell.specs.Steps.{after_turn};
ghost use Rattle.turn_cell.specs.Passes.{knowledge_of, knowledge_in, found_of, IsAtRest, IsTurnOf};
ghost use Rattle.bench_turns.specs.First.{IsFirst};

use crate::counter::{Counter, Entry};
use agg_outside::Memory;
use std::alloc::Global;
use std::marker::Brand;
use std::sync::Wait;
use std::thread::{Threads, map_vec};
use turn_cell::{Naming, Pass, Turn, TurnCell};

/// The most threads that `counted` starts.
pub const MOST_THREADS: u64 = 1000;

fn finish<J: Naming<Entry>>(cell: &TurnCell<Counter>, pass: &mut Pass<Entry>, turn: Turn<Counter>)
    requires own { IsTurnOf cell.now pass.old turn }
    requires record { J.added ≡ record { by = (knowledge_in turn).number } }
    requires state { turn.state.turns ≡ (length (found_of turn) + 1) % 2 ^ 64 }
    requires start { Some tt ≡ (knowledge_in turn).start }
    ensures rest { IsAtRest cell.now pass.new }
    ensures added { knowledge_of pass.new ≡ after_turn (knowledge_in turn) (found_of turn) (record { by = (knowledge_in turn).number }) }
{
    cell.give_back::<J>(pass, turn);
}

fn turn<R: Wait>(rt: &R, cell: &TurnCell<Counter>, pass: &mut Pass<Entry>, rounds: u64)
    requires { IsAtRest cell.now pass.old }
    ensures rest { IsAtRest cell.now pass.new }
    ensures one_more { length (knowledge_of pass.new).mine ≡ length (knowledge_of pass.old).mine + 1 }
{
    let mut turn = cell.take(rt, pass);
    turn.state().work(rounds);
    finish::<Brand>(cell, pass, turn);
}

fn turns<R: Wait>(
    rt: &R,
    cell: &TurnCell<Counter>,
    mut pass: Pass<Entry>,
    count: u64,
    rounds: u64,
) -> Pass<Entry>
    requires { IsAtRest cell.now pass }
    ensures rest { IsAtRest cell.now result }
    ensures more { length (knowledge_of result).mine ≡ length (knowledge_of pass).mine + count }
{
    for _turn in 0..count {
        turn(rt, cell, &mut pass, rounds);
    }
    pass
}

fn split_all(
    alloc: Global,
    cell: &TurnCell<Counter>,
    zero: &mut Pass<Entry>,
    count: u64,
) -> Result<Vec<Pass<Entry>>, Memory>
    requires few { count ≤ MOST_THREADS }
    requires rest { IsAtRest cell.now zero.old }
    requires first { knowledge_of zero.old ≡ fresh 0 (Some tt) [] }
    ensures rest { IsAtRest cell.now zero.new }
    ensures zero { OnOk result (IsFirst (knowledge_of zero.new)) }
    ensures out { IfOk result (λ v. (knowledge_of zero.new).out ≡ vec_len v) }
    ensures none { OnOk result ((knowledge_of zero.new).ended ≡ []) }
    ensures len { IfOk result (λ v. vec_len v ≡ count) }
    ensures all { IfOk result (λ v. All (λ p. IsAtRest cell.now p × ((knowledge_of p).mine ≡ [])) v.items) }
{
    let mut passes = Vec::new(alloc);
    for _passed in 0..count {
        let pass = cell.split(alloc, zero)?;
        passes.push(pass)?;
    }
    Ok(passes)
}

fn join_all(
    cell: &TurnCell<Counter>,
    zero: &mut Pass<Entry>,
    mut passes: Vec<Pass<Entry>>,
    count: u64,
)
    requires rest { IsAtRest cell.now zero.old }
    requires zero { IsFirst (knowledge_of zero.old) }
    requires out { (knowledge_of zero.old).out ≡ vec_len passes }
    requires none { (knowledge_of zero.old).ended ≡ [] }
    requires all { All (λ p. IsAtRest cell.now p × (length (knowledge_of p).mine ≡ count)) passes.items }
    ensures rest { IsAtRest cell.now zero.new }
    ensures zero { IsFirst (knowledge_of zero.new) × ((knowledge_of zero.new).out ≡ 0) }
    ensures len { length (knowledge_of zero.new).ended ≡ vec_len passes }
    ensures each { All (λ e. length e.records ≡ count) (knowledge_of zero.new).ended }
{
    while let Some(pass) = passes.pop() {
        cell.join(zero, pass);
    }
}

/// The counter after so many turns of each of so many threads, each of so many rounds.
pub fn counted<R: Threads + Wait + Sync>(
    rt: &R,
    alloc: Global,
    threads: u64,
    count: u64,
    rounds: u64,
) -> Result<Counter, Memory>
    requires { threads ≤ MOST_THREADS }
    ensures { IfOk result (λ c. c.turns ≡ threads * count % 2 ^ 64) }
{
    let Ok((cell, mut zero)) = TurnCell::new(alloc, Counter { turns: 0, value: 1 }) else {
        return Err(Memory);
    };
    let passes = split_all(alloc, &cell, &mut zero, threads)?;
    let shared = &cell;
    let passes = map_vec(
        rt,
        passes,
        &|pass: Pass<Entry>| -> Pass<Entry>
            requires { IsAtRest shared.now pass × ((knowledge_of pass).mine ≡ []) }
            ensures { IsAtRest shared.entry.now result × (length (knowledge_of result).mine ≡ count) }
        { turns(rt, shared, pass, count, rounds) },
    )?;
    join_all(&cell, &mut zero, passes, count);
    Ok(cell.close(zero))
}
