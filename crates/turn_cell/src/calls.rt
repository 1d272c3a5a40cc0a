//! The calls: a pass takes its turn and gives it back, and passes are split and joined.
ghost use Rattle.std.specs.Prelude.{◌≡◌, ◌<◌, ◌^◌, ◌++◌, [], ◌∷◌, Some, IfOk, IfErr, OnErr};
ghost use mathlib.Core.List.{IsPrefix};
ghost use Rattle.turn_cell.specs.Rule.{fresh, after_join};
ghost use Rattle.turn_cell.specs.Steps.{Finds, after_turn, KnowsAll};
ghost use Rattle.turn_cell.specs.Passes.{knowledge_of, IsAtRest, IsTurnOf, found_of, knowledge_in, after_split, IsRefusedSplit};

use crate::cell::TurnCell;
use crate::kept::{Kept, Naming};
use crate::pass::{Pass, PassOf};
use crate::plays::{
    CountSplit, DrawTicket, JoinPasses, LearnJoin, LookAtServing, ServeNext, SplitPass,
};
use crate::turn::Turn;
use agg_outside::Memory;
use atomic_table::{Refused, Table};
use std::alloc::{AllocFailed, Global};
use std::hint;
use std::snapshot::Snapshot;
use std::sync::Wait;

// The words of the table: the next ticket to be drawn, the ticket that is served, and the count of
// the numbers given out.
const TICKETS: usize = 0;

const SERVING: usize = 1;

const MADE: usize = 2;

// How often a pass looks before it sleeps.
const LOOKS: u32 = 100;

// What a thread did while it waited: how often it looked and didn't sleep, whether it slept, and the ticket that
// was served when it last passed a wake on.
#[derive(Drop)]
struct Waiting {
    looks: u32,
    has_slept: bool,
    passed_on: Option<u64>,
}

impl Waiting {
    fn new() -> Waiting {
        Waiting {
            looks: 0,
            has_slept: false,
            passed_on: None,
        }
    }
}

impl<S: Kept> TurnCell<S> {
    /// A cell with this state, and its pass 0. Where memory ran out the state comes back.
    pub fn new(alloc: Global, state: S) -> Result<(TurnCell<S>, Pass<S::Record>), (Memory, S)>
        requires { S.stands state [] }
        ensures ok { IfOk result (λ r. IsAtRest r.0 r.1 × (knowledge_of r.1 ≡ fresh 0 (Some (S.start state)) [])) }
        ensures err { IfErr result (λ e. e.1 ≡ state) }
    {
        let about = Snapshot::of(&state);
        let mut slots = Vec::new(alloc);
        if let Err(failed) = slots.push(Some(state)) {
            let AllocFailed { value } = failed;
            let Some(state) = value else { unreachable!() };
            return Err((Memory, state));
        }
        match Table::new(alloc, &[0, 0, 1], slots, &about) {
            Ok((table, seat)) => Ok((TurnCell { table }, PassOf::of(0, seat))),
            Err(Refused { mut slots }) => {
                let Some(Some(state)) = slots.pop() else {
                    unreachable!()
                };
                Err((Memory, state))
            }
        }
    }

    // Between two looks at the ticket served, of which `now` was the last: looks again at once for a while, and
    // then sleeps until the word is another. Who is woken out of its turn passes the wake on before it sleeps
    // again; who comes to that a second time while the same ticket is served wakes all.
    fn pause<R: Wait>(&self, rt: &R, now: u64, waiting: &mut Waiting) {
        if waiting.looks < LOOKS {
            waiting.looks += 1;
            hint::spin_loop();
            return;
        }
        if waiting.has_slept {
            if waiting.passed_on == Some(now) {
                self.table.shared.wake_all(SERVING);
            } else {
                self.table.shared.wake_one(SERVING);
                waiting.passed_on = Some(now);
            }
        }
        waiting.has_slept = true;
        let expected = (now % (1 << 32)) as u32;
        self.table.shared.park(rt, SERVING, expected);
    }

    /// Waits for the turn of the pass, and takes the state. Turns come in the order in which their
    /// tickets were drawn. The pass shows its number alone until `give_back`: what it knows stands
    /// in the turn meanwhile.
    pub fn take<R: Wait>(&self, rt: &R, pass: &mut Pass<S::Record>) -> Turn<S>
        requires { IsAtRest self.now pass.old }
        ensures turn { IsTurnOf self.now pass.new result }
        ensures knowledge { knowledge_in result ≡ knowledge_of pass.old }
        ensures state { S.stands result.state (found_of result) }
        ensures start { Some (S.start result.state) ≡ (knowledge_of pass.old).start }
        ensures found { Finds S.Record.caller (knowledge_of pass.old) (found_of result) }
    {
        let mut seat = pass.take_seat::<Option<S>>();
        let ticket = self
            .table
            .shared
            .fetch_add::<DrawTicket>(&mut seat, TICKETS, 1);
        let mut waiting = Waiting::new();
        for _ in rt.forever() {
            let now = self
                .table
                .shared
                .load::<LookAtServing<S>>(&mut seat, SERVING);
            if now == ticket {
                return match self.table.shared.exchange(&mut seat, 0, None) {
                    Some(state) => Turn { state, seat },
                    None => unreachable!(),
                };
            }
            self.pause(rt, now, &mut waiting);
        }
        unreachable!()
    }

    /// Ends the turn. The history has one record more, which `J` names. The next pass is served; where
    /// somebody stands behind, one who sleeps is woken, and passes that on where it isn't the next.
    pub fn give_back<J: Naming<S::Record>>(&self, pass: &mut Pass<S::Record>, turn: Turn<S>)
        requires own { IsTurnOf self.now pass.old turn }
        requires record { S.Record.caller J.added ≡ (knowledge_in turn).number }
        requires state { S.stands turn.state (found_of turn ++ J.added ∷ []) }
        requires start { Some (S.start turn.state) ≡ (knowledge_in turn).start }
        ensures rest { IsAtRest self.now pass.new }
        ensures added { knowledge_of pass.new ≡ after_turn (knowledge_in turn) (found_of turn) J.added }
    {
        let Turn { state, mut seat } = turn;
        match self.table.shared.exchange(&mut seat, 0, Some(state)) {
            None => {}
            Some(_) => unreachable!(),
        }
        let served = self
            .table
            .shared
            .fetch_add::<ServeNext<J>>(&mut seat, SERVING, 1);
        // Who drew a ticket before this look may be asleep. Who draws one after it sees the new word.
        if self.table.shared.peek(TICKETS) != served.wrapping_add(1) {
            self.table.shared.wake_one(SERVING);
        }
        pass.badge = seat.into_badge();
    }

    /// A new pass with the next number, which has seen as much as pass 0. No memory is taken by now,
    /// so `Memory` doesn't come.
    pub fn split(
        &self,
        _alloc: Global,
        pass: &mut Pass<S::Record>,
    ) -> Result<Pass<S::Record>, Memory>
        requires rest { IsAtRest self.now pass.old }
        requires zero { (knowledge_of pass.old).number ≡ 0 }
        requires room { (knowledge_of pass.old).made < 2 ^ 16 }
        ensures rest { IsAtRest self.now pass.new }
        ensures counted { IfOk result (λ _. knowledge_of pass.new ≡ after_split (knowledge_of pass.old)) }
        ensures new { IfOk result (λ p. IsAtRest self.now p × (knowledge_of p ≡ fresh (knowledge_of pass.old).made (knowledge_of pass.old).start (knowledge_of pass.old).seen)) }
        ensures memory { OnErr result (IsRefusedSplit (knowledge_of pass.old) (knowledge_of pass.new)) }
    {
        let mut seat = pass.take_seat::<Option<S>>();
        let number = self
            .table
            .shared
            .fetch_add::<CountSplit>(&mut seat, MADE, 1);
        let other = self.table.shared.split_seat::<SplitPass>(&mut seat);
        pass.put_seat(seat);
        Ok(PassOf::of(number, other))
    }

    /// Pass 0 takes another in: it has seen what the one that saw more had seen.
    pub fn join(&self, pass: &mut Pass<S::Record>, mut other: Pass<S::Record>)
        requires rest { IsAtRest self.now pass.old × IsAtRest self.now other }
        requires zero { (knowledge_of pass.old).number ≡ 0 }
        ensures rest { IsAtRest self.now pass.new }
        ensures joined { knowledge_of pass.new ≡ after_join (knowledge_of pass.old) (knowledge_of other) }
        ensures seen { IsPrefix (knowledge_of pass.old).seen (knowledge_of pass.new).seen }
        ensures seen_by_other { IsPrefix (knowledge_of other).seen (knowledge_of pass.new).seen }
    {
        let mut seat = pass.take_seat::<Option<S>>();
        let other = other.take_seat::<Option<S>>();
        self.table.shared.join_seat::<JoinPasses>(&mut seat, other);
        self.table.shared.load::<LearnJoin>(&mut seat, TICKETS);
        pass.put_seat(seat);
    }

    /// The state at the end, with the whole history behind it.
    pub fn close(self, mut pass: Pass<S::Record>) -> S
        requires rest { IsAtRest self pass }
        requires last { ((knowledge_of pass).number ≡ 0) × ((knowledge_of pass).out ≡ 0) }
        ensures state { S.stands result (knowledge_of pass).seen }
        ensures start { Some (S.start result) ≡ (knowledge_of pass).start }
        ensures history { KnowsAll S.Record.caller (knowledge_of pass) }
    {
        let TurnCell { table } = self;
        let seat = pass.take_seat::<Option<S>>();
        let mut closed = table.close_with(seat);
        let slot = closed.take(0);
        closed.free();
        match slot {
            Some(state) => state,
            None => unreachable!(),
        }
    }
}
