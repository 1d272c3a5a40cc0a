//! The kinds of step on a word, and what each tells. These types are for the proofs alone.
ghost use Rattle.turn_cell.specs.Rule.{spent};
ghost use Rattle.turn_cell.specs.Steps.{drew, looked, served, counted, refused, learned, left_view, right_view, joined_view};

use crate::kept::{Kept, Naming, Recorded};
use crate::view::View;
use atomic_table::{Join, Play, Split};
use std::marker::PhantomData;

// Adds 1 to the tickets: the number found is the ticket.
pub struct DrawTicket;

impl<S, R, T> Play<Option<S>, View<R, T>> for DrawTicket {
    ghost then = { drew };
}

// Loads the ticket served: where it is the seat's own, the seat has its turn and the slot.
pub struct LookAtServing<S> {
    marker: PhantomData<S>,
}

impl<S: Kept> Play<Option<S>, View<S::Record, <S::Record as Recorded>::Start>>
    for LookAtServing<S> {
    ghost then = { looked S.Record.caller S.stands S.start };
}

// Adds 1 to the ticket served: the turn is over, with the record that J names.
pub struct ServeNext<J> {
    marker: PhantomData<J>,
}

impl<S, R, T, J: Naming<R>> Play<Option<S>, View<R, T>> for ServeNext<J> {
    ghost then = { served J.added };
}

// Adds 1 to the numbers given out: the number found is for the new pass.
pub struct CountSplit;

impl<S, R, T> Play<Option<S>, View<R, T>> for CountSplit {
    ghost then = { counted };
}

// Loads the numbers given out, and notes that the split under way was refused.
pub struct RefuseSplit;

impl<S, R, T> Play<Option<S>, View<R, T>> for RefuseSplit {
    ghost then = { refused };
}

// Loads the tickets after a join: of the two histories joined the shorter begins the longer.
pub struct LearnJoin;

impl<S, R, T> Play<Option<S>, View<R, T>> for LearnJoin {
    ghost then = { learned };
}

// Cuts the new pass off pass 0.
pub struct SplitPass;

impl<R, T> Split<View<R, T>> for SplitPass {
    ghost left = { left_view };

    ghost right = { right_view };
}

// Puts a pass into pass 0.
pub struct JoinPasses;

impl<R, T> Join<View<R, T>> for JoinPasses {
    ghost both = { joined_view };

    ghost spent = { spent };
}
