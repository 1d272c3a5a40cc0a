//! The rule of the table: three words, and one slot for the state.
ghost use Rattle.std.specs.Prelude.{[], Some};
ghost use Rattle.turn_cell.specs.Rule.{IsSound, newcomer};

use crate::kept::{Kept, Recorded};
use crate::view::View;
use atomic_table::TableRule;
use std::marker::PhantomData;
use std::snapshot::Snapshot;

pub struct TurnRule<S> {
    marker: PhantomData<S>,
}

impl<S: Kept> TableRule<Option<S>, View<S::Record, <S::Record as Recorded>::Start>, Snapshot<S>>
    for TurnRule<S> {
    ghost holds = { λ key. IsSound S.Record.caller S.stands S.start (S.start key.value) };

    ghost first = { λ key. newcomer 0 (Some (S.start key.value)) [] };
}
