//! The state, while one pass has it.
use crate::kept::{Kept, Recorded};
use crate::view::View;
use atomic_table::Seat;

/// A turn with the state. It can't be dropped: `TurnCell::give_back` alone uses it up.
pub struct Turn<S: Kept> {
    pub(crate) state: S,
    pub(crate) seat: Seat<Option<S>, View<S::Record, <S::Record as Recorded>::Start>>,
}
