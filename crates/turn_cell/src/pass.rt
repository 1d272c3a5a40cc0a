//! The right to take turns of one cell, with what its holder knows of the history.
ghost use Rattle.std.specs.Prelude.{◌≡◌, [], ◌∷◌};
ghost use Rattle.turn_cell.specs.Passes.{one_view};

use crate::kept::Recorded;
use crate::view::View;
use atomic_table::{Badge, Seat};
use std::mem;

/// A caller of one cell, with its number. It can go to another thread. While it has its turn the
/// turn has its badge. One that is dropped and not joined stays out, so its cell can't be closed.
#[derive(Drop)]
pub struct PassOf<R, T> {
    pub(crate) number: u64,
    pub(crate) badge: Badge<View<R, T>>,
}

/// The passes of a cell whose records are of the type R.
pub type Pass<R> = PassOf<R, <R as Recorded>::Start>;

impl<R, T> PassOf<R, T> {
    /// The number of the pass: 0 for the first, 1 for the first that was split from it, and so on.
    pub fn number(&self) -> u64
        ensures { result ≡ self.now.number }
    {
        self.number
    }

    pub(crate) fn of<S>(number: u64, seat: Seat<S, View<R, T>>) -> PassOf<R, T>
        requires { seat.me.1 ≡ [] }
        ensures number { result.number ≡ number }
        ensures badge { (result.badge.table_id ≡ seat.table_id) × (result.badge.id ≡ seat.id) × (result.badge.views ≡ seat.me.0 ∷ []) }
    {
        PassOf {
            number,
            badge: seat.into_badge(),
        }
    }

    // Takes the badge out, as a seat.
    pub(crate) fn take_seat<S>(&mut self) -> Seat<S, View<R, T>>
        requires { self.old.badge.views ≡ one_view self.old.badge.views ∷ [] }
        ensures seat { (result.table_id ≡ self.old.badge.table_id) × (result.id ≡ self.old.badge.id) × (result.me ≡ (one_view self.old.badge.views, [])) }
        ensures away { (self.new.badge.views ≡ []) × (self.new.number ≡ self.old.number) }
    {
        mem::replace(&mut self.badge, Badge::blank()).into_seat::<S>()
    }

    // Puts the seat back as the badge.
    pub(crate) fn put_seat<S>(&mut self, seat: Seat<S, View<R, T>>)
        requires { seat.me.1 ≡ [] }
        ensures number { self.new.number ≡ self.old.number }
        ensures badge { (self.new.badge.table_id ≡ seat.table_id) × (self.new.badge.id ≡ seat.id) × (self.new.badge.views ≡ seat.me.0 ∷ []) }
    {
        self.badge = seat.into_badge();
    }
}
