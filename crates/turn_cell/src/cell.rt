//! The cell.
ghost use Rattle.std.specs.Prelude.{◌≡◌};

use crate::kept::{Kept, Recorded};
use crate::rule::TurnRule;
use crate::view::View;
use atomic_table::Table;
use std::alloc::Global;
use std::snapshot::Snapshot;

/// A state that passes take by turns. Threads share it through a `&`.
#[derive(Drop)]
pub struct TurnCell<S: Kept> {
    pub(crate) table: Table<
        Option<S>,
        View<S::Record, <S::Record as Recorded>::Start>,
        Snapshot<S>,
        TurnRule<S>,
        Global,
    >,
    ghost sized: { (table.shared.table_id.words ≡ 3) × (table.shared.table_id.slots ≡ 1) },
}
