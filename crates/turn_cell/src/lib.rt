//! A state that threads take by turns, beside one history of what each turn did to it.
#![tactic(auto)]

mod calls;
mod cell;
mod kept;
mod pass;
mod plays;
mod rule;
mod state;
#[cfg(test)]
mod tests;
mod turn;
mod view;

pub use cell::TurnCell;
pub use kept::{Kept, Naming, Recorded};
pub use pass::{Pass, PassOf};
pub use turn::Turn;
pub use view::{Ended, Knowledge, QueuePlace, Stage, View};
