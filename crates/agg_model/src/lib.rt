//! The plain model of the store: entities, changes, the list of all changes, and what a key holds
//! just before a transaction number.
#![tactic(auto)]

mod change;
mod check;
mod contents;
mod entity;
mod limits;
mod look_up;
mod merge;
mod page;

pub use change::{Act, Batch, Change, StepRows};
pub use check::{BatchError, check_batch, content};
pub use contents::{Before, Befores, Lists, Pair, Pairs, Times, contents_laws, coverage_laws};
pub use entity::{Entity, FileKind, Range};
pub use limits::{KEY_MOST, STEPS_MOST, VALUE_MOST};
pub use look_up::{arranged_laws, look_up_law, plain_value_at};
pub use merge::{grown_laws, merge_repeats, merged_laws};
pub use page::{PageRow, PageRows};

#[cfg(test)]
mod tests;
