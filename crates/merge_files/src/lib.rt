//! Merged groups: the files of an entity over adjoining ranges of steps, made the files over all of them.
#![tactic(auto)]

mod adjacent;
mod cursor;
mod error;
mod history;
mod input;
mod item;
mod least;
mod numbers;
mod order;
mod values;
mod walk;
mod whole;

pub use error::MergeError;
pub use item::MergeItem;
pub use walk::MergeWalk;
pub use whole::merge;

#[cfg(test)]
mod tests;
