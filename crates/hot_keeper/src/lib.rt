//! Windows over the hot rows: what an epoch sees of the changes that aren't in files yet, what of them
//! belongs to a step, and which rows are killed once files cover them.
#![tactic(auto)]

mod ahead;
mod error;
mod hot;
mod keys;
mod notes;
mod pieces;
mod pruning;
mod shared;
mod skips;
mod steps;
mod times;

pub use error::ReadError;
pub use hot::Hot;
pub use pruning::{Low, Pruned};
pub use row_epochs::RowsError;
