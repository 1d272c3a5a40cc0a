//! Sets of visible groups of files, how often each file is pinned, and the names of those that are
//! to be removed.
#![tactic(auto)]

mod check;
mod held;
mod ids;
mod prepared;
mod set;
mod sets;
mod shared;
mod strays;

pub use check::{can_begin, can_follow};
pub use held::HeldGroup;
pub use ids::GroupId;
pub use prepared::Prepared;
pub use set::FileSet;
pub use sets::FileSets;
pub use shared::shares_sets;
