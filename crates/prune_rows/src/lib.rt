//! Pruning: rows that files cover are killed, and removed once no open view sees them.
#![tactic(auto)]

mod prune;

pub use prune::prune_some;

#[cfg(test)]
mod plain_keeper;
#[cfg(test)]
mod tests;
