//! Runs the pure machine over a list of entries, and names the first that isn't possible.
#![tactic(auto)]

mod batches;
mod counts;
mod error;
mod laws;
mod names;
mod publish;
mod rows;
mod run;
mod running;
mod shared;
mod steps;

pub use error::CoreError;
pub use laws::{bytes_laws, consistent_laws};
pub use run::run_core;
pub use shared::shares_core;

#[cfg(test)]
mod tests;
