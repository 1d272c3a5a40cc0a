//! Laws of files and the changes behind them: what they tell together is what the list of all changes tells.
#![tactic(auto)]

mod laws;

pub use laws::{coverage_laws, next_laws, page_laws};
