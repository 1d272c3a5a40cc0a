//! Pages of rows over the files of all steps up to one and a window of the changes behind them.
#![tactic(auto)]

mod asked;
mod cursors;
mod keys;
mod lists;
mod look;
mod order;
mod pages;
mod reads;
mod rows;
mod values;

pub use pages::Page;
pub use reads::{read_history, read_range};
