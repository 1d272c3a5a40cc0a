//! Reads over the files of all steps up to one and a window of the changes behind them.
#![tactic(auto)]

mod copies;
mod lists;
mod looks;
mod numbers;
mod page;
mod reads;
mod value;
mod window;

pub use copies::{copied, value_in};
pub use hot_keeper::ReadError;
pub use looks::{ends_by, is_of};
pub use page::TimesPage;
pub use reads::{read_as_of, read_index, read_latest};
pub use value::value_of_act;
pub use window::Window;

#[cfg(test)]
mod tests;
