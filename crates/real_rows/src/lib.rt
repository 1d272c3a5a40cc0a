//! Rows by the bytes of their ids in one table of a SQLite file.
#![tactic(auto)]

mod commands;
mod shared;
mod sql_table;
#[cfg(test)]
mod tests;

pub use shared::sends_table;
pub use sql_table::SqlTable;
