//! Devices that keep what they are given: a folder of files, and rows in a table.
#![tactic(auto)]

mod dir_disk;
mod place;
mod shared;
mod sql_keeper;
mod table;
#[cfg(test)]
mod tests;

pub use dir_disk::DirDisk;
pub use place::{id_at, orders_places, place_of};
pub use sql_keeper::SqlKeeper;
pub use table::{Record, Table, TableWrite};
