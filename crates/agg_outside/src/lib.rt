//! What the store takes from outside: byte texts, lists, and the traits of sources, sinks, disks,
//! keepers, doors and gates.
#![tactic(auto)]

mod bytes;
mod disk;
mod doors;
mod errors;
mod file_map;
mod gate;
mod keeper;
mod list;
mod rows;
mod shared;
mod sink;
mod source;
mod steps;
#[cfg(test)]
mod tests;

pub use bytes::{Bytes, slice_fits};
pub use disk::Disk;
pub use doors::Doors;
pub use errors::{DiskError, Failed, KeeperError, Memory, SinkError};
pub use file_map::{FileEntry, FileMap};
pub use gate::{Gate, NoGate, Point};
pub use keeper::Keeper;
pub use list::{Keys, ListOf, Names, Numbers};
pub use rows::{KeeperStart, Row, RowId, RowWrite, Rowlist};
pub use sink::Sink;
pub use source::Source;
pub use steps::Steps;
