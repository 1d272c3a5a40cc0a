//! Sources, sinks, disks, keepers and doors in memory.
#![tactic(auto)]

mod calls;
mod mem_disk;
mod mem_keeper;
mod mem_sink;
mod mem_source;
mod pieces;
mod row_body;
mod row_places;
mod row_tree;
mod row_writes;
mod sure_disk;
mod sure_done;
mod sure_doors;
mod sure_keeper;
mod sure_sink;
mod sure_source;
#[cfg(test)]
mod tests;
mod tree_adds;
mod tree_writes;

pub use mem_disk::MemDisk;
pub use mem_keeper::MemKeeper;
pub use mem_sink::MemSink;
pub use mem_source::MemSource;
pub use sure_disk::SureDisk;
pub use sure_done::SureDone;
pub use sure_doors::SureDoors;
pub use sure_keeper::SureKeeper;
pub use sure_sink::SureSink;
pub use sure_source::SureSource;
