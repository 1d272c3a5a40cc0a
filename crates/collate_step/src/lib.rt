//! The groups of a step: its changes, collated into the files of each entity.
#![tactic(auto)]

mod befores;
mod earlier;
mod entity_files;
mod laws;
mod lists;
mod runs;
mod shared;
mod side;
mod step;

pub use earlier::newest_word;
pub use entity_files::EntityFiles;
pub use laws::group_laws;
pub use shared::shares_groups;
pub use step::{Groups, Inputs, collate};

#[cfg(test)]
mod tests;
