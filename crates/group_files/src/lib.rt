//! The files of groups on a disk: each comes to its name whole, in the order of groups and kinds.
#![tactic(auto)]

mod groups;
mod kinds;
mod laws;
mod publishing;

pub use groups::{group_names, publish_groups};
pub use laws::{exact_laws, name_laws, publish_laws};
pub use publishing::publish_file;

#[cfg(test)]
mod tests;
