//! What the files and the rows of a list are: names, bytes, and what a disk and a keeper hold of them.
#![tactic(auto)]

mod laws;

pub use laws::{file_laws, written_laws};
