//! Files of a domain: the values that its keys had before each change.
#![tactic(auto)]

mod befores;
mod build;
mod key_word;
mod laws;
mod open;
mod parts;
mod rules;
mod shared;
mod spell;
mod v_file;

pub use agg_model::{Before, Befores};
pub use befores::are_befores;
pub use build::{build_v, build_v_side_by_side};
pub use laws::{file_laws, list_laws, v_tag};
pub use shared::shares_v_file;
pub use v_file::VFile;

#[cfg(test)]
mod tests;
