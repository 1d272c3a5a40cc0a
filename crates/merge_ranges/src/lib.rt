//! Cuts of the steps into aligned ranges, which ranges to merge next, and the names of files.
#![tactic(auto)]

mod cut;
mod kind;
mod name;
mod text;

pub use cut::{Cut, Group, canon_cut, canon_laws, is_aligned_range, next_merge};
pub use name::{DiskName, FileName, name_laws};

#[cfg(test)]
mod tests;
