//! B-tree accessors of word files: the offsets of the keys, level over level.
#![tactic(auto)]

mod compare;
mod file;
mod levels;
mod search;
mod shared;

pub use file::BTreeFile;
pub use shared::shares_btree;
pub use word_file::AccessError;

#[cfg(test)]
mod tests;
