//! Hash accessors of word files: the offset of a key's word by one look, after RecSplit.
#![tactic(auto)]

mod buckets;
mod compare;
mod file;
mod find;
mod follow;
mod hash;
mod keys;
mod layout;
mod nodes;
mod parts;
mod seeds;
mod shared;
mod spell;
mod walk;

pub use file::HashIndex;
pub use hash::{key_hash, scale};
pub use shared::shares_hash_index;
pub use word_file::AccessError;

#[cfg(test)]
mod tests;
