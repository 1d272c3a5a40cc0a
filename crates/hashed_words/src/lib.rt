//! Pairs of words behind a hash accessor: what all files of pairs share, from their reading to their look-ups.
#![tactic(auto)]

mod error;
mod filter;
mod hashed;
mod limits;
mod open;
mod plain_keys;
mod rules;
mod shared;
mod starts;

pub use error::FileError;
pub use hashed::HashedWords;
pub use limits::TRIES;
pub use open::open_words;
pub use plain_keys::{count_plain_value, is_plain_key};
pub use rules::WordRules;
pub use shared::shares_hashed_words;

#[cfg(test)]
mod tests;
