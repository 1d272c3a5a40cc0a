//! Word files: a tag and a list of words in one text, each word reached by its offset.
#![tactic(auto)]

mod access;
mod error;
mod file;
mod paired;
mod read;
mod sample;
mod shared;
mod tag;
mod writer;

pub use access::{AccessError, first_difference, follow};
pub use error::WordError;
pub use file::WordFile;
pub use paired::{is_paired, key_after, key_offsets, keys_ascend};
pub use sample::odd_keys;
pub use shared::shares_words;
pub use tag::Tag;
pub use writer::WordWriter;

#[cfg(test)]
mod tests;
