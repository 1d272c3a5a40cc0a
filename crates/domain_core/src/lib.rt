//! Files of a domain: the values of its keys at the end of a range of steps.
#![tactic(auto)]

mod build;
mod check;
mod kv_file;
mod newest;
mod open;
mod parts;
mod shared;
mod step;

pub use agg_model::{Pair, Pairs};
pub use build::{build_kv, build_step, file_laws, kv_tag};
pub use check::are_pairs;
pub use hashed_words::FileError;
pub use kv_file::KvFile;
pub use newest::newest_value;
pub use shared::shares_kv_file;
pub use step::step_pairs;

#[cfg(test)]
mod tests;
