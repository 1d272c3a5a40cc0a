//! The numbers at which each key changed, over a range of steps.
#![tactic(auto)]

mod build;
mod ef_file;
mod laws;
mod lists;
mod numbers;
mod parts;
mod rules;
mod shared;

pub use agg_model::{Lists, Times};
pub use build::build_ef;
pub use ef_file::EfFile;
pub use hashed_words::FileError;
pub use laws::{ef_tag, file_laws, list_laws};
pub use lists::are_lists;
pub use shared::shares_ef_file;

#[cfg(test)]
mod tests;
