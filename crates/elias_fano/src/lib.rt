//! Lists of numbers that do not descend, as short texts in which each item can be read alone.
#![tactic(auto)]

mod error;
mod finding;
mod header;
mod iter;
mod list;
mod marks;
mod opening;
mod parts;
mod writer;
mod writing;

pub use error::EfError;
pub use iter::{EfBack, EfIter};
pub use list::EfList;
pub use marks::Marks;
pub use writer::EfWriter;
pub use writing::encode;

#[cfg(test)]
mod tests;
