//! The lines of a session: requests read from the words of a line, and replies printed as lines.
#![tactic(auto)]

mod line_cut;
mod lines;
mod reply;
mod request;
#[cfg(test)]
mod tests;
mod words;

pub use line_cut::{Cutting, LineCut};
pub use lines::without_cr;
pub use reply::Reply;
pub use request::{LineError, Request};
pub use words::{PAGE_MOST, number};
