//! A session between two lines: the accepted changes, what its link keeps beside them, and what each line makes of both.
#![tactic(auto)]

mod closing;
mod limits;
mod link;
mod reading;
mod session;
#[cfg(test)]
mod tests;

pub use closing::close_all;
pub use limits::Limits;
pub use link::{Link, Transaction};
pub use session::Session;
