//! The accepted changes of a session: versioned rows in a keeper, sets of groups, and their files on a disk.
#![tactic(auto)]

mod accepting;
mod laws;
mod looking;
mod reading;
mod settling;
mod steps;
mod stop;
mod store;
mod view;

pub use accepting::Accepted;
pub use laws::store_laws;
pub use stop::Stop;
pub use store::{NotMade, Store};
pub use view::View;

#[cfg(test)]
mod tests;
