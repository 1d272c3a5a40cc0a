//! The pure machine behind the shared state: entries, when each is possible, and what they lead to.
#![tactic(auto)]

mod entry;
mod laws;
mod machine;

pub use entry::Entry;
pub use laws::{form_laws, history_laws, replay_laws, sound_laws, visible_laws};
pub use machine::{Machine, OpenRows, Opening};
