//! The changes that one epoch sees of hot rows, from a step on, as a window for reads.
#![tactic(auto)]

mod window;

pub use window::EpochWindow;
