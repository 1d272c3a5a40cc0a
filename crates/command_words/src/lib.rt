//! The words after the program's name.
#![tactic(auto)]

mod words;

pub use words::{Command, WordsError, read_words};
