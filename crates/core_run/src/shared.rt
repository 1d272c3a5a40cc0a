//! Entries and machines may go to another thread and be shared among threads; a type that couldn't would be refused
//! here.

use crate::error::CoreError;
use core_machine::{Entry, Machine};

fn is_shared<T: Send + Sync>(_value: &T) {}

/// Entries, machines and errors may be shared.
pub fn shares_core(entry: &Entry, machine: &Machine, error: &CoreError) {
    is_shared(entry);
    is_shared(machine);
    is_shared(error);
}
