//! An accessor may go to another thread and be shared among threads; a type that couldn't would be
//! refused here.

use crate::file::HashIndex;

fn is_shared<T: Send + Sync>(_value: &T) {}

/// A hash accessor may be shared.
pub fn shares_hash_index(index: &HashIndex) {
    is_shared(index);
}
