//! An accessor may go to another thread and be shared among threads; a type that couldn't would be refused here.

use crate::file::BTreeFile;

fn is_shared<T: Send + Sync>(_value: &T) {}

/// A B-tree accessor may be shared.
pub fn shares_btree(index: &BTreeFile) {
    is_shared(index);
}
