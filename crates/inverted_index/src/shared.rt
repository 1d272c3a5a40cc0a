//! A file may go to another thread and be shared among threads; a type that couldn't would be refused here.

use crate::ef_file::EfFile;

fn is_shared<T: Send + Sync>(_value: &T) {}

/// An `.ef` file may be shared.
pub fn shares_ef_file(file: &EfFile) {
    is_shared(file);
}
