//! A file may go to another thread and be shared among threads; a type that couldn't would be refused here.

use crate::v_file::VFile;

fn is_shared<T: Send + Sync>(_value: &T) {}

/// A `.v` file may be shared.
pub fn shares_v_file(file: &VFile) {
    is_shared(file);
}
