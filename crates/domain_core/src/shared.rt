//! A file may go to another thread and be shared among threads; a type that couldn't would be refused here.

use crate::kv_file::KvFile;

fn is_shared<T: Send + Sync>(_value: &T) {}

/// A `.kv` file may be shared.
pub fn shares_kv_file(file: &KvFile) {
    is_shared(file);
}
