//! A file may go to another thread and be shared among threads; a type that couldn't would be refused here.

use crate::file::WordFile;
use crate::writer::WordWriter;

fn is_shared<T: Send + Sync>(_value: &T) {}

/// A word file and its writer may be shared.
pub fn shares_words(file: &WordFile, writer: &WordWriter) {
    is_shared(file);
    is_shared(writer);
}
