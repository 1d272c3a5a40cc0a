//! Words may go to another thread and be shared among threads; a type that couldn't would be refused here.

use crate::hashed::HashedWords;

fn is_shared<T: Send + Sync>(_value: &T) {}

/// Words behind their accessor may be shared.
pub fn shares_hashed_words(words: &HashedWords) {
    is_shared(words);
}
