//! Hot rows may go to another thread with their keeper. A type that couldn't would be refused here.

use crate::hot::Hot;
use agg_outside::Keeper;

fn is_sent<T: Send>(_value: &T) {}

/// Hot rows may go to another thread.
pub fn sends_hot<K: Keeper + Send>(hot: Hot<K>) {
    is_sent(&hot);
}
