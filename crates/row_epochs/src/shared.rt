//! Rows may go to another thread with their keeper. A type that couldn't would be refused here.

use crate::rows::Rows;
use agg_outside::Keeper;

fn is_sent<T: Send>(_value: &T) {}

/// Rows may go to another thread.
pub fn sends_rows<K: Keeper + Send>(rows: Rows<K>) {
    is_sent(&rows);
}
