//! A table may go to another thread. A type that couldn't would be refused here.

use crate::sql_table::SqlTable;

fn is_sent<T: Send>(_value: &T) {}

/// A table may go to another thread, file and all.
pub fn sends_table(table: &SqlTable<'_>) {
    is_sent(table);
}
