//! Whatever holds these types may go to another thread. A type that couldn't would be refused here.

use crate::dir_disk::DirDisk;
use crate::sql_keeper::SqlKeeper;

fn is_sent<T: Send>(_value: &T) {}

/// A folder may go to another thread where its runtime may be shared.
pub fn sends_disk<R: Sync>(disk: &DirDisk<'_, R>) {
    is_sent(disk);
}

/// A keeper may where its table may.
pub fn sends_keeper<T: Send>(keeper: &SqlKeeper<T>) {
    is_sent(keeper);
}
