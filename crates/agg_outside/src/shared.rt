//! Whatever holds these types may go to another thread and be shared among threads. A type that couldn't
//! would be refused here.

use crate::bytes::Bytes;
use crate::file_map::{FileEntry, FileMap};
use crate::list::ListOf;
use crate::rows::{KeeperStart, Row, RowId, RowWrite};
use crate::steps::Steps;
use std::sync::ledger::Ledger;

fn is_shared<T: Send + Sync>(_value: &T) {}

fn is_sent<T: Send>(_value: &T) {}

/// A text may be shared.
pub fn shares_bytes(bytes: &Bytes) {
    is_shared(bytes);
}

/// A list may be shared where its items may.
pub fn shares_list<T: Send + Sync>(list: &ListOf<T>) {
    is_shared(list);
}

/// Rows and what is written to them may be shared.
pub fn shares_rows(id: &RowId, row: &Row, write: &RowWrite, start: &KeeperStart) {
    is_shared(id);
    is_shared(row);
    is_shared(write);
    is_shared(start);
}

/// Files may be shared.
pub fn shares_files(file: &FileEntry, files: &FileMap) {
    is_shared(file);
    is_shared(files);
}

/// A count of words read may go to another thread.
pub fn sends_steps<L: Ledger>(steps: Steps<L>) {
    is_sent(&steps);
}
