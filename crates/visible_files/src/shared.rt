//! Sets may go to another thread and be shared among threads where their groups may; a type that
//! couldn't would be refused here.

use crate::prepared::Prepared;
use crate::set::FileSet;
use crate::sets::FileSets;
use merge_ranges::Group;

fn is_shared<T: Send + Sync>(_value: &T) {}

/// A set, the sets, and a prepared set may be shared where the groups may.
pub fn shares_sets<G: Group + Send + Sync>(
    set: &FileSet<G>,
    sets: &FileSets<G>,
    next: &Prepared<G>,
) {
    is_shared(set);
    is_shared(sets);
    is_shared(next);
}
