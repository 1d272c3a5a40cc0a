//! Groups may go to another thread and be shared among threads; a type that couldn't would be refused here.

use crate::entity_files::EntityFiles;
use crate::step::{Groups, Inputs};

fn is_shared<T: Send + Sync>(_value: &T) {}

/// A group may be shared, and so may lists of them.
pub fn shares_groups(group: &EntityFiles, groups: &Groups, inputs: &Inputs) {
    is_shared(group);
    is_shared(groups);
    is_shared(inputs);
}
