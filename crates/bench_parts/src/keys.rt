//! What all measured files are of.
use word_file::Tag;

/// What the measured files are of: nothing that is looked at.
pub(crate) const TAG: Tag = Tag {
    entity: 0,
    kind: 0,
    version: 1,
    step: 1,
    from: 0,
    to: 1,
};
