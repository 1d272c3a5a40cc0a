/// What a word file says of itself: the entity that it is of, the kind of its contents and their
/// version, the step size, and its first step and the step after its last. Only whoever reads the
/// words gives these a meaning.
#[derive(Clone, Copy, Debug, PartialEq, Eq)]
pub struct Tag {
    pub entity: u8,
    pub kind: u8,
    pub version: u16,
    pub step: u64,
    pub from: u64,
    pub to: u64,
}
