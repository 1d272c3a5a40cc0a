/// What the header of a text says, and where the parts lie.
#[derive(Debug, Drop)]
pub struct Header {
    pub count: u64,
    pub last: u64,
    pub width: u32,
    /// Bits of the lower part, which begins behind the 16 bytes of the header.
    pub lower_len: u64,
    /// Bits of the upper part.
    pub upper_len: u64,
    /// The byte where the upper part begins.
    pub start: u64,
}
