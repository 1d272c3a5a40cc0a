ghost use Rattle.std.specs.Prelude.{◌≡◌};

/// What a session takes at most.
#[derive(Clone, Copy, Debug, PartialEq, Eq)]
pub struct Limits {
    /// Bytes of a line, without its line feed.
    pub line: u64,
    /// Open transactions of a link.
    pub opens: u64,
    /// Content of the list, and raw content of the pending changes of a link.
    pub content: u64,
    /// Bytes taken from a source.
    pub bytes: u64,
}

impl Limits {
    /// The limits of the program.
    pub fn usual() -> Limits
        ensures { result ≡ record { line = 262144; opens = 64; content = 268435456; bytes = 1099511627776 } }
    {
        Limits {
            line: 262_144,
            opens: 64,
            content: 1 << 28,
            bytes: 1 << 40,
        }
    }
}
