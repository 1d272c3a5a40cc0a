/// Why bytes are no word file. They are looked at from the front, and the first fault is told: `Short`
/// of the header, then `Magic`, then `Short` of a word, and last `Count`.
#[derive(Clone, Copy, Debug, PartialEq, Eq)]
pub enum WordError {
    /// The header is cut off, and `at` is the file's length; or the word at the offset `at` ends past
    /// the file.
    Short { at: u64 },
    /// The first four bytes are not `AGW1`.
    Magic,
    /// The header says another number of words than follow it.
    Count { said: u64, found: u64 },
}
