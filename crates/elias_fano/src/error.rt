/// Why bytes are no text of a list: the first of these in this order.
#[derive(Clone, Copy, Debug, PartialEq, Eq)]
pub enum EfError {
    /// The bytes end within the header, or before the end that the header asks; `at` is their length.
    Short { at: u64 },
    /// The header says that there are no items.
    Zero,
    /// Bytes stand behind the end that the header asks, which is `at`.
    Extra { at: u64 },
    /// A bit outside the two parts is set; `bit` is its place in the whole text.
    Unused { bit: u64 },
    /// The header says so many items, and the upper part has so many ones.
    Count { said: u64, found: u64 },
    /// The item at this place is below the one before.
    Descends { item: u64 },
    /// The header names this last item, and the items end with another.
    Last { said: u64, found: u64 },
}
