use agg_outside::{Bytes, ListOf};

/// One row of a listed read: a key and its value, `None` where it has none.
#[derive(Debug, Drop, PartialEq, Eq)]
pub struct PageRow {
    pub key: Bytes,
    pub value: Option<Bytes>,
}

/// The rows of a page, keys ascending.
pub type PageRows = ListOf<PageRow>;
