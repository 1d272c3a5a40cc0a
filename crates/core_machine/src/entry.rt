use agg_model::Batch;
use agg_outside::{Bytes, Names};

/// What one turn did to the shared state. Of lists of names neither order nor repeats count.
#[derive(Debug, Drop)]
pub enum Entry {
    /// The changes were accepted.
    Ingest {
        caller: u32,
        batch: Batch,
    },
    /// The caller opened a row, and saw these names.
    Open {
        caller: u32,
        number: u64,
        names: Names,
    },
    /// The caller closed its row of this number.
    Close {
        caller: u32,
        number: u64,
    },
    /// The added files became visible in place of the replaced ones.
    Publish {
        caller: u32,
        added: Names,
        replaced: Names,
    },
    /// A publish failed: these names may stand on the disk.
    Stray {
        caller: u32,
        names: Names,
    },
    /// The file was removed.
    Sweep {
        caller: u32,
        name: Bytes,
    },
    /// The visible names were seen to be the canonical ones.
    Settled {
        caller: u32,
        names: Names,
    },
    /// Nothing that the machine knows of.
    Work {
        caller: u32,
    },
}
