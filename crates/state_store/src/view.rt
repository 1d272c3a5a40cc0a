ghost use Rattle.std.specs.Prelude.{◌≡◌};

use collate_step::EntityFiles;
use std::sync::Arc;
use visible_files::FileSet;

/// What an open transaction keeps of the store: the groups that it reads, and the epoch at which it reads rows
/// from their end on and below a number. It is to be closed, else its groups stay pinned.
#[derive(Drop)]
pub struct View {
    pub(crate) next: u64,
    pub(crate) epoch: u64,
    pub(crate) set: Arc<FileSet<EntityFiles>>,
}

impl View {
    /// The next transaction number at its opening: it reads the changes below.
    pub fn next(&self) -> u64
        ensures { result ≡ self.now.next }
    {
        self.next
    }
}
