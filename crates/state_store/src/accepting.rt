//! A batch that is added to the accepted changes.
ghost use Rattle.std.specs.Prelude.{◌≡◌, ◌*◌, ◌<◌, ◌≤◌, ◌^◌, All, ◌+◌, None, IfOk, IfNone, IfErr, OnErr, IsErrOf};
ghost use Rattle.agg_model.specs.Batch.{content_of, IsBatch};
ghost use Rattle.agg_model.specs.ChangeList.{ChangeList, next_of, begins_from};
ghost use Rattle.state_store.specs.Store.{IsStore, Holds, Resumes, Commits, Goes, HasCauses};

use crate::stop::Stop;
use crate::store::Store;
use agg_model::{Batch, content, merge_repeats};
use agg_outside::{Disk, Keeper};
use std::alloc::Global;

/// What a commit did.
#[derive(Clone, Copy, Debug, PartialEq, Eq)]
pub struct Accepted {
    /// How many changes were added.
    pub changes: u64,
    /// The next transaction number.
    pub next: u64,
}

impl<D: Disk, K: Keeper> Store<D, K> {
    /// Adds the pending changes, of repeats the last, at the epoch above the present one; none where they are
    /// refused: where there is none, where the first is below the next number, or where the content would be above
    /// `most`. After an error nothing is added.
    pub fn accept(
        &mut self,
        alloc: Global,
        most: u64,
        pending: Batch,
    ) -> Result<Option<Accepted>, Stop>
        requires sound { IsStore most self.old }
        requires limit { most ≤ 2 ^ 28 }
        requires batch { IsBatch 0 (4096 * self.old.size) pending }
        requires raw { content_of pending ≤ most }
        ensures sound { IsStore most self.new }
        ensures others { self.new
            ≡ record self.old { hot = self.new.hot; next = self.new.next; content = self.new.content } }
        ensures commits { (list : ChangeList) → Holds D.Disk self.old list →
            IfOk result (λ answer. Commits (Holds D.Disk self.new) most list pending answer) }
        // What faults have left of a step is then of the grown list.
        ensures resumes { (list : ChangeList) → Resumes D.Disk self.old list →
            IfOk result (λ answer. Commits (Resumes D.Disk self.new) most list pending answer) }
        // A batch that is refused leaves everything as it was.
        ensures refused { IfOk result (λ answer. IfNone answer (self.new ≡ self.old)) }
        ensures only { IfErr result (λ stop. stop ≡ Stop.Disk → ⊥) }
        // At the last epoch nothing is added.
        ensures rises { self.old.hot.epoch ≡ 2 ^ 62 → IfOk result (λ answer. answer ≡ None) }
        // And that is the only way for the epoch to be worn.
        ensures worn { IsErrOf result Stop.Worn → self.old.hot.epoch ≡ 2 ^ 62 }
        ensures epoch { self.new.hot.epoch ≤ self.old.hot.epoch + 1 }
        ensures holds { (list : ChangeList) → Holds D.Disk self.old list → OnErr result (Holds D.Disk self.new list) }
        ensures still_resumes { (list : ChangeList) → Resumes D.Disk self.old list →
            OnErr result (Resumes D.Disk self.new list) }
        ensures err { OnErr result (self.new
            ≡ record self.old { hot = record self.old.hot { faults = self.new.hot.faults } }) }
        ensures goes { Goes D.Disk self.old self.new }
        ensures causes { HasCauses D.Disk self.old self.new result }
    {
        if !begins_from(self.next, &pending) {
            return Ok(None);
        }
        let batch = merge_repeats(alloc, pending)?;
        let more = content(&batch);
        if self.content + more > most {
            return Ok(None);
        }
        let changes = batch.len() as u64;
        let next = next_of(self.next, &batch);
        self.hot.ingest(alloc, &batch)?;
        self.next = next;
        self.content += more;
        Ok(Some(Accepted { changes, next }))
    }
}

// There is a first change, and its number isn't below the next one.
fn begins_from(next: u64, changes: &Batch) -> bool
    ensures { result ≡ begins_from next changes.now }
{
    match changes.get(0) {
        Some(first) => next <= first.tx,
        None => false,
    }
}

// One above the number of the last change; `next` where there is none.
fn next_of(next: u64, changes: &Batch) -> u64
    requires { All (λ c. c.tx < 2 ^ 63) changes.now }
    ensures { result ≡ next_of next changes.now }
{
    match changes.as_slice().last() {
        Some(last) => last.tx + 1,
        None => next,
    }
}
