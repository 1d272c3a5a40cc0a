//! The accepted changes, as versioned rows of a keeper and groups of files on a disk.
ghost use Rattle.std.specs.Prelude.{◌≡◌, [], ◌∷◌, ◌*◌, ◌+◌, ◌<◌, ◌≤◌, ◌^◌, ℕ, List, map, IfOk, IfErr, OnOk, OnErr, IsSomeAnd};
ghost use Rattle.std.specs.Option.{ForSome};
ghost use Rattle.agg_model.specs.ChangeList.{ChangeList};
ghost use Rattle.merge_ranges.specs.declared.name.FileName.{FileName};
ghost use Rattle.merge_ranges.specs.Name.{spelled};
ghost use Rattle.visible_files.specs.Held.{count_of, named_once};
ghost use Rattle.group_files.specs.NewFiles.{files_of_groups, new_names};
ghost use Rattle.state_store.specs.declared.view.View.{View};
ghost use Rattle.state_store.specs.Store.{IsStore, Holds, Resumes, Sees, HasView, Goes, ArePinned, HasNoFile, set_of, no_changes};

use crate::view::View;
use agg_outside::{Disk, Keeper, Memory, Names};
use collate_step::EntityFiles;
use group_files::group_names;
use hot_keeper::Hot;
use row_epochs::Rows;
use std::alloc::Global;
use visible_files::FileSets;

/// The epoch at which a store begins.
const FIRST_EPOCH: u64 = 1;

/// All accepted changes: their rows, the groups of complete steps, and what is counted beside them.
#[derive(Drop)]
pub struct Store<D: Disk, K: Keeper> {
    pub(crate) disk: D,
    pub(crate) hot: Hot<K>,
    // The groups of the first complete steps, and how often the files of each are pinned.
    pub(crate) sets: FileSets<EntityFiles>,
    // The number from which on the next changes come.
    pub(crate) next: u64,
    // The content of the list.
    pub(crate) content: u64,
    // How many numbers a step has.
    pub(crate) size: u64,
}

/// What a store could not be made of for want of memory.
#[derive(Drop)]
pub struct NotMade<D, K> {
    pub disk: D,
    pub keeper: K,
}

impl<D: Disk, K: Keeper> Store<D, K> {
    /// No changes and no group yet, at the first epoch, over an empty disk and an empty keeper; for want of memory
    /// these are given back.
    pub fn new(alloc: Global, disk: D, keeper: K, size: u64) -> Result<Store<D, K>, NotMade<D, K>>
        requires rows { ForSome (K.held keeper) (λ h. h.rows ≡ []) }
        ensures err { IfErr result (λ n. n ≡ record { disk = disk; keeper = keeper }) }
        ensures disk { IfOk result (λ s. s.disk ≡ disk) }
        ensures hot { IfOk result (λ s. s.hot ≡ record { told = K.held keeper; epoch = 1; faults = K.faults keeper }) }
        ensures numbers { IfOk result (λ s. (s.next ≡ 0) × (s.content ≡ 0) × (s.size ≡ size)) }
        ensures set { IfOk result (λ s. (s.sets.current.groups ≡ []) × (s.sets.current.end ≡ 0)) }
        ensures pins { IfOk result (λ s. (n : FileName) → count_of s.sets.held n ≡ 0) }
        ensures sound { (most : ℕ) → 1 ≤ size → size ≤ 2 ^ 32 → IfOk result (λ s. IsStore most s) }
        ensures holds { 1 ≤ size → size ≤ 2 ^ 32 → IsSomeAnd (K.held keeper) (λ h. (h.rows ≡ []) × (h.floor ≡ 0)) →
            ForSome (D.files disk) HasNoFile → IfOk result (λ s. Holds D.Disk s (no_changes size)) }
    {
        let sets = match FileSets::new(alloc, Vec::new(alloc), 0) {
            Ok(sets) => sets,
            Err(_) => return Err(NotMade { disk, keeper }),
        };
        let hot = Hot::of(Rows::of(keeper, FIRST_EPOCH));
        Ok(Store {
            disk,
            hot,
            sets,
            next: 0,
            content: 0,
            size,
        })
    }

    /// How many transaction numbers a step has.
    pub fn size(&self) -> u64
        ensures { result ≡ self.now.size }
    {
        self.size
    }

    /// The number from which on the next changes come.
    pub fn next(&self) -> u64
        ensures { result ≡ self.now.next }
    {
        self.next
    }

    /// What a transaction keeps that is opened now: it reads the changes below the next number, for as long as it
    /// is open, whatever is added or settled meanwhile. The files of its groups are pinned once more.
    pub fn open(&mut self) -> Result<View, Memory>
        ensures next { IfOk result (λ v. v.next ≡ self.old.next) }
        ensures epoch { IfOk result (λ v. v.epoch ≡ self.old.hot.epoch) }
        ensures set { IfOk result (λ v. set_of v ≡ self.old.sets.current) }
        ensures sees { (list : ChangeList) → Holds D.Disk self.old list →
            IfOk result (λ v. Sees self.new.hot self.new.size v list) }
        ensures pinned { (views : List View) → ArePinned self.old.sets.held views →
            IfOk result (λ v. ArePinned self.new.sets.held (v ∷ views)) }
        ensures counts { OnOk result ((n : FileName) →
            count_of self.new.sets.held n ≡ count_of self.old.sets.held n + named_once self.old.sets.current.ids n) }
        ensures has { (most : ℕ) → IsStore most self.old → IfOk result (λ v. HasView self.new v) }
        ensures unpinned { OnErr result (self.new.sets.held ≡ self.old.sets.held) }
        ensures current { self.new.sets.current ≡ self.old.sets.current }
        ensures others { self.new ≡ record self.old { sets = self.new.sets } }
        ensures sound { (most : ℕ) → IsStore most self.old → IsStore most self.new }
        ensures holds { (list : ChangeList) → Holds D.Disk self.old list → Holds D.Disk self.new list }
        ensures resumes { (list : ChangeList) → Resumes D.Disk self.old list → Resumes D.Disk self.new list }
        ensures goes { Goes D.Disk self.old self.new }
    {
        let set = self.sets.pin()?;
        Ok(View {
            next: self.next,
            epoch: self.hot.epoch(),
            set,
        })
    }

    /// The files of the view's groups are pinned once less; takes no memory.
    pub fn close(&mut self, view: View)
        requires { ArePinned self.old.sets.held (view ∷ []) }
        ensures pinned { (views : List View) → ArePinned self.old.sets.held (view ∷ views) →
            ArePinned self.new.sets.held views }
        ensures counts { (n : FileName) →
            count_of self.new.sets.held n + named_once (set_of view).ids n ≡ count_of self.old.sets.held n }
        ensures current { self.new.sets.current ≡ self.old.sets.current }
        ensures others { self.new ≡ record self.old { sets = self.new.sets } }
        ensures sound { (most : ℕ) → IsStore most self.old → IsStore most self.new }
        ensures holds { (list : ChangeList) → Holds D.Disk self.old list → Holds D.Disk self.new list }
        ensures resumes { (list : ChangeList) → Resumes D.Disk self.old list → Resumes D.Disk self.new list }
        ensures goes { Goes D.Disk self.old self.new }
    {
        let View { set, .. } = view;
        self.sets.unpin(set);
    }

    /// The names of the files of the current set, in the order of its groups.
    pub fn names(&self, alloc: Global) -> Result<Names, Memory>
        ensures { IfOk result
            (λ names. names ≡ map spelled (new_names (files_of_groups self.now.sets.current.groups))) }
    {
        group_names(alloc, self.sets.current().groups())
    }

    /// The disk and the keeper, as they are left.
    pub fn into_parts(self) -> (D, K)
        ensures disk { result.0 ≡ self.disk }
        ensures told { K.held result.1 ≡ self.hot.told }
        ensures faults { K.faults result.1 ≡ self.hot.faults }
    {
        let Store { disk, hot, .. } = self;
        (disk, hot.into_rows().into_keeper())
    }
}
