use crate::held::{
    HeldGroup, all_visible, drop_first, first_unpinned_name, is_full, pin_held, switch, unpin_held,
};
use crate::prepared::Prepared;
use crate::set::{FileSet, arranged, replacing};
use crate::strays::{first_loose, forget, note};
use agg_outside::Memory;
use merge_ranges::{DiskName, Group};
use std::alloc::Global;
use std::marker::Model;
use std::sync::Arc;

/// The current set of visible groups, how often each file is pinned, and the names that are to be
/// removed.
#[derive(Drop)]
pub struct FileSets<G: Group> {
    current: Arc<FileSet<G>>,
    held: Vec<HeldGroup>,
    strays: Vec<DiskName>,
}

impl<G: Group> Model for FileSets<G> {
    ghost use Rattle.std.specs.Prelude.{◌*◌, ◌-◌, min, vec_len, vec_capacity};
    ghost use Rattle.std.specs.Arc.{arc_value};
    ghost use Rattle.visible_files.specs.Sets.{SetsOf, AreSets};

    ghost Value = { SetsOf G };

    ghost view = { λ s. record {
      current = arc_value s.current;
      held = s.held.items;
      strays = s.strays.items;
      spare = min (7 * (vec_capacity s.held - vec_len s.held)) (vec_capacity s.strays - vec_len s.strays);
    } };

    ghost invariant = { λ s. AreSets G.entity_of G.range_of (arc_value s.current) s.held.items s.strays.items };
}

impl<G: Group + Drop> FileSets<G> {
    ghost use Rattle.std.specs.Prelude.{◌≡◌, ◌≤◌, ◌<◌, ◌+◌, ◌*◌, ◌^◌, ◌||◌, ◌&&◌, ℕ, IfOk, OnErr, OnOk, IfSome, IfNone, IsTrue, All, map, filter, not, true, false, length, [], Some};
    ghost use Rattle.std.specs.Arc.{arc_value};
    ghost use Rattle.merge_ranges.specs.declared.name.FileName.{FileName};
    ghost use Rattle.merge_ranges.specs.declared.name.DiskName.{DiskName};
    ghost use Rattle.visible_files.specs.Ids.{AreCuts, ExtendsOrMerges, id_with, in_order, replaced_by, is_covered, added_ids, gone_ids};
    ghost use Rattle.visible_files.specs.Held.{count_of, named_once, is_named, is_retired, retired_names, unpinned};
    ghost use Rattle.visible_files.specs.Strays.{is_stray, same_disk_name};
    ghost use Rattle.visible_files.specs.Sets.{IsFileSet, first_to_drop, is_loose, is_noted};

    /// The current set.
    pub fn current(&self) -> &FileSet<G>
        ensures { result.now ≡ self.now.current }
    {
        &self.current
    }

    /// The current set; no count changes.
    pub fn share(&self) -> Result<Arc<FileSet<G>>, Memory>
        ensures { IfOk result (λ set. arc_value set ≡ self.now.current) }
    {
        Ok(Arc::try_clone(&self.current)?)
    }

    /// The current set, each of whose files is then pinned once more.
    pub fn pin(&mut self) -> Result<Arc<FileSet<G>>, Memory>
        ensures set { IfOk result (λ set. arc_value set ≡ self.old.current) }
        ensures counts { OnOk result ((n : FileName) →
            count_of self.new.held n ≡ count_of self.old.held n + named_once self.old.current.ids n) }
        ensures current { self.new.current ≡ self.old.current }
        ensures others { unpinned self.new.held ≡ unpinned self.old.held }
        ensures retired { retired_names self.new.held ≡ retired_names self.old.held }
        ensures strays { self.new.strays ≡ self.old.strays }
        ensures spare { self.old.spare ≤ self.new.spare }
        ensures err { OnErr result (self.new.held ≡ self.old.held) }
    {
        if is_full(&self.held) {
            return Err(Memory);
        }
        let set = Arc::try_clone(&self.current)?;
        pin_held(&mut self.held);
        Ok(set)
    }

    /// Each file of the set is pinned once less; takes no memory.
    pub fn unpin(&mut self, set: Arc<FileSet<G>>)
        requires { (n : FileName) → is_named (arc_value set).ids n ≡ true → 1 ≤ count_of self.old.held n }
        ensures counts { (n : FileName) →
            count_of self.new.held n + named_once (arc_value set).ids n ≡ count_of self.old.held n }
        ensures current { self.new.current ≡ self.old.current }
        ensures others { unpinned self.new.held ≡ unpinned self.old.held }
        ensures retired { retired_names self.new.held ≡ retired_names self.old.held }
        ensures strays { self.new.strays ≡ self.old.strays }
        ensures spare { self.old.spare ≤ self.new.spare }
    {
        unpin_held(&mut self.held, set.ids());
    }

    /// These groups as the current set, with no pins, nothing retired and no strays. The ranges of
    /// each entity end at `end`.
    pub fn new(alloc: Global, set: Vec<Arc<G>>, end: u64) -> Result<FileSets<G>, Memory>
        requires { AreCuts (map (id_with G.entity_of G.range_of)
            (in_order (id_with G.entity_of G.range_of) (map (λ g. arc_value g) set.items))) end }
        ensures groups { IfOk result (λ sets. sets.current.groups
            ≡ in_order (id_with G.entity_of G.range_of) (map (λ g. arc_value g) set.items)) }
        ensures end { IfOk result (λ sets. sets.current.end ≡ end) }
        ensures set { IfOk result (λ sets. IsFileSet G.entity_of G.range_of
            sets.current.groups sets.current.ids sets.current.end) }
        ensures counts { IfOk result (λ sets. (n : FileName) → count_of sets.held n ≡ 0) }
        ensures retired { IfOk result (λ sets. retired_names sets.held ≡ []) }
        ensures strays { IfOk result (λ sets. sets.strays ≡ []) }
    {
        let _end = end;
        let set = arranged(alloc, set)?;
        let held = all_visible(alloc, set.ids())?;
        let current = Arc::new(alloc, set)?;
        Ok(FileSets {
            current,
            held,
            strays: Vec::new(alloc),
        })
    }

    /// Makes room for 14 names for each of so many groups.
    pub fn reserve(&mut self, groups: usize) -> Result<(), Memory>
        requires { groups < 2 ^ 32 }
        ensures ok { OnOk result (14 * groups ≤ self.new.spare) }
        ensures current { self.new.current ≡ self.old.current }
        ensures held { self.new.held ≡ self.old.held }
        ensures strays { self.new.strays ≡ self.old.strays }
        ensures spare { self.old.spare ≤ self.new.spare }
    {
        self.held.reserve(2 * groups)?;
        self.strays.reserve(14 * groups)?;
        Ok(())
    }

    /// The set in which the added groups have replaced those of the current set that they cover.
    pub fn prepare(&self, alloc: Global, added: Vec<Arc<G>>) -> Result<Prepared<G>, Memory>
        requires each { All (ExtendsOrMerges self.now.current.ids)
            (map (id_with G.entity_of G.range_of) (map (λ g. arc_value g) added.items)) }
        requires cuts { (end : ℕ) × AreCuts (map (id_with G.entity_of G.range_of)
            (replaced_by (id_with G.entity_of G.range_of) self.now.current.groups
            (map (λ g. arc_value g) added.items))) end }
        ensures before { IfOk result (λ next. next.before ≡ self.now.current.groups) }
        ensures groups { IfOk result (λ next. next.set.groups
            ≡ replaced_by (id_with G.entity_of G.range_of) self.now.current.groups
            (map (λ g. arc_value g) added.items)) }
        ensures set { IfOk result (λ next. IsFileSet G.entity_of G.range_of next.set.groups next.set.ids next.set.end) }
        ensures end { IfOk result (λ next. (end : ℕ) →
            AreCuts (map (id_with G.entity_of G.range_of) next.set.groups) end →
            next.set.end ≡ end) }
        // None of the added groups was there.
        ensures added { IfOk result (λ next. added_ids self.now.current.ids next.set.ids
            ≡ map (id_with G.entity_of G.range_of)
            (in_order (id_with G.entity_of G.range_of) (map (λ g. arc_value g) added.items))) }
        ensures added_count { IfOk result (λ next.
            length (added_ids self.now.current.ids next.set.ids) ≡ length added.items) }
        ensures replaced { IfOk result (λ next. gone_ids self.now.current.ids next.set.ids
            ≡ filter (is_covered (map (id_with G.entity_of G.range_of) (map (λ g. arc_value g) added.items)))
            self.now.current.ids) }
    {
        let set = replacing(alloc, &self.current, added)?;
        let set = Arc::new(alloc, set)?;
        let before = Arc::try_clone(&self.current)?;
        Ok(Prepared { before, set })
    }

    /// The prepared set is the current one from then on, and the names of the groups that it lacks
    /// are retired; takes no memory.
    pub fn publish(&mut self, next: Prepared<G>)
        requires made { next.before ≡ self.old.current.groups }
        requires room { 7 * (length (added_ids self.old.current.ids next.set.ids)
            + length (gone_ids self.old.current.ids next.set.ids)) ≤ self.old.spare }
        ensures current { self.new.current ≡ next.set }
        ensures counts { (n : FileName) → count_of self.new.held n ≡ count_of self.old.held n }
        ensures retired { (n : FileName) → is_retired self.new.held n
            ≡ (is_retired self.old.held n || is_named (gone_ids self.old.current.ids next.set.ids) n) }
        ensures strays { self.new.strays ≡ self.old.strays }
        ensures spare { self.old.spare ≤ self.new.spare + 7 * (length (added_ids self.old.current.ids next.set.ids)
            + length (gone_ids self.old.current.ids next.set.ids)) }
    {
        let Prepared { before, set } = next;
        switch(&mut self.held, before.ids(), set.ids());
        self.current = set;
    }

    /// Notes a name on the disk that isn't visible; takes no memory.
    pub fn stray(&mut self, name: DiskName)
        requires { 1 ≤ self.old.spare }
        ensures noted { (d : DiskName) → is_stray self.new.strays d
            ≡ (is_stray self.old.strays d || same_disk_name name d) }
        ensures current { self.new.current ≡ self.old.current }
        ensures held { self.new.held ≡ self.old.held }
        ensures spare { self.old.spare ≤ self.new.spare + 1 }
    {
        note(&mut self.strays, name);
    }

    /// The first retired name that isn't pinned, or else the first stray that is neither visible
    /// nor pinned.
    pub fn retired(&self) -> Option<DiskName>
        ensures first { result ≡ first_to_drop self.now.current.ids self.now.held self.now.strays }
        ensures noted { IfSome result (λ d. IsTrue (is_noted self.now.held self.now.strays d)) }
        ensures unseen { IfSome result (λ d. IsTrue (is_loose self.now.current.ids self.now.held d)) }
        ensures none { IfNone result ((d : DiskName) → is_noted self.now.held self.now.strays d ≡ true →
            is_loose self.now.current.ids self.now.held d ≡ false) }
    {
        match first_unpinned_name(&self.held) {
            Some(name) => Some(DiskName { name, temp: false }),
            None => first_loose(&self.strays, &self.held),
        }
    }

    /// Takes every note of the name away.
    pub fn drop_file(&mut self, name: DiskName)
        requires { first_to_drop self.old.current.ids self.old.held self.old.strays ≡ Some name }
        ensures noted { (d : DiskName) → is_noted self.new.held self.new.strays d
            ≡ (is_noted self.old.held self.old.strays d && not (same_disk_name name d)) }
        ensures retired { (n : FileName) → is_retired self.new.held n
            ≡ (is_retired self.old.held n && not (same_disk_name name (record { name = n; temp = false }))) }
        ensures strays { (d : DiskName) → is_stray self.new.strays d
            ≡ (is_stray self.old.strays d && not (same_disk_name name d)) }
        ensures counts { (n : FileName) → count_of self.new.held n ≡ count_of self.old.held n }
        ensures current { self.new.current ≡ self.old.current }
        ensures spare { self.old.spare ≤ self.new.spare }
    {
        drop_first(&mut self.held);
        forget(&mut self.strays, name);
    }
}
