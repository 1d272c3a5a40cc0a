//! A disk in memory that fails at chosen calls.
ghost use Rattle.std.specs.Prelude.{◌≡◌, ◌↔◌, IfOk, OnOk, OnErr, IsTrue, Some, Err};
ghost use Rattle.std.specs.FinMap as map;
ghost use Rattle.agg_outside.specs.FileList.{files_of};
ghost use Rattle.agg_outside.specs.Files.{renamed, SameElsewhere};
ghost use Rattle.memory_side.specs.Memory.{CallCount, called, fails_next};
ghost use Rattle.memory_side.specs.MemoryDisks.{FailingDisk};

use crate::calls::Calls;
use agg_outside::{Bytes, Disk, DiskError, FileMap, Memory, Names};
use std::alloc::Global;
use std::marker::Model;

/// Holds its files in memory; the calls whose numbers it was made with answer `Failed`.
#[derive(Debug, Drop)]
pub struct MemDisk {
    files: FileMap,
    calls: Calls,
}

impl Model for MemDisk {
    ghost use Rattle.memory_side.specs.MemoryDisks.{FailingDisk};

    ghost Value = { FailingDisk };

    ghost view = { λ d. record { files = d.files; count = d.calls } };
}

impl MemDisk {
    /// A disk with a copy of these files. The calls whose numbers, counted from 1, stand in `fails`
    /// will fail.
    pub fn new(alloc: Global, start: &FileMap, fails: &[u64]) -> Result<MemDisk, Memory>
        ensures files { IfOk result (λ d. d.files ≡ start.now) }
        ensures count { IfOk result (λ d. d.count ≡ record { calls = 0; fails = fails.now; faults = 0 }) }
    {
        let files = start.copy(alloc)?;
        let calls = Calls::new(alloc, fails)?;
        Ok(MemDisk { files, calls })
    }

    /// The files by their names.
    pub fn files(&self) -> &FileMap
        ensures { result.now ≡ self.now.files }
    {
        &self.files
    }

    // Counts a call.
    fn begin(&mut self) -> Result<(), DiskError>
        ensures fails { (result ≡ Err DiskError.Failed) ↔ IsTrue (fails_next self.old.count) }
        ensures failed_only { OnErr result (result ≡ Err DiskError.Failed) }
        ensures counted { self.new.count ≡ called self.old.count }
        ensures files { self.new.files ≡ self.old.files }
    {
        if self.calls.begin().is_err() {
            return Err(DiskError::Failed);
        }
        Ok(())
    }
}

impl Disk for MemDisk {
    ghost faults = { λ d. d.count.faults };

    ghost files = { λ d. Some (files_of d.files) };

    fn list(&mut self, alloc: Global) -> Result<Names, DiskError>
        ensures fails { (result ≡ Err DiskError.Failed) ↔ IsTrue (fails_next self.old.count) }
        ensures counted { self.new.count ≡ called self.old.count }
        ensures names { IfOk result (λ names. names ≡ map.keys (files_of self.old.files)) }
        ensures files { self.new.files ≡ self.old.files }
    {
        self.begin()?;
        Ok(self.files.names(alloc)?)
    }

    fn read(&mut self, alloc: Global, name: &[u8]) -> Result<Bytes, DiskError>
        requires { IsTrue (map.contains_key (files_of self.old.files) name.now) }
        ensures fails { (result ≡ Err DiskError.Failed) ↔ IsTrue (fails_next self.old.count) }
        ensures counted { self.new.count ≡ called self.old.count }
        ensures bytes { IfOk result (λ bytes. map.get (files_of self.old.files) name.now ≡ Some bytes) }
        ensures files { self.new.files ≡ self.old.files }
    {
        self.begin()?;
        let Some(bytes) = self.files.find(name) else {
            unreachable!()
        };
        Ok(bytes.copy(alloc)?)
    }

    fn write_new(&mut self, alloc: Global, name: &[u8], bytes: &[u8]) -> Result<(), DiskError>
        ensures fails { (result ≡ Err DiskError.Failed) ↔ IsTrue (fails_next self.old.count) }
        ensures counted { self.new.count ≡ called self.old.count }
        ensures ok { OnOk result (files_of self.new.files ≡ map.insert (files_of self.old.files) name.now bytes.now) }
        ensures others { SameElsewhere name.now (files_of self.old.files) (files_of self.new.files) }
        ensures err { OnErr result (self.new.files ≡ self.old.files) }
    {
        self.begin()?;
        Ok(self.files.put(alloc, name, bytes)?)
    }

    fn rename(&mut self, alloc: Global, from: &[u8], to: &[u8]) -> Result<(), DiskError>
        requires { IsTrue (map.contains_key (files_of self.old.files) from.now) }
        ensures fails { (result ≡ Err DiskError.Failed) ↔ IsTrue (fails_next self.old.count) }
        ensures counted { self.new.count ≡ called self.old.count }
        ensures ok { OnOk result (files_of self.new.files ≡ renamed from.now to.now (files_of self.old.files)) }
        ensures err { OnErr result (self.new.files ≡ self.old.files) }
    {
        self.begin()?;
        Ok(self.files.rename(alloc, from, to)?)
    }

    fn remove(&mut self, _: Global, name: &[u8]) -> Result<(), DiskError>
        ensures fails { (result ≡ Err DiskError.Failed) ↔ IsTrue (fails_next self.old.count) }
        ensures counted { self.new.count ≡ called self.old.count }
        ensures ok { OnOk result (files_of self.new.files ≡ map.remove (files_of self.old.files) name.now) }
        ensures err { OnErr result (self.new.files ≡ self.old.files) }
    {
        self.begin()?;
        self.files.remove(name);
        Ok(())
    }
}
