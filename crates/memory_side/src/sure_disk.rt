//! A disk in memory.
ghost use Rattle.std.specs.Prelude.{◌≡◌, IfOk, OnOk, OnErr, IsOk, IsTrue, Some, Err};
ghost use Rattle.std.specs.FinMap as map;
ghost use Rattle.agg_outside.specs.Files.{renamed, SameElsewhere};
ghost use Rattle.agg_outside.specs.FileList.{files_of};

use agg_outside::{Bytes, Disk, DiskError, FileMap, Memory, Names};
use std::alloc::Global;
use std::marker::Model;

/// Holds its files in memory, and never fails.
#[derive(Debug, Drop)]
pub struct SureDisk {
    files: FileMap,
}

impl Model for SureDisk {
    ghost use Rattle.memory_side.specs.MemoryDisks.{SureFiles};

    ghost Value = { SureFiles };

    ghost view = { λ d. record { files = d.files } };
}

impl SureDisk {
    /// A disk with a copy of these files.
    pub fn new(alloc: Global, start: &FileMap) -> Result<SureDisk, Memory>
        ensures { IfOk result (λ d. d.files ≡ start.now) }
    {
        let files = start.copy(alloc)?;
        Ok(SureDisk { files })
    }

    /// The files by their names.
    pub fn files(&self) -> &FileMap
        ensures { result.now ≡ self.now.files }
    {
        &self.files
    }
}

impl Disk for SureDisk {
    ghost faults = { λ _. 0 };

    ghost files = { λ d. Some (files_of d.files) };

    fn list(&mut self, alloc: Global) -> Result<Names, DiskError>
        ensures names { IfOk result (λ names. names ≡ map.keys (files_of self.old.files)) }
        ensures files { self.new.files ≡ self.old.files }
        ensures memory_only { OnErr result (result ≡ Err DiskError.Memory) }
    {
        Ok(self.files.names(alloc)?)
    }

    fn read(&mut self, alloc: Global, name: &[u8]) -> Result<Bytes, DiskError>
        requires { IsTrue (map.contains_key (files_of self.old.files) name.now) }
        ensures bytes { IfOk result (λ bytes. map.get (files_of self.old.files) name.now ≡ Some bytes) }
        ensures files { self.new.files ≡ self.old.files }
        ensures memory_only { OnErr result (result ≡ Err DiskError.Memory) }
    {
        let Some(bytes) = self.files.find(name) else {
            unreachable!()
        };
        Ok(bytes.copy(alloc)?)
    }

    fn write_new(&mut self, alloc: Global, name: &[u8], bytes: &[u8]) -> Result<(), DiskError>
        ensures ok { OnOk result (files_of self.new.files ≡ map.insert (files_of self.old.files) name.now bytes.now) }
        ensures others { SameElsewhere name.now (files_of self.old.files) (files_of self.new.files) }
        ensures err { OnErr result (self.new.files ≡ self.old.files) }
        ensures memory_only { OnErr result (result ≡ Err DiskError.Memory) }
    {
        Ok(self.files.put(alloc, name, bytes)?)
    }

    fn rename(&mut self, alloc: Global, from: &[u8], to: &[u8]) -> Result<(), DiskError>
        requires { IsTrue (map.contains_key (files_of self.old.files) from.now) }
        ensures ok { OnOk result (files_of self.new.files ≡ renamed from.now to.now (files_of self.old.files)) }
        ensures err { OnErr result (self.new.files ≡ self.old.files) }
        ensures memory_only { OnErr result (result ≡ Err DiskError.Memory) }
    {
        Ok(self.files.rename(alloc, from, to)?)
    }

    fn remove(&mut self, _: Global, name: &[u8]) -> Result<(), DiskError>
        ensures ok { IsOk result }
        ensures files { files_of self.new.files ≡ map.remove (files_of self.old.files) name.now }
    {
        self.files.remove(name);
        Ok(())
    }
}
