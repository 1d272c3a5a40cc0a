ghost use Rattle.std.specs.Prelude.{◌≡◌, [], ◌∷◌, ◌++◌, ◌<◌, ◌≤◌, length, map, slice_get, IfOk, OnOk, OnErr, OnSome, IsTrue, MatchResult, vec_len, vec_capacity};
ghost use Rattle.std.specs.Option.{option_copied};
ghost use Rattle.std.specs.FinMap as finite;
ghost use Rattle.agg_outside.specs.Files.{renamed};
ghost use Rattle.agg_outside.specs.FileList.{names_ascend, is_above_last, files_of};
ghost use Rattle.agg_outside.specs.FilePlaces.{IsNamedAt, IsGapFor};

use crate::bytes::Bytes;
use crate::errors::Memory;
use crate::list::Names;
use std::alloc::Global;
use std::marker::Model;

/// A file and its name.
#[derive(Debug, Drop)]
pub struct FileEntry {
    pub name: Bytes,
    pub bytes: Bytes,
}

/// Files in the order of their names, which ascend strictly.
#[derive(Debug, Drop)]
pub struct FileMap {
    entries: Vec<FileEntry>,
}

impl Model for FileMap {
    ghost use Rattle.std.specs.Prelude.{List, IsTrue};
    ghost use Rattle.agg_outside.specs.declared.file_map.FileEntry.{FileEntry};

    ghost Value = { List FileEntry };

    ghost use Rattle.agg_outside.specs.FileList.{names_ascend};

    ghost view = { λ m. m.entries.items };

    ghost invariant = { λ m. IsTrue (names_ascend m.entries.items) };
}

impl FileMap {
    /// No files yet; takes no memory.
    pub fn new(alloc: Global) -> FileMap
        ensures { result ≡ [] }
    {
        FileMap {
            entries: Vec::new(alloc),
        }
    }

    /// Adds the file at the end; after want of memory it is dropped and the list is as before.
    pub fn push(&mut self, entry: FileEntry) -> Result<(), Memory>
        requires { IsTrue (is_above_last entry.name self.old) }
        ensures ok { OnOk result (self.new ≡ self.old ++ entry ∷ []) }
        ensures err { OnErr result (self.new ≡ self.old) }
    {
        self.entries.push(entry)?;
        Ok(())
    }

    pub fn len(&self) -> usize
        ensures count { result ≡ length self.now }
        ensures ascending { IsTrue (names_ascend self.now) }
    {
        self.entries.len()
    }

    pub fn get(&self, i: usize) -> Option<&FileEntry>
        ensures value { option_copied result ≡ slice_get self.now i }
        ensures within { OnSome result (i < length self.now) }
    {
        self.entries.get(i)
    }

    pub fn as_slice(&self) -> &[FileEntry]
        ensures value { result.now ≡ self.now }
        ensures ascending { IsTrue (names_ascend self.now) }
    {
        self.entries.as_slice()
    }

    /// The files in order, without a copy.
    pub fn into_vec(self) -> Vec<FileEntry>
        ensures value { result.items ≡ self }
        ensures ascending { IsTrue (names_ascend self) }
    {
        let FileMap { entries } = self;
        entries
    }

    /// A copy of the files.
    pub fn copy(&self, alloc: Global) -> Result<FileMap, Memory>
        ensures { IfOk result (λ copy. copy ≡ self.now) }
    {
        let entries = copy_entries(alloc, self.entries.as_slice())?;
        Ok(FileMap { entries })
    }

    /// All names, ascending.
    pub fn names(&self, alloc: Global) -> Result<Names, Memory>
        ensures { IfOk result (λ names. names ≡ finite.keys (files_of self.now)) }
    {
        copy_names(alloc, self.entries.as_slice())
    }

    /// The bytes of the file with this name, if there is one.
    pub fn find(&self, name: &[u8]) -> Option<&Bytes>
        ensures { option_copied result ≡ finite.get (files_of self.now) name.now }
    {
        match search(self.entries.as_slice(), name) {
            Ok(place) => Some(&self.entries[place].bytes),
            Err(_) => None,
        }
    }

    /// The file with this name then has these bytes; after want of memory nothing changed.
    pub fn put(&mut self, alloc: Global, name: &[u8], bytes: &[u8]) -> Result<(), Memory>
        ensures ok { OnOk result (files_of self.new ≡ finite.insert (files_of self.old) name.now bytes.now) }
        ensures err { OnErr result (self.new ≡ self.old) }
    {
        let name = Bytes::of(alloc, name)?;
        let bytes = Bytes::of(alloc, bytes)?;
        self.entries.reserve(1)?;
        put_entry(&mut self.entries, name, bytes);
        Ok(())
    }

    /// The name is absent then.
    pub fn remove(&mut self, name: &[u8])
        ensures { files_of self.new ≡ finite.remove (files_of self.old) name.now }
    {
        let _bytes = take_entry(&mut self.entries, name);
    }

    /// Moves a file over a name that may be taken; after want of memory nothing changed.
    pub fn rename(&mut self, alloc: Global, from: &[u8], to: &[u8]) -> Result<(), Memory>
        requires { IsTrue (finite.contains_key (files_of self.old) from.now) }
        ensures ok { OnOk result (files_of self.new ≡ renamed from.now to.now (files_of self.old)) }
        ensures err { OnErr result (self.new ≡ self.old) }
    {
        let name = Bytes::of(alloc, to)?;
        self.entries.reserve(1)?;
        let Some(bytes) = take_entry(&mut self.entries, from) else {
            unreachable!()
        };
        put_entry(&mut self.entries, name, bytes);
        Ok(())
    }
}

fn copy_entries(alloc: Global, files: &[FileEntry]) -> Result<Vec<FileEntry>, Memory>
    ensures { IfOk result (λ copies. copies.items ≡ files.now) }
{
    let mut copies = Vec::new(alloc);
    for file in files {
        let name = file.name.copy(alloc)?;
        let bytes = file.bytes.copy(alloc)?;
        copies.push(FileEntry { name, bytes })?;
    }
    Ok(copies)
}

fn copy_names(alloc: Global, files: &[FileEntry]) -> Result<Names, Memory>
    requires { IsTrue (names_ascend files.now) }
    ensures { IfOk result (λ names. names ≡ finite.keys (files_of files.now)) }
{
    let mut names = Names::new(alloc);
    for file in files {
        names.push(file.name.copy(alloc)?)?;
    }
    Ok(names)
}

// The place of the file with this name, or the place where it would stand.
fn search(files: &[FileEntry], name: &[u8]) -> Result<usize, usize>
    requires { IsTrue (names_ascend files.now) }
    ensures { MatchResult result (IsNamedAt name.now files.now) (IsGapFor name.now files.now) }
{
    files.binary_search_by(|file| file.name.as_slice().cmp(&name))
}

// Puts the file in its place; there is room for it.
fn put_entry(files: &mut Vec<FileEntry>, name: Bytes, bytes: Bytes)
    requires ascending { IsTrue (names_ascend files.old.items) }
    requires room { vec_len files.old < vec_capacity files.old }
    ensures ascending { IsTrue (names_ascend files.new.items) }
    ensures files { files_of files.new.items ≡ finite.insert (files_of files.old.items) name bytes }
{
    match search(files, name.as_slice()) {
        Ok(place) => files[place].bytes = bytes,
        Err(place) => {
            let Ok(()) = files.insert(place, FileEntry { name, bytes }) else {
                unreachable!()
            };
        }
    }
}

// Takes the file with this name out, if there is one.
fn take_entry(files: &mut Vec<FileEntry>, name: &[u8]) -> Option<Bytes>
    requires { IsTrue (names_ascend files.old.items) }
    ensures bytes { result ≡ finite.get (files_of files.old.items) name.now }
    ensures ascending { IsTrue (names_ascend files.new.items) }
    ensures files { files_of files.new.items ≡ finite.remove (files_of files.old.items) name.now }
    ensures len { vec_len files.new ≤ vec_len files.old }
    ensures capacity { vec_capacity files.new ≡ vec_capacity files.old }
{
    match search(files, name) {
        Ok(place) => {
            let FileEntry { name: _, bytes } = files.remove(place);
            Some(bytes)
        }
        Err(_) => None,
    }
}
