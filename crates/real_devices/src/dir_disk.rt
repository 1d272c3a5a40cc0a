//! A folder of files as a disk.
ghost use Rattle.std.specs.Prelude.{◌≡◌, None, Err, IsNone, IsTrue};
ghost use Rattle.std.specs.List.{list_any};
ghost use Rattle.real_devices.specs.Faults.{disk_count};
ghost use Rattle.real_devices.specs.FileNames.{is_unfit, is_folder_name, ends_name};

use agg_outside::{Bytes, Disk, DiskError, Names};
use std::alloc::{AllocError, Global};
use std::fs::{File, OpenFile};
use std::io::{ErrorKind, Read, Write};
use std::marker::Model;
use std::rt::Files;
use std::str::from_utf8;
use std::{fs, io};

/// The files of one folder, which is made at the first call.
///
/// A file is on the disk before `write_new` answers, and so is what `rename` and `remove` made of the
/// folder. Only files are listed: no folder, and no link. Want of memory is no fault; every other
/// refusal of the system is.
#[derive(Drop)]
pub struct DirDisk<'a, R> {
    rt: &'a R,
    folder: &'a str,
    is_made: bool,
    faults: u64,
}

impl<'a, R> Model for DirDisk<'a, R> {
    ghost use Rattle.std.specs.Prelude.{ℕ};

    ghost Value = { ℕ };

    ghost view = { λ d. d.faults };
}

impl<'a, R> DirDisk<'a, R> {
    /// The folder `agg-data` below the current one. Nothing is touched before the first call.
    pub fn new(rt: &'a R) -> DirDisk<'a, R>
        ensures { result ≡ 0 }
    {
        DirDisk::at(rt, "agg-data")
    }

    /// The same of another folder, whose parent is there.
    pub fn at(rt: &'a R, folder: &'a str) -> DirDisk<'a, R>
        ensures { result ≡ 0 }
    {
        DirDisk {
            rt,
            folder,
            is_made: false,
            faults: 0,
        }
    }

    // Answers how a call ended, and counts a refusal.
    fn end<T: Drop>(&mut self, done: Result<T, DiskError>) -> Result<T, DiskError>
        ensures same { result ≡ done }
        ensures counted { self.new ≡ disk_count self.old done }
    {
        if let Err(DiskError::Failed) = &done {
            self.faults = self.faults.saturating_add(1);
        }
        done
    }
}

impl<'a, R: Files> DirDisk<'a, R> {
    // Makes the folder unless an earlier call did; it is on the disk then.
    fn make_folder(&mut self) -> Result<(), DiskError>
        ensures { self.new ≡ self.old }
    {
        if !self.is_made {
            make_folder(self.rt, self.folder).map_err(cause_of)?;
            self.is_made = true;
        }
        Ok(())
    }

    // The path of a file, once its name and its folder are known to be good.
    fn path(&mut self, alloc: Global, name: &[u8]) -> Result<String, DiskError>
        ensures same { self.new ≡ self.old }
        ensures unfit { IsTrue (is_unfit name.now) → result ≡ Err DiskError.Failed }
    {
        let Some(name) = file_name(name) else {
            return Err(DiskError::Failed);
        };
        self.make_folder()?;
        path_of(alloc, self.folder, name).map_err(|_| DiskError::Memory)
    }

    fn write_file(&mut self, alloc: Global, name: &[u8], bytes: &[u8]) -> Result<(), DiskError>
        ensures same { self.new ≡ self.old }
        ensures unfit { IsTrue (is_unfit name.now) → result ≡ Err DiskError.Failed }
    {
        let path = self.path(alloc, name)?;
        write_synced(self.rt, path.as_str(), bytes).map_err(cause_of)
    }

    fn read_file(&mut self, alloc: Global, name: &[u8]) -> Result<Bytes, DiskError>
        ensures same { self.new ≡ self.old }
        ensures unfit { IsTrue (is_unfit name.now) → result ≡ Err DiskError.Failed }
    {
        let path = self.path(alloc, name)?;
        read_whole(self.rt, alloc, path.as_str()).map_err(cause_of)
    }

    fn move_file(&mut self, alloc: Global, from: &[u8], to: &[u8]) -> Result<(), DiskError>
        ensures same { self.new ≡ self.old }
        ensures unfit { IsTrue (is_unfit to.now) → result ≡ Err DiskError.Failed }
    {
        let target = self.path(alloc, to)?;
        let source = self.path(alloc, from)?;
        move_synced(self.rt, self.folder, source.as_str(), target.as_str()).map_err(cause_of)
    }

    fn remove_file(&mut self, alloc: Global, name: &[u8]) -> Result<(), DiskError>
        ensures same { self.new ≡ self.old }
        ensures unfit { IsTrue (is_unfit name.now) → result ≡ Err DiskError.Failed }
    {
        let path = self.path(alloc, name)?;
        remove_synced(self.rt, self.folder, path.as_str()).map_err(cause_of)
    }
}

impl<'a, R: Files + AllocGlobal + Clone + Drop> DirDisk<'a, R> {
    fn list_files(&mut self, alloc: Global) -> Result<Names, DiskError>
        ensures { self.new ≡ self.old }
    {
        self.make_folder()?;
        file_names(self.rt, alloc, self.folder).map_err(cause_of)
    }
}

impl<R: Files + AllocGlobal + Clone + Drop + Sync> Disk for DirDisk<'_, R> {
    ghost faults = { λ d. d };

    ghost files = { λ _. None };

    /// A name that is no UTF-8 text is a fault, since no path has it.
    fn list(&mut self, alloc: Global) -> Result<Names, DiskError>
        ensures counted { self.new ≡ disk_count self.old result }
    {
        let done = self.list_files(alloc);
        self.end(done)
    }

    fn read(&mut self, alloc: Global, name: &[u8]) -> Result<Bytes, DiskError>
        ensures counted { self.new ≡ disk_count self.old result }
        ensures unfit { IsTrue (is_unfit name.now) → result ≡ Err DiskError.Failed }
    {
        let done = self.read_file(alloc, name);
        self.end(done)
    }

    fn write_new(&mut self, alloc: Global, name: &[u8], bytes: &[u8]) -> Result<(), DiskError>
        ensures counted { self.new ≡ disk_count self.old result }
        ensures unfit { IsTrue (is_unfit name.now) → result ≡ Err DiskError.Failed }
    {
        let done = self.write_file(alloc, name, bytes);
        self.end(done)
    }

    fn rename(&mut self, alloc: Global, from: &[u8], to: &[u8]) -> Result<(), DiskError>
        ensures counted { self.new ≡ disk_count self.old result }
        ensures unfit { IsTrue (is_unfit to.now) → result ≡ Err DiskError.Failed }
    {
        let done = self.move_file(alloc, from, to);
        self.end(done)
    }

    fn remove(&mut self, alloc: Global, name: &[u8]) -> Result<(), DiskError>
        ensures counted { self.new ≡ disk_count self.old result }
        ensures unfit { IsTrue (is_unfit name.now) → result ≡ Err DiskError.Failed }
    {
        let done = self.remove_file(alloc, name);
        self.end(done)
    }
}

// The name as text, unless no file of a folder can have it.
fn file_name(name: &[u8]) -> Option<&str>
    ensures { IsTrue (is_unfit name.now) → IsNone result }
{
    if name.is_empty() || is_folder_name(name) || has_name_end(name) {
        return None;
    }
    from_utf8(name).ok()
}

// The folder itself, or the one above it.
fn is_folder_name(name: &[u8]) -> bool
    ensures { result ≡ is_folder_name name.now }
{
    name == b".".as_slice() || name == b"..".as_slice()
}

fn has_name_end(name: &[u8]) -> bool
    ensures { result ≡ list_any ends_name name.now }
{
    name.iter().any(|&byte| byte == 0 || byte == b'/')
}

// Want of memory is no fault of the system's.
fn cause_of(error: io::Error) -> DiskError {
    if error.kind() == ErrorKind::OutOfMemory {
        DiskError::Memory
    } else {
        DiskError::Failed
    }
}

fn path_of(alloc: Global, folder: &str, name: &str) -> Result<String, AllocError> {
    let mut path = String::from_str(alloc, folder)?;
    path.push('/')?;
    path.push_str(name)?;
    Ok(path)
}

// A folder that is there stays; anything else of its name is refused.
fn make_folder<R: Files>(rt: &R, folder: &str) -> io::Result<()> {
    match fs::create_dir(rt, folder) {
        Ok(()) => sync_folder(rt, parent_of(folder)),
        Err(error) if error.kind() == ErrorKind::AlreadyExists => expect_folder(rt, folder),
        Err(error) => Err(error),
    }
}

fn expect_folder<R: Files>(rt: &R, folder: &str) -> io::Result<()> {
    if fs::metadata(rt, folder)?.is_dir() {
        Ok(())
    } else {
        Err(io::Error::from(ErrorKind::NotADirectory))
    }
}

fn parent_of(folder: &str) -> &str {
    match folder.rsplit_once('/') {
        Some(("", _)) => "/",
        Some((parent, _)) => parent,
        None => ".",
    }
}

// What was made, moved or removed in a folder is durable only after this.
fn sync_folder<R: Files>(rt: &R, folder: &str) -> io::Result<()> {
    File::open(rt, folder)?.sync_all()
}

fn write_synced<R: Files>(rt: &R, path: &str, bytes: &[u8]) -> io::Result<()> {
    let mut file = File::create(rt, path)?;
    file.write_all(bytes)?;
    file.sync_all()
}

fn read_whole<R: Files>(rt: &R, alloc: Global, path: &str) -> io::Result<Bytes> {
    let mut file = File::open(rt, path)?;
    let mut bytes = Vec::new(alloc);
    let len = file.metadata()?.len();
    // The length is a hint: the reader goes on to the end, wherever that is.
    bytes.reserve(usize::try_from(len).unwrap_or(0))?;
    file.read_to_end(&mut bytes)?;
    Ok(Bytes::from_vec(bytes))
}

fn move_synced<R: Files>(rt: &R, folder: &str, source: &str, target: &str) -> io::Result<()> {
    fs::rename(rt, source, target)?;
    sync_folder(rt, folder)
}

fn remove_synced<R: Files>(rt: &R, folder: &str, path: &str) -> io::Result<()> {
    match fs::remove_file(rt, path) {
        Ok(()) => {}
        // The folder is synced all the same: an earlier call may have removed the file and failed there.
        Err(error) if error.kind() == ErrorKind::NotFound => {}
        Err(error) => return Err(error),
    }
    sync_folder(rt, folder)
}

fn file_names<R: Files + AllocGlobal + Clone + Drop>(
    rt: &R,
    alloc: Global,
    folder: &str,
) -> io::Result<Names> {
    let mut names = Vec::new(alloc);
    for entry in fs::read_dir(rt, folder)? {
        let entry = entry?;
        if entry.file_type()?.is_file() {
            names.push(Bytes::from_vec(Vec::from_slice(alloc, entry.file_name().as_bytes())?))?;
        }
    }
    names.sort_unstable();
    Ok(Names::from_vec(names))
}
