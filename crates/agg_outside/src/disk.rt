//! A folder of files as the session sees it.
ghost use Rattle.std.specs.Prelude.{◌≡◌, ℕ, Option, Some, None, IfSome, IfNone, IfOk, OnOk, OnErr, IsTrue, IsSomeAnd};
ghost use Rattle.std.specs.Option.{ForSome};
ghost use Rattle.std.specs.FinMap as map;
ghost use Rattle.agg_outside.specs.Counts.{HasCause};
ghost use Rattle.agg_outside.specs.Files.{Files, renamed, SameElsewhere, WasDoneOrNot};

use crate::bytes::Bytes;
use crate::errors::DiskError;
use crate::list::Names;
use std::alloc::Global;

/// Holds a finite map from names to files.
///
/// A contract can name the files only if the disk tells them. Each disk either always tells them or
/// never does: no call makes it begin or stop.
pub trait Disk: Send + Drop {
    /// How often the disk has failed.
    ghost faults: { Self → ℕ };

    /// The files by their names, where it tells them.
    ghost files: { Self → Option Files };

    /// All names, ascending.
    fn list(&mut self, alloc: Global) -> Result<Names, DiskError>
        ensures names { IfSome (files self.old) (λ f. IfOk result (λ names. names ≡ map.keys f)) }
        ensures files { files self.new ≡ files self.old }
        ensures cause { HasCause DiskError.Failed (faults self.old) (faults self.new) result };

    /// The bytes of a file that exists.
    fn read(&mut self, alloc: Global, name: &[u8]) -> Result<Bytes, DiskError>
        requires { ForSome (files self.old) (λ f. IsTrue (map.contains_key f name.now)) }
        ensures bytes { IfSome (files self.old) (λ f. IfOk result (λ bytes. map.get f name.now ≡ Some bytes)) }
        ensures files { files self.new ≡ files self.old }
        ensures cause { HasCause DiskError.Failed (faults self.old) (faults self.new) result };

    /// The file then holds the bytes. After an error it may hold any bytes or be absent.
    fn write_new(&mut self, alloc: Global, name: &[u8], bytes: &[u8]) -> Result<(), DiskError>
        ensures ok { IfSome (files self.old) (λ f. OnOk result (files self.new ≡ Some (map.insert f name.now bytes.now))) }
        ensures others { IfSome (files self.old) (λ f. IsSomeAnd (files self.new) (SameElsewhere name.now f)) }
        ensures silent { IfNone (files self.old) (files self.new ≡ None) }
        ensures cause { HasCause DiskError.Failed (faults self.old) (faults self.new) result };

    /// Moves a file that exists over a name that may be taken. After an error it was done or not.
    fn rename(&mut self, alloc: Global, from: &[u8], to: &[u8]) -> Result<(), DiskError>
        requires { ForSome (files self.old) (λ f. IsTrue (map.contains_key f from.now)) }
        ensures ok { IfSome (files self.old) (λ f. OnOk result (files self.new ≡ Some (renamed from.now to.now f))) }
        ensures err { IfSome (files self.old) (λ f. OnErr result (WasDoneOrNot f (renamed from.now to.now f) (files self.new))) }
        ensures silent { IfNone (files self.old) (files self.new ≡ None) }
        ensures cause { HasCause DiskError.Failed (faults self.old) (faults self.new) result };

    /// The name is absent then; an absent name is no error. After an error it was done or not.
    fn remove(&mut self, alloc: Global, name: &[u8]) -> Result<(), DiskError>
        ensures ok { IfSome (files self.old) (λ f. OnOk result (files self.new ≡ Some (map.remove f name.now))) }
        ensures err { IfSome (files self.old) (λ f. OnErr result (WasDoneOrNot f (map.remove f name.now) (files self.new))) }
        ensures silent { IfNone (files self.old) (files self.new ≡ None) }
        ensures cause { HasCause DiskError.Failed (faults self.old) (faults self.new) result };
}
