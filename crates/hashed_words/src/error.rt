ghost use Rattle.std.specs.Prelude.{◌≡◌};
ghost use Rattle.hashed_words.specs.declared.error.FileError.TheVariants.{Memory as NoMemory};
ghost use Rattle.hashed_words.specs.Faults.{accessor_error};

use agg_model::FileKind;
use agg_outside::Memory;
use word_file::AccessError;

/// Why files are not those of a tag.
#[derive(Clone, Copy, Debug, PartialEq, Eq)]
pub enum FileError {
    /// The file of this kind breaks a rule first at this offset.
    Bad { kind: FileKind, at: u64 },
    /// Memory could not be had.
    Memory,
}

impl From<Memory> for FileError {
    ghost from_gives = { λ _ e. e ≡ NoMemory };

    fn from(_: Memory) -> FileError {
        FileError::Memory
    }
}

impl FileError {
    /// What an accessor of this kind is refused for.
    pub fn of_accessor(kind: FileKind, error: AccessError) -> FileError
        ensures { result ≡ accessor_error kind error }
    {
        match error {
            AccessError::Differs { at } => FileError::Bad { kind, at },
            AccessError::Memory => FileError::Memory,
        }
    }
}
