//! Copies of what files hold, whose want of memory is that of the read.
ghost use Rattle.std.specs.Prelude.{◌≡◌, IfOk, IfErr};
ghost use Rattle.std.specs.Option.{option_copied};
ghost use Rattle.agg_model.specs.Pairs.{held_value};
ghost use Rattle.hot_keeper.specs.declared.error.ReadError.TheVariants.{Memory as NoMemory};

use agg_outside::Bytes;
use hot_keeper::ReadError;
use std::alloc::Global;

/// A copy of the bytes.
pub fn copied(alloc: Global, bytes: &[u8]) -> Result<Bytes, ReadError>
    ensures ok { IfOk result (λ copy. copy ≡ bytes.now) }
    ensures err { IfErr result (λ e. e ≡ NoMemory) }
{
    match Bytes::of(alloc, bytes) {
        Ok(copy) => Ok(copy),
        Err(_) => Err(ReadError::Memory),
    }
}

/// The value that a stored word is; the empty word, and no word, are none.
pub fn value_in(alloc: Global, word: Option<&[u8]>) -> Result<Option<Bytes>, ReadError>
    ensures ok { IfOk result (λ value. value ≡ held_value (option_copied word.entry)) }
    ensures err { IfErr result (λ e. e ≡ NoMemory) }
{
    match word {
        Some(word) if !word.is_empty() => {
            let value = copied(alloc, word)?;
            Ok(Some(value))
        }
        _ => Ok(None),
    }
}
