//! The order of keys: byte by byte, and a prefix before what it begins.
ghost use Rattle.std.specs.Prelude.{◌≡◌, ◌++◌, [], ◌∷◌, slice_get, IfOk, IfErr};
ghost use Rattle.std.specs.Option.{option_copied};
ghost use Rattle.std.specs.Ordering.{nat_cmp, is_lt};
ghost use Rattle.std.specs.Cmp.Lexicographic.{slice_cmp};
ghost use Rattle.hot_keeper.specs.declared.error.ReadError.TheVariants.{Memory as NoMemory};
ghost use Rattle.window_laws.specs.Pages.{behind_key, lesser};

use agg_outside::{Bytes, Keys, Memory};
use std::alloc::Global;
use window_reads::ReadError;

pub(crate) fn is_below(key: &[u8], other: &[u8]) -> bool
    ensures { result ≡ is_lt (slice_cmp nat_cmp key.now other.now) }
{
    key.cmp(&other).is_lt()
}

/// The lesser of two keys, where there are two.
pub(crate) fn lesser<'a>(one: Option<&'a [u8]>, other: Option<&'a [u8]>) -> Option<&'a [u8]>
    ensures { option_copied result ≡ lesser (option_copied one.entry) (option_copied other.entry) }
{
    let Some(k) = one else {
        return other;
    };
    let Some(l) = other else {
        return one;
    };
    if is_below(l, k) { other } else { one }
}

/// The least key above this one: it, with a 0 byte behind it.
pub(crate) fn behind_key(alloc: Global, key: &[u8]) -> Result<Bytes, ReadError>
    ensures ok { IfOk result (λ behind. behind ≡ behind_key key.now) }
    ensures err { IfErr result (λ e. e ≡ NoMemory) }
{
    match with_zero(alloc, key) {
        Ok(behind) => Ok(behind),
        Err(_) => Err(ReadError::Memory),
    }
}

// The bytes and a 0 byte behind them.
fn with_zero(alloc: Global, bytes: &[u8]) -> Result<Bytes, Memory>
    ensures { IfOk result (λ longer. longer ≡ behind_key bytes.now) }
{
    let mut longer = Vec::new(alloc);
    longer.extend_from_slice(bytes)?;
    longer.push(0)?;
    Ok(Bytes::from_vec(longer))
}

/// The first of the keys.
pub(crate) fn first_key(keys: &Keys) -> Option<&[u8]>
    ensures { option_copied result ≡ slice_get keys.now 0 }
{
    match keys.get(0) {
        Some(key) => Some(key.as_slice()),
        None => None,
    }
}
