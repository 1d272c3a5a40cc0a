//! Rules that several kinds of file have: of key words that are keys alone, and of values.
ghost use Rattle.std.specs.Prelude.{◌≡◌};
ghost use Rattle.std.specs.Option.{option_copied};
ghost use Rattle.hashed_words.specs.PlainKeys.{is_above, is_plain_key, count_plain_value};

use agg_model::{KEY_MOST, VALUE_MOST};

fn is_above(last: Option<&[u8]>, key: &[u8]) -> bool
    ensures { result ≡ is_above (option_copied last.entry) key.now }
{
    match last {
        None => true,
        Some(last) => last.cmp(&key).is_lt(),
    }
}

/// Whether a key of 1 to 64 bytes stands above the one before it.
pub fn is_plain_key(last: Option<&[u8]>, key: &[u8]) -> bool
    ensures { result ≡ is_plain_key (option_copied last.entry) key.now }
{
    let len = key.len() as u64;
    1 <= len && len <= KEY_MOST && is_above(last, key)
}

/// What was counted, where the value is within its limit.
pub fn count_plain_value(counted: u64, value: &[u8]) -> Option<u64>
    ensures { result ≡ count_plain_value counted value.now }
{
    if value.len() as u64 <= VALUE_MOST {
        Some(counted)
    } else {
        None
    }
}
