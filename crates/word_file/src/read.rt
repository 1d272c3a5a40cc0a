ghost use Rattle.std.specs.Prelude.{◌≡◌, ◌+◌, ◌≤◌, ◌<◌, length, drop, take, Some, None, IfOk, if◌then◌else◌};
ghost use Rattle.word_file.specs.Reading.{has_word, said_length, counted, whole_words, tag_in, checked_count, IsHeld};

use crate::error::WordError;
use crate::tag::Tag;
use file_numbers::{u16_at, u32_at, u64_at};

/// The bytes before the words.
pub(crate) const HEADER: usize = 40;

/// `AGW1`.
pub(crate) const MAGIC: u32 = 0x4147_5731;

#[tactic(auto, unfolding(crate::specs::Reading::tag_in))]
pub(crate) fn tag_of(bytes: &[u8]) -> Tag
    requires { 40 ≤ length bytes.now }
    ensures { result ≡ tag_in bytes.now }
{
    Tag {
        entity: bytes[4],
        kind: bytes[5],
        version: u16_at(bytes, 6),
        step: u64_at(bytes, 8),
        from: u64_at(bytes, 16),
        to: u64_at(bytes, 24),
    }
}

/// The offset after the word that stands whole at `at`.
pub(crate) fn end_at(bytes: &[u8], at: usize) -> usize
    requires { at + (4 + said_length (drop at bytes.now)) ≤ length bytes.now }
    ensures { result ≡ at + (4 + said_length (drop at bytes.now)) }
{
    at + 4 + u32_at(bytes, at) as usize
}

/// The word that stands whole at `at`.
pub(crate) fn word_in(bytes: &[u8], at: usize) -> &[u8]
    requires { at + (4 + said_length (drop at bytes.now)) ≤ length bytes.now }
    ensures { result.now ≡ take (said_length (drop at bytes.now)) (drop 4 (drop at bytes.now)) }
{
    &bytes[at + 4..end_at(bytes, at)]
}

/// The offset after the word at `at`, where the whole word stands in the bytes.
pub(crate) fn word_end(bytes: &[u8], at: usize) -> Option<usize>
    requires { at ≤ length bytes.now }
    ensures { result ≡ (if has_word (drop at bytes.now) then Some (at + (4 + said_length (drop at bytes.now))) else None) }
{
    if bytes.len() - at < 4 {
        return None;
    }
    let len = u32_at(bytes, at) as usize;
    if bytes.len() - at - 4 < len {
        return None;
    }
    Some(at + 4 + len)
}

/// The number of words after the header.
pub(crate) fn count_words(bytes: &[u8]) -> Result<u64, WordError>
    requires { 40 ≤ length bytes.now }
    ensures { result ≡ counted (whole_words (drop 40 bytes.now)) }
{
    let mut at = HEADER;
    let mut found = 0;
    while at < bytes.len() {
        let Some(end) = word_end(bytes, at) else {
            return Err(WordError::Short { at: at as u64 });
        };
        at = end;
        found += 1;
    }
    Ok(found)
}

/// The number of words of a file, or why the bytes are none.
#[tactic(auto, unfolding(crate::specs::Reading::checked_count))]
pub(crate) fn check_bytes(bytes: &[u8]) -> Result<u64, WordError>
    ensures count { result ≡ checked_count bytes.now }
    ensures held { IfOk result (λ count. IsHeld (tag_in bytes.now) count bytes.now) }
{
    if bytes.len() < HEADER {
        return Err(WordError::Short {
            at: bytes.len() as u64,
        });
    }
    if u32_at(bytes, 0) != MAGIC {
        return Err(WordError::Magic);
    }
    let found = count_words(bytes)?;
    let said = u64_at(bytes, 32);
    if said != found {
        return Err(WordError::Count { said, found });
    }
    Ok(found)
}
