ghost use Rattle.std.specs.Prelude.{◌≡◌, ℕ, ◌+◌, ◌*◌, ◌<◌, ◌≤◌, List, length, drop, IfOk, IfErr, IfSome, Some};
ghost use Rattle.word_file.specs.Difference.{first_difference};
ghost use Rattle.word_file.specs.Spelling.{StartsAt, IsPlace, offset_of};
ghost use Rattle.word_file.specs.Paired.{IsPaired, key_offsets};
ghost use Rattle.file_numbers.specs.Lists.{number_bytes};
ghost use Rattle.btree_index.specs.Levels.{level, header, spelling};
ghost use Rattle.word_file.specs.Agreement.{GoesOn, PartsAt};

use crate::levels::{MAGIC, entries_of, levels_of, stride_of};
use word_file::{WordFile, follow, key_after};

/// Where the header ends, if the bytes begin with it; else where they first don't.
fn after_header(bytes: &[u8], count: u64) -> Result<usize, usize>
    ensures end { IfOk result (λ end. GoesOn bytes.now (header count) 0 end) }
    ensures place { IfErr result (λ place. PartsAt bytes.now (header count) 0 place) }
{
    let magic = follow(bytes, 0, &MAGIC.to_be_bytes())?;
    let levels = follow(bytes, magic, &levels_of(count).to_be_bytes())?;
    follow(bytes, levels, &count.to_be_bytes())
}

/// The offset of the key that is `keys` keys after the one at `at`.
fn key_on(words: &WordFile, at: u64, keys: u64) -> Option<u64>
    requires { StartsAt words.now.words at }
    ensures { (i : ℕ) → IsPlace words.now.words at i → result ≡ offset_of words.now.words (i + 2 * keys) }
{
    let mut next = at;
    for _passed in 0..keys {
        next = key_after(words, next)?;
    }
    Some(next)
}

/// Where the level ends, if the bytes go on with it at `at`; else where they first don't. Its keys are
/// found by going over all words.
fn after_walked(bytes: &[u8], at: usize, words: &WordFile, j: u32) -> Result<usize, usize>
    requires level { j < 16 }
    requires at { at ≤ length bytes.now }
    requires paired { IsPaired words.now.words }
    ensures end { IfOk result (λ end. GoesOn bytes.now (number_bytes (level (key_offsets words.now.words) j)) at end) }
    ensures place { IfErr result (λ place. PartsAt bytes.now (number_bytes (level (key_offsets words.now.words) j)) at place) }
{
    let stride = stride_of(j);
    let mut end = at;
    let mut next = words.first();
    while let Some(key) = next {
        end = follow(bytes, end, &key.to_be_bytes())?;
        next = key_on(words, key, stride);
    }
    Ok(end)
}

/// The same, where the offsets of all keys are known to stand in the bytes from `lowest` on, and are
/// read there.
fn after_read(
    bytes: &[u8],
    at: usize,
    words: &WordFile,
    j: u32,
    lowest: usize,
) -> Result<usize, usize>
    requires level { j < 16 }
    requires at { at ≤ length bytes.now }
    requires lowest { drop lowest bytes.now ≡ number_bytes (key_offsets words.now.words) }
    ensures end { IfOk result (λ end. GoesOn bytes.now (number_bytes (level (key_offsets words.now.words) j)) at end) }
    ensures place { IfErr result (λ place. PartsAt bytes.now (number_bytes (level (key_offsets words.now.words) j)) at place) }
{
    let stride = stride_of(j);
    let mut end = at;
    for k in 0..entries_of(words.count() / 2, j) {
        let entry = lowest + 8 * (k * stride) as usize;
        end = follow(bytes, end, &bytes[entry..entry + 8])?;
    }
    Ok(end)
}

/// The same, whichever way the keys are found.
fn after_level(
    bytes: &[u8],
    at: usize,
    words: &WordFile,
    j: u32,
    lowest: Option<usize>,
) -> Result<usize, usize>
    requires level { j < 16 }
    requires at { at ≤ length bytes.now }
    requires paired { IsPaired words.now.words }
    requires lowest { IfSome lowest (λ from. drop from bytes.now ≡ number_bytes (key_offsets words.now.words)) }
    ensures end { IfOk result (λ end. GoesOn bytes.now (number_bytes (level (key_offsets words.now.words) j)) at end) }
    ensures place { IfErr result (λ place. PartsAt bytes.now (number_bytes (level (key_offsets words.now.words) j)) at place) }
{
    match lowest {
        Some(from) => after_read(bytes, at, words, j, from),
        None => after_walked(bytes, at, words, j),
    }
}

/// Where the lowest level stands, if the bytes end with it as it is to be.
fn lowest_in(bytes: &[u8], words: &WordFile) -> Option<usize>
    requires { IsPaired words.now.words }
    ensures { IfSome result (λ from. drop from bytes.now ≡ number_bytes (key_offsets words.now.words)) }
{
    let count = words.count() / 2;
    if count > bytes.len() as u64 / 8 {
        return None;
    }
    let from = bytes.len() - 8 * count as usize;
    match after_walked(bytes, from, words, 0) {
        Ok(_) => Some(from),
        Err(_) => None,
    }
}

/// Where the accessor of the word file ends, if the bytes begin with it; else where they first don't.
fn after_all(bytes: &[u8], words: &WordFile) -> Result<usize, usize>
    requires { IsPaired words.now.words }
    ensures end { IfOk result (λ end. GoesOn bytes.now (spelling (key_offsets words.now.words)) 0 end) }
    ensures place { IfErr result (λ place. first_difference bytes.now (spelling (key_offsets words.now.words)) ≡ Some place) }
{
    let count = words.count() / 2;
    let mut end = after_header(bytes, count)?;
    let lowest = lowest_in(bytes, words);
    let mut level = levels_of(count);
    while level > 0 {
        level -= 1;
        end = after_level(bytes, end, words, level, lowest)?;
    }
    Ok(end)
}

/// Where the bytes and the accessor of the word file differ first. The accessor is followed through the
/// bytes, and never stands beside them. If they end with the right lowest level, the words are gone over
/// once; else once more for each level down to the difference.
pub(crate) fn difference(bytes: &[u8], words: &WordFile) -> Option<usize>
    requires { IsPaired words.now.words }
    ensures { result ≡ first_difference bytes.now (spelling (key_offsets words.now.words)) }
{
    match after_all(bytes, words) {
        Ok(end) => { if end < bytes.len() { Some(end) } else { None } }
        Err(place) => Some(place),
    }
}
