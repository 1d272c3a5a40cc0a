ghost use Rattle.std.specs.Prelude.{◌≡◌, ℕ, ◌+◌, ◌*◌, ◌<◌, ◌≤◌, length, slice_index, IfOk, OnOk, Ok, Err, Some};
ghost use Rattle.word_file.specs.Paired.{IsPaired, key_count, key_offsets, KeysAscend};
ghost use Rattle.btree_index.specs.Keys.{IsFirstNotBelow};
ghost use Rattle.btree_index.specs.Levels.{levels, spelling};
ghost use Rattle.word_file.specs.Difference.{first_difference};
ghost use Rattle.word_file.specs.declared.access.AccessError.TheVariants.{Differs};

use crate::compare::difference;
use crate::levels::{entries_of, levels_of, spell};
use crate::search::search;
use agg_outside::{Bytes, Memory, Steps};
use file_numbers::u64_at;
use std::alloc::Global;
use std::marker::Model;
use std::sync::ledger::Ledger;
use word_file::{AccessError, WordFile, key_offsets};

/// The B-tree accessor of a word file.
#[derive(Debug, Drop)]
pub struct BTreeFile {
    count: u64,
    bytes: Bytes,
}

impl Model for BTreeFile {
    ghost use Rattle.std.specs.Prelude.{List, ℕ};
    ghost use Rattle.btree_index.specs.Levels.{offsets_in, IsHeld};

    ghost Value = { List ℕ };

    ghost view = { λ b. offsets_in b.count b.bytes };

    ghost invariant = { λ b. IsHeld b.count b.bytes };
}

/// The accessor of the word file, which these bytes are.
fn accessor_of(words: &WordFile, bytes: Bytes) -> BTreeFile
    requires { bytes ≡ spelling (key_offsets words.now.words) }
    ensures { result ≡ key_offsets words.now.words }
{
    // That an offset has eight bytes comes with the length of the file.
    let _length = words.bytes().len();
    BTreeFile {
        count: words.count() / 2,
        bytes,
    }
}

impl BTreeFile {
    /// The accessor of the word file.
    pub fn build(alloc: Global, words: &WordFile) -> Result<BTreeFile, Memory>
        requires { IsPaired words.now.words }
        ensures { IfOk result (λ b. b ≡ key_offsets words.now.words) }
    {
        let offsets = key_offsets(alloc, words)?;
        let bytes = spell(alloc, offsets.as_slice())?;
        Ok(accessor_of(words, Bytes::from_vec(bytes)))
    }

    /// The bytes as the accessor of the word file, where they are what `build` gives. It takes no memory.
    pub fn check(_alloc: Global, bytes: Bytes, words: &WordFile) -> Result<BTreeFile, AccessError>
        requires { IsPaired words.now.words }
        ensures ok { IfOk result (λ b. b ≡ key_offsets words.now.words) }
        // What is accepted is spelled so.
        ensures found { OnOk result (bytes ≡ spelling (key_offsets words.now.words)) }
        // What is spelled so is accepted.
        ensures only { bytes ≡ spelling (key_offsets words.now.words) → result ≡ Ok (key_offsets words.now.words) }
        // Where the bytes differ first, it says so,
        ensures differs { (at : ℕ) → first_difference bytes (spelling (key_offsets words.now.words)) ≡ Some at → result ≡ Err (Differs at) }
        // and where it says so, they do.
        ensures exact { (at : ℕ) → result ≡ Err (Differs at) → first_difference bytes (spelling (key_offsets words.now.words)) ≡ Some at }
    {
        match difference(bytes.as_slice(), words) {
            None => Ok(accessor_of(words, bytes)),
            Some(at) => Err(AccessError::Differs { at: at as u64 }),
        }
    }

    /// The number of keys.
    pub fn count(&self) -> u64
        ensures { result ≡ length self.now }
    {
        self.count
    }

    /// The number of levels.
    pub fn levels(&self) -> u32
        ensures { result ≡ levels (length self.now) }
    {
        levels_of(self.count)
    }

    /// The whole accessor.
    pub fn bytes(&self) -> &[u8]
        ensures { result.now ≡ spelling self.now }
    {
        self.bytes.as_slice()
    }

    /// The offset of the key at this place.
    pub fn offset_of(&self, place: u64) -> u64
        requires { place < length self.now }
        ensures { result ≡ slice_index self.now place }
    {
        let bytes = self.bytes.as_slice();
        let left = (self.count - place) as usize;
        u64_at(bytes, bytes.len() - 8 * left)
    }

    /// The place of the first key that is not below this one, or the number of keys. It goes down from
    /// the highest level: where an entry is the first of its level that is not below, the entries under
    /// the one before it are all that is left to look at.
    pub fn seek<L: Ledger>(&self, words: &WordFile, key: &[u8], steps: &mut Steps<L>) -> u64
        requires of_words { self.now ≡ key_offsets words.now.words }
        requires ascending { KeysAscend words.now.words }
        ensures place { IsFirstNotBelow words.now.words key.now result }
        ensures steps { steps.new ≤ steps.old + (8 * levels (key_count words.now.words) + 2) }
    {
        let bytes = self.bytes.as_slice();
        let mut level = levels_of(self.count);
        let mut start = 16;
        let mut from = 0;
        let mut to = 16;
        let mut place = 0;
        while level > 0 {
            level -= 1;
            place = search(&bytes[start..], level, words, key, from, to, steps);
            start += 8 * entries_of(self.count, level) as usize;
            to = 16 * place;
            from = to.saturating_sub(15);
        }
        place
    }
}
