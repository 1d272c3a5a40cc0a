ghost use Rattle.std.specs.Prelude.{◌≡◌, ℕ, ◌+◌, [], length, slice_index_or, IfOk, IfSome, Ok};
ghost use Rattle.word_file.specs.Spelling.{TaggedWords, Fits, spelling, StartsAt, IsPlace, offset_of};
ghost use Rattle.word_file.specs.Reading.{checked};

use crate::error::WordError;
use crate::read::{HEADER, check_bytes, end_at, tag_of, word_in};
use crate::tag::Tag;
use agg_outside::{Bytes, Steps};
use std::marker::Model;
use std::sync::ledger::Ledger;

/// A tag and a list of words in one text. A word is reached by its offset, which is that of the field
/// that says its length.
#[derive(Debug, Drop)]
pub struct WordFile {
    tag: Tag,
    count: u64,
    bytes: Bytes,
}

impl Model for WordFile {
    ghost use Rattle.word_file.specs.Spelling.{TaggedWords};
    ghost use Rattle.word_file.specs.Reading.{tagged, words_in, IsHeld};

    ghost Value = { TaggedWords };

    ghost view = { λ f. tagged f.tag (words_in f.bytes) };

    ghost invariant = { λ f. IsHeld f.tag f.count f.bytes };
}

fn read_file(bytes: Bytes) -> Result<WordFile, WordError>
    ensures exact { result ≡ checked bytes }
    ensures found { IfOk result (λ f. Fits f × (bytes ≡ spelling f)) }
{
    let count = check_bytes(bytes.as_slice())?;
    let tag = tag_of(bytes.as_slice());
    Ok(WordFile { tag, count, bytes })
}

impl WordFile {
    ghost use Rattle.word_file.specs.Reading.{tagged, words_in, IsHeld};

    pub(crate) fn of_parts(tag: Tag, count: u64, bytes: Bytes) -> WordFile
        requires { IsHeld tag count bytes }
        ensures { result ≡ tagged tag (words_in bytes) }
    {
        WordFile { tag, count, bytes }
    }

    /// The file that the bytes spell. They are gone over once where they are, and none is copied.
    pub fn check(bytes: Bytes) -> Result<WordFile, WordError>
        // What is accepted is spelled so.
        ensures found { IfOk result (λ f. Fits f × (bytes ≡ spelling f)) }
        // What is spelled so is accepted.
        ensures only { (f : TaggedWords) → Fits f → bytes ≡ spelling f → result ≡ Ok f }
        // Which refusal it is, and where.
        ensures exact { result ≡ checked bytes }
        // Two files have two spellings.
        ensures one_spelling { (f g : TaggedWords) → Fits f → Fits g → spelling f ≡ spelling g → f ≡ g }
    {
        read_file(bytes)
    }

    /// The word at this offset: one step.
    pub fn word_at<L: Ledger>(&self, at: u64, steps: &mut Steps<L>) -> &[u8]
        requires { StartsAt self.now.words at }
        ensures word { (i : ℕ) → IsPlace self.now.words at i → result.now ≡ slice_index_or self.now.words i [] }
        // An offset has one place.
        ensures place { (i j : ℕ) → IsPlace self.now.words at i → IsPlace self.now.words at j → i ≡ j }
        ensures steps { steps.new ≡ steps.old + 1 }
    {
        steps.tick();
        let bytes = self.bytes.as_slice();
        word_in(bytes, at as usize)
    }

    /// The offset after the word at `at`, and `None` after the last word.
    pub fn next(&self, at: u64) -> Option<u64>
        requires { StartsAt self.now.words at }
        ensures value { (i : ℕ) → IsPlace self.now.words at i → result ≡ offset_of self.now.words (i + 1) }
        ensures place { (i : ℕ) → IsPlace self.now.words at i → IfSome result (λ after. IsPlace self.now.words after (i + 1)) }
    {
        let bytes = self.bytes.as_slice();
        let end = end_at(bytes, at as usize);
        if end < bytes.len() {
            Some(end as u64)
        } else {
            None
        }
    }

    /// The offset of the first word, and `None` where there is no word.
    pub fn first(&self) -> Option<u64>
        ensures value { result ≡ offset_of self.now.words 0 }
        ensures place { IfSome result (λ at. IsPlace self.now.words at 0) }
    {
        if self.count == 0 {
            None
        } else {
            Some(HEADER as u64)
        }
    }

    pub fn tag(&self) -> Tag
        ensures { result ≡ self.now.tag }
    {
        self.tag
    }

    /// The number of words.
    pub fn count(&self) -> u64
        ensures count { result ≡ length self.now.words }
        ensures fits { Fits self.now }
    {
        self.count
    }

    /// The whole file.
    pub fn bytes(&self) -> &[u8]
        ensures spelled { result.now ≡ spelling self.now }
        ensures fits { Fits self.now }
    {
        self.bytes.as_slice()
    }
}
