ghost use Rattle.std.specs.Prelude.{◌≡◌, ℕ, ◌+◌, ◌<◌, ◌≤◌, ◌^◌, IfOk, OnOk, IfErr, IfSome, IfNone, Err, Some};
ghost use Rattle.std.specs.Option.{option_copied};
ghost use Rattle.word_file.specs.Paired.{IsPaired, KeysDiffer, key_count, key_at};
ghost use Rattle.word_file.specs.Difference.{first_difference};
ghost use Rattle.recsplit_index.specs.Keys.{IsKeyAt, IsNoKey};
ghost use Rattle.recsplit_index.specs.Index.{index_of};
ghost use Rattle.agg_model.specs.declared.entity.FileKind.{FileKind};
ghost use Rattle.hashed_words.specs.declared.limits.TheConstants.{TRIES};
ghost use Rattle.hashed_words.specs.declared.error.FileError.TheVariants.{Bad, Memory as NoMemory};
ghost use Rattle.hashed_words.specs.Hashed.{accessor_bytes, form_of, value_at, value_of, ArePairs, IsPairAt, StartsPair};

use crate::error::FileError;
use crate::filter::{marks_of, may_have};
use crate::limits::TRIES;
use crate::starts::starts_of;
use agg_model::FileKind;
use agg_outside::{Bytes, Memory, Steps};
use recsplit_index::HashIndex;
use std::alloc::Global;
use std::marker::{Brand, Model};
use std::sync::ledger::{Blank, Ledger};
use std::thread::Threads;
use word_file::WordFile;

/// Pairs of words, and the hash accessor of their keys. In memory alone, where they are made: a filter before the
/// accessor, and where some of the pairs start.
#[derive(Debug, Drop)]
pub struct HashedWords {
    words: WordFile,
    index: HashIndex,
    marks: Vec<u8>,
    starts: Vec<u64>,
}

impl Model for HashedWords {
    ghost use Rattle.word_file.specs.Spelling.{TaggedWords};
    ghost use Rattle.hashed_words.specs.Hashed.{IsHashed};

    ghost Value = { TaggedWords };

    ghost view = { λ h. h.words };

    ghost invariant = { λ h. IsHashed h.words.words h.index h.marks.items h.starts.items };
}

impl HashedWords {
    /// The parts, with a filter and the places where some pairs start: they take three bytes a key.
    fn filtered(alloc: Global, words: WordFile, index: HashIndex) -> Result<HashedWords, Memory>
        requires paired { IsPaired words.words }
        requires differ { KeysDiffer words.words }
        requires indexed { index ≡ index_of TRIES words.words }
        ensures { IfOk result (λ h. h ≡ words) }
    {
        let marks = marks_of::<Brand>(alloc, &words, Blank::new(1))?;
        let starts = starts_of(alloc, &words)?;
        Ok(HashedWords {
            words,
            index,
            marks,
            starts,
        })
    }

    /// The words behind the accessor that is built of them, and before it a filter that tells of most keys by one
    /// byte that they are none of theirs.
    pub fn of(alloc: Global, words: WordFile) -> Result<HashedWords, Memory>
        requires paired { IsPaired words.words }
        requires differ { KeysDiffer words.words }
        ensures { IfOk result (λ h. h ≡ words) }
    {
        let index = HashIndex::build(alloc, &words, TRIES)?;
        HashedWords::filtered(alloc, words, index)
    }

    /// The words behind the accessor that is built of them, as `of` gives them, without a filter and without starts:
    /// for words that are asked for keys that they have.
    pub fn of_known(alloc: Global, words: WordFile) -> Result<HashedWords, Memory>
        requires paired { IsPaired words.words }
        requires differ { KeysDiffer words.words }
        ensures { IfOk result (λ h. h ≡ words) }
    {
        let index = HashIndex::build(alloc, &words, TRIES)?;
        Ok(HashedWords {
            words,
            index,
            marks: Vec::new(alloc),
            starts: Vec::new(alloc),
        })
    }

    /// The words behind the accessor that is built of them, as `of_known` gives them; where there are many keys, the
    /// seeds of the accessor are looked for side by side.
    pub fn of_side_by_side<R: Threads + Sync>(
        rt: &R,
        alloc: Global,
        words: WordFile,
    ) -> Result<HashedWords, Memory>
        requires paired { IsPaired words.words }
        requires differ { KeysDiffer words.words }
        ensures { IfOk result (λ h. h ≡ words) }
    {
        let index = HashIndex::build_side_by_side(rt, alloc, &words, TRIES)?;
        Ok(HashedWords {
            words,
            index,
            marks: Vec::new(alloc),
            starts: Vec::new(alloc),
        })
    }

    /// The words behind these bytes, where they are the accessor that is built of them; the accessor is a file of
    /// this kind.
    pub fn check(
        alloc: Global,
        kind: FileKind,
        words: WordFile,
        accessor: Bytes,
    ) -> Result<HashedWords, FileError>
        requires paired { IsPaired words.words }
        requires differ { KeysDiffer words.words }
        ensures ok { IfOk result (λ h. h ≡ words) }
        // What is accepted is spelled so.
        ensures found { OnOk result (accessor ≡ accessor_bytes words.words) }
        // What is spelled so is refused for want of memory alone.
        ensures only { accessor ≡ accessor_bytes words.words → IfErr result (λ e. e ≡ NoMemory) }
        // Where the bytes differ first.
        ensures exact { (at : ℕ) → result ≡ Err (Bad kind at) →
            first_difference accessor (accessor_bytes words.words) ≡ Some at }
        // No other kind is named.
        ensures kind { (other : FileKind) (at : ℕ) → result ≡ Err (Bad other at) → other ≡ kind }
    {
        match HashIndex::check(alloc, accessor, &words, TRIES) {
            Ok(index) => {
                let held = HashedWords::filtered(alloc, words, index)?;
                Ok(held)
            }
            Err(error) => Err(FileError::of_accessor(kind, error)),
        }
    }

    pub fn words(&self) -> &WordFile
        ensures { result.now ≡ self.now }
    {
        &self.words
    }

    /// The whole accessor.
    pub fn accessor(&self) -> &[u8]
        ensures { result.now ≡ accessor_bytes self.now.words }
    {
        self.index.bytes()
    }

    /// Where some of the pairs start: each eighth from the first on, in order, or none where none were made.
    pub fn starts(&self) -> &[u64]
        ensures { ArePairs self.now.words result.now }
    {
        self.starts.as_slice()
    }

    /// 1 where a key is found by one word, and 0 where it is looked for by halves.
    pub fn form(&self) -> u8
        ensures { result ≡ form_of self.now.words }
    {
        self.index.form()
    }

    /// The offset of this key's word, and `None` where it is no key.
    pub fn find<L: Ledger>(&self, key: &[u8], steps: &mut Steps<L>) -> Option<u64>
        ensures found { IfSome result (λ at. IsKeyAt self.now.words key.now at) }
        ensures none { IfNone result (IsNoKey self.now.words key.now) }
        ensures split_steps { form_of self.now.words ≡ 1 → steps.new ≤ steps.old + 1 }
        ensures plain_steps { (digits : ℕ) → key_count self.now.words < 2 ^ digits →
            steps.new ≤ steps.old + (digits + 1) }
    {
        if !may_have(self.marks.as_slice(), key) {
            return None;
        }
        self.index.find(&self.words, key, steps)
    }

    /// The value word behind this key's word, and `None` where it is no key.
    pub fn value<L: Ledger>(&self, key: &[u8], steps: &mut Steps<L>) -> Option<&[u8]>
        ensures value { option_copied result ≡ value_of self.now.words key.now }
        ensures split_steps { form_of self.now.words ≡ 1 → steps.new ≤ steps.old + 2 }
        ensures plain_steps { (digits : ℕ) → key_count self.now.words < 2 ^ digits →
            steps.new ≤ steps.old + (digits + 2) }
    {
        let at = self.find(key, steps)?;
        Some(value_behind(&self.words, at, steps))
    }

    /// The key word at this offset and the value word behind it.
    pub fn read_pair<L: Ledger>(&self, at: u64, steps: &mut Steps<L>) -> (&[u8], &[u8])
        requires { StartsPair self.now.words at }
        ensures key { (p : ℕ) → IsPairAt self.now.words at p → result.0.now ≡ key_at self.now.words p }
        ensures value { (p : ℕ) → IsPairAt self.now.words at p → result.1.now ≡ value_at self.now.words p }
        ensures steps { steps.new ≡ steps.old + 2 }
    {
        pair_in(&self.words, at, steps)
    }

    /// The same, where nobody counts the steps.
    pub fn pair_at(&self, at: u64) -> (&[u8], &[u8])
        requires { StartsPair self.now.words at }
        ensures key { (p : ℕ) → IsPairAt self.now.words at p → result.0.now ≡ key_at self.now.words p }
        ensures value { (p : ℕ) → IsPairAt self.now.words at p → result.1.now ≡ value_at self.now.words p }
    {
        pair_uncounted::<Brand>(&self.words, at, Blank::new(1))
    }
}

/// The value word behind the key word at this offset.
fn value_behind<'a, L: Ledger>(words: &'a WordFile, at: u64, steps: &mut Steps<L>) -> &'a [u8]
    requires starts { StartsPair words.now.words at }
    requires paired { IsPaired words.now.words }
    ensures value { (p : ℕ) → IsPairAt words.now.words at p → result.now ≡ value_at words.now.words p }
    ensures steps { steps.new ≡ steps.old + 1 }
{
    let Some(behind) = words.next(at) else {
        unreachable!()
    };
    words.word_at(behind, steps)
}

fn pair_in<'a, L: Ledger>(
    words: &'a WordFile,
    at: u64,
    steps: &mut Steps<L>,
) -> (&'a [u8], &'a [u8])
    requires starts { StartsPair words.now.words at }
    requires paired { IsPaired words.now.words }
    ensures key { (p : ℕ) → IsPairAt words.now.words at p → result.0.now ≡ key_at words.now.words p }
    ensures value { (p : ℕ) → IsPairAt words.now.words at p → result.1.now ≡ value_at words.now.words p }
    ensures steps { steps.new ≡ steps.old + 2 }
{
    let key = words.word_at(at, steps);
    let value = value_behind(words, at, steps);
    (key, value)
}

fn pair_uncounted<L: Ledger>(words: &WordFile, at: u64, blank: Blank) -> (&[u8], &[u8])
    requires name { blank.name ≡ L.name }
    requires parts { blank.parts ≡ L.parts }
    requires some { 0 < L.parts }
    requires starts { StartsPair words.now.words at }
    requires paired { IsPaired words.now.words }
    ensures key { (p : ℕ) → IsPairAt words.now.words at p → result.0.now ≡ key_at words.now.words p }
    ensures value { (p : ℕ) → IsPairAt words.now.words at p → result.1.now ≡ value_at words.now.words p }
{
    let mut steps = Steps::<L>::of(blank);
    pair_in(words, at, &mut steps)
}
