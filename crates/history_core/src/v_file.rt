//! The `.v` file of an entity over a range of steps.
ghost use Rattle.std.specs.Prelude.{◌≡◌, ℕ, ◌+◌, ◌<◌, ◌≤◌, ◌^◌, List, length, slice_get, IfOk, IfErr, Err, Some};
ghost use Rattle.std.specs.Option.{option_copied};
ghost use Rattle.agg_model.specs.declared.contents.Before.{Before};
ghost use Rattle.agg_model.specs.declared.entity.FileKind.{FileKind};
ghost use Rattle.word_file.specs.Reading.{tagged};
ghost use Rattle.hashed_words.specs.declared.error.FileError.TheVariants.{Bad, Memory as NoMemory};
ghost use Rattle.history_core.specs.Befores.{AreBefores, value_before};
ghost use Rattle.history_core.specs.KeyWord.{words_of};
ghost use Rattle.history_core.specs.VFile.{TaggedBefores, tagged_befores, v_spelling, vi_spelling, vi_form, IsRowAt, StartsRow, file_fault};

use crate::open::open_pair;
use crate::parts::{look_up, row_in};
use agg_outside::{Bytes, Memory, Steps};
use hashed_words::{FileError, HashedWords};
use std::alloc::Global;
use std::marker::Model;
use std::sync::ledger::Ledger;
use std::thread::Threads;
use word_file::{Tag, WordFile};

/// The values that keys had before their changes, by key and number, with what they are of.
#[derive(Debug, Drop)]
pub struct VFile {
    file: HashedWords,
}

impl Model for VFile {
    ghost use Rattle.history_core.specs.KeyWord.{befores_in};
    ghost use Rattle.history_core.specs.VFile.{TaggedBefores, tagged_befores, IsHeld};

    ghost Value = { TaggedBefores };

    ghost view = { λ f. tagged_befores f.file.tag (befores_in f.file.words) };

    ghost invariant = { λ f. IsHeld f.file };
}

impl VFile {
    ghost use Rattle.history_core.specs.VFile.{IsFileOf};

    /// The file of words that are known to be its spelling; the accessor is built.
    pub fn of(alloc: Global, words: WordFile) -> Result<VFile, Memory>
        requires { (befores : List Before) × IsFileOf words befores }
        ensures { (befores : List Before) → IsFileOf words befores →
            IfOk result (λ f. f ≡ tagged_befores words.tag befores) }
    {
        let file = HashedWords::of_known(alloc, words)?;
        Ok(VFile { file })
    }

    /// The file of words that are known to be its spelling; the accessor is built, side by side where there are many
    /// changes.
    pub fn of_side_by_side<R: Threads + Sync>(
        rt: &R,
        alloc: Global,
        words: WordFile,
    ) -> Result<VFile, Memory>
        requires { (befores : List Before) × IsFileOf words befores }
        ensures { (befores : List Before) → IsFileOf words befores →
            IfOk result (λ f. f ≡ tagged_befores words.tag befores) }
    {
        let file = HashedWords::of_side_by_side(rt, alloc, words)?;
        Ok(VFile { file })
    }

    /// The file of the tag that these bytes are, with the accessor that is built of it. Its words are looked at in
    /// their order, and the accessor last.
    pub fn check(alloc: Global, tag: Tag, v: Bytes, vi: Bytes) -> Result<VFile, FileError>
        ensures tag { IfOk result (λ f. f.tag ≡ tag) }
        ensures are { IfOk result (λ f. AreBefores tag f.befores) }
        // What is accepted is spelled so.
        ensures found { IfOk result (λ f. v ≡ v_spelling f) }
        ensures accessor { IfOk result (λ f. vi ≡ vi_spelling f) }
        // What is spelled so is accepted as just this file, and refused for want of memory alone.
        ensures same { (f : TaggedBefores) → f.tag ≡ tag → AreBefores tag f.befores → v ≡ v_spelling f →
            IfOk result (λ g. g ≡ f) }
        ensures only { (f : TaggedBefores) → f.tag ≡ tag → AreBefores tag f.befores → v ≡ v_spelling f →
            vi ≡ vi_spelling f → IfErr result (λ e. e ≡ NoMemory) }
        // Which refusal it is, and where.
        ensures exact { (kind : FileKind) (at : ℕ) → result ≡ Err (Bad kind at) →
            file_fault tag v vi ≡ Some (Bad kind at) }
    {
        match open_pair(alloc, tag, v, vi) {
            Ok(file) => Ok(VFile { file }),
            Err(error) => Err(error),
        }
    }

    /// What the file is of.
    pub fn tag(&self) -> Tag
        ensures { result ≡ self.now.tag }
    {
        self.file.words().tag()
    }

    /// The number of rows.
    pub fn len(&self) -> u64
        ensures count { result ≡ length self.now.befores }
        // They ascend by key and number, and lengths and numbers are within their limits.
        ensures befores { AreBefores self.now.tag self.now.befores }
    {
        self.file.words().count() / 2
    }

    /// The words of the file: a key word, its value, the next key word and so on.
    pub fn words(&self) -> &WordFile
        ensures { result.now ≡ tagged self.now.tag (words_of self.now.befores) }
    {
        self.file.words()
    }

    /// The whole `.v` file.
    pub fn bytes(&self) -> &[u8]
        ensures { result.now ≡ v_spelling self.now }
    {
        self.file.words().bytes()
    }

    /// The whole `.vi` file.
    pub fn vi_bytes(&self) -> &[u8]
        ensures { result.now ≡ vi_spelling self.now }
    {
        self.file.accessor()
    }

    /// The stored value before the change of exactly this key at exactly this number, which is empty where there
    /// was none; `None` where the file has no such change.
    pub fn previous<L: Ledger>(&self, key: &[u8], tx: u64, steps: &mut Steps<L>) -> Option<&[u8]>
        ensures value { option_copied result ≡ value_before self.now.befores key.now tx }
        ensures split_steps { vi_form self.now ≡ 1 → steps.new ≤ steps.old + 2 }
        ensures plain_steps { (digits : ℕ) → length self.now.befores < 2 ^ digits →
            steps.new ≤ steps.old + (digits + 2) }
    {
        look_up(&self.file, key, tx, steps)
    }

    /// The key, the number and the value where a key word starts.
    pub fn row_at(&self, at: u64) -> (&[u8], u64, &[u8])
        requires { StartsRow self.now.befores at }
        ensures { (place : ℕ) → IsRowAt self.now.befores at place →
            slice_get self.now.befores place
            ≡ Some (record { key = result.0.now; tx = result.1; value = result.2.now }) }
    {
        row_in(&self.file, at)
    }
}
