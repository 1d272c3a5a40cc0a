//! The `.ef` file of an entity over a range of steps.
ghost use Rattle.std.specs.Prelude.{◌≡◌, ℕ, ◌+◌, ◌<◌, ◌≤◌, ◌^◌, List, length, slice_get, Some, None, IfOk, OnOk, IfSome, IfNone, Err, MatchResult};
ghost use Rattle.agg_model.specs.declared.contents.Times.{Times};
ghost use Rattle.agg_model.specs.declared.entity.FileKind.{FileKind};
ghost use Rattle.word_file.specs.Spelling.{TaggedWords};
ghost use Rattle.word_file.specs.Reading.{tagged};
ghost use Rattle.recsplit_index.specs.Keys.{IsKeyAt, IsNoKey};
ghost use Rattle.hashed_words.specs.Hashed.{form_of, ArePairs, IsPairAt, StartsPair};
ghost use Rattle.hashed_words.specs.declared.error.FileError.TheVariants.{Bad, Memory as NoMemory};
ghost use Rattle.inverted_index.specs.EfFile.{TaggedLists, tagged_lists, AreLists, AreWordsOf, words_of, numbers_of, first_from, ef_spelling, efi_spelling};
ghost use Rattle.inverted_index.specs.EfRules.{fault_of};

use crate::parts::{first_in, list_in, pair_in};
use crate::rules::EfRules;
use agg_model::FileKind;
use agg_outside::{Bytes, Memory, Steps};
use elias_fano::EfList;
use hashed_words::{FileError, HashedWords, open_words};
use std::alloc::Global;
use std::marker::Model;
use std::sync::ledger::Ledger;
use word_file::{Tag, WordFile};

/// Keys, each with the numbers at which it changed, by key, with what they are of.
#[derive(Debug, Drop)]
pub struct EfFile {
    held: HashedWords,
}

impl Model for EfFile {
    ghost use Rattle.inverted_index.specs.EfFile.{TaggedLists, tagged_lists, lists_in, IsHeld};

    ghost Value = { TaggedLists };

    ghost view = { λ f. tagged_lists f.held.tag (lists_in f.held.words) };

    ghost invariant = { λ f. IsHeld f.held };
}

impl EfFile {
    /// The file that these words are known to be, with its accessor.
    pub fn of(alloc: Global, words: WordFile) -> Result<EfFile, Memory>
        requires { (lists : List Times) × AreWordsOf words lists }
        ensures { IfOk result (λ file. (lists : List Times) → AreWordsOf words lists →
            file ≡ tagged_lists words.tag lists) }
    {
        let held = HashedWords::of(alloc, words)?;
        Ok(EfFile { held })
    }

    /// The file and its accessor, where the bytes are those of some lists under this tag.
    pub fn check(alloc: Global, tag: Tag, ef: Bytes, efi: Bytes) -> Result<EfFile, FileError>
        // What is accepted is spelled so.
        ensures tag { IfOk result (λ file. file.tag ≡ tag) }
        ensures lists { IfOk result (λ file. AreLists tag file.lists) }
        ensures found { IfOk result (λ file. ef ≡ ef_spelling file) }
        ensures found_accessor { IfOk result (λ file. efi ≡ efi_spelling file) }
        // What is spelled so is accepted, or refused for want of memory.
        ensures only { (lists : List Times) → AreLists tag lists → ef ≡ ef_spelling (tagged_lists tag lists) →
            efi ≡ efi_spelling (tagged_lists tag lists) →
            MatchResult result (λ file. file ≡ tagged_lists tag lists) (λ e. e ≡ NoMemory) }
        // Which refusal it is, and where.
        ensures fine { OnOk result (fault_of tag ef efi ≡ None) }
        ensures exact { (kind : FileKind) (at : ℕ) → result ≡ Err (Bad kind at) →
            fault_of tag ef efi ≡ Some (Bad kind at) }
    {
        let rules = EfRules { tag };
        let words = open_words(&rules, FileKind::Ef, tag, ef)?;
        let held = HashedWords::check(alloc, FileKind::Efi, words, efi)?;
        Ok(EfFile { held })
    }

    /// What the file is of.
    pub fn tag(&self) -> Tag
        ensures { result ≡ self.now.tag }
    {
        self.held.words().tag()
    }

    /// The words: each key, and behind it the text of its numbers.
    pub fn words(&self) -> &WordFile
        ensures words { result.now ≡ tagged self.now.tag (words_of self.now.lists) }
        ensures lists { AreLists self.now.tag self.now.lists }
    {
        self.held.words()
    }

    /// The whole file.
    pub fn bytes(&self) -> &[u8]
        ensures { result.now ≡ ef_spelling self.now }
    {
        self.held.words().bytes()
    }

    /// The whole accessor.
    pub fn efi_bytes(&self) -> &[u8]
        ensures { result.now ≡ efi_spelling self.now }
    {
        self.held.accessor()
    }

    /// The offset of the key's word; `None` where it is no key.
    pub fn offset_of<L: Ledger>(&self, key: &[u8], steps: &mut Steps<L>) -> Option<u64>
        ensures found { IfSome result (λ at. IsKeyAt (words_of self.now.lists) key.now at) }
        ensures none { IfNone result (IsNoKey (words_of self.now.lists) key.now) }
        ensures split_steps { form_of (words_of self.now.lists) ≡ 1 → steps.new ≤ steps.old + 1 }
        ensures plain_steps { (digits : ℕ) → length self.now.lists < 2 ^ digits → steps.new ≤ steps.old + (digits + 1) }
    {
        self.held.find(key, steps)
    }

    /// The numbers of a key; `None` where it is no key. No number is read.
    pub fn list<L: Ledger>(&self, key: &[u8], steps: &mut Steps<L>) -> Option<EfList<'_>>
        ensures numbers { result ≡ numbers_of self.now.lists key.now }
        ensures split_steps { form_of (words_of self.now.lists) ≡ 1 → steps.new ≤ steps.old + 2 }
        ensures plain_steps { (digits : ℕ) → length self.now.lists < 2 ^ digits → steps.new ≤ steps.old + (digits + 2) }
    {
        list_in(&self.held, key, steps)
    }

    /// The first number of a key that isn't below `n`.
    pub fn first_from<L: Ledger>(&self, key: &[u8], n: u64, steps: &mut Steps<L>) -> Option<u64>
        ensures number { result ≡ first_from self.now.lists key.now n }
        ensures split_steps { form_of (words_of self.now.lists) ≡ 1 → steps.new ≤ steps.old + 2 }
        ensures plain_steps { (digits : ℕ) → length self.now.lists < 2 ^ digits → steps.new ≤ steps.old + (digits + 2) }
    {
        match self.list(key, steps) {
            Some(list) => first_in(&list, n),
            None => None,
        }
    }

    /// Where some of its pairs start: each eighth from the first on, in order.
    pub fn starts(&self) -> &[u64]
        ensures { ArePairs (words_of self.now.lists) result.now }
    {
        self.held.starts()
    }

    /// The key whose word starts at this offset, and its numbers.
    pub fn pair_at(&self, at: u64) -> (&[u8], EfList<'_>)
        requires { StartsPair (words_of self.now.lists) at }
        ensures { (place : ℕ) → IsPairAt (words_of self.now.lists) at place →
            slice_get self.now.lists place ≡ Some (record { key = result.0.now; items = result.1 }) }
    {
        pair_in(&self.held, at)
    }
}
