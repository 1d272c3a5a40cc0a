//! The `.kv` file of an entity over a range of steps.
ghost use Rattle.std.specs.Prelude.{◌≡◌, ℕ, ◌+◌, ◌*◌, ◌<◌, ◌≤◌, ◌^◌, length, slice_get, IfOk, IfErr, Err, Some};
ghost use Rattle.std.specs.Option.{option_copied};
ghost use Rattle.btree_index.specs.Levels.{levels};
ghost use Rattle.agg_model.specs.declared.entity.FileKind.{FileKind};
ghost use Rattle.agg_model.specs.Pairs.{ArePairs, word_in};
ghost use Rattle.word_file.specs.Reading.{tagged};
ghost use Rattle.hashed_words.specs.declared.error.FileError.TheVariants.{Bad, Memory as NoMemory};
ghost use Rattle.domain_core.specs.KvRules.{kv_fault};
ghost use Rattle.domain_core.specs.KvFile.{TaggedPairs, tagged_pairs, words_of, pairs_in, kv_spelling, bt_spelling, kvi_spelling, kvi_form, ArePairWords, AreFilesOf, IsFirstNotBelow};

use crate::open::{open_bt, open_kv};
use crate::parts::{first_place, look_up, pair_in};
use agg_model::FileKind;
use agg_outside::{Bytes, Memory, Steps};
use btree_index::BTreeFile;
use hashed_words::{FileError, HashedWords};
use std::alloc::Global;
use std::marker::Model;
use std::sync::ledger::Ledger;
use word_file::{Tag, WordFile};

/// Pairs of a key and a value, by key, with what they are of.
#[derive(Debug, Drop)]
pub struct KvFile {
    words: HashedWords,
    index: BTreeFile,
}

impl Model for KvFile {
    ghost use Rattle.domain_core.specs.KvFile.{TaggedPairs, tagged_pairs, pairs_in, IsHeld};

    ghost Value = { TaggedPairs };

    ghost view = { λ f. tagged_pairs f.words.tag (pairs_in f.words.words) };

    ghost invariant = { λ f. IsHeld f.words f.index };
}

impl KvFile {
    ghost use Rattle.domain_core.specs.KvFile.{IsHeld};

    fn of_parts(words: HashedWords, index: BTreeFile) -> KvFile
        requires { IsHeld words index }
        ensures { result ≡ tagged_pairs words.tag (pairs_in words.words) }
    {
        KvFile { words, index }
    }

    /// The file of words that are known to be those of pairs: its accessors are built.
    pub fn of(alloc: Global, words: WordFile) -> Result<KvFile, Memory>
        requires { ArePairWords words.words }
        ensures { IfOk result (λ file. file ≡ tagged_pairs words.tag (pairs_in words.words)) }
    {
        let index = BTreeFile::build(alloc, &words)?;
        let words = HashedWords::of(alloc, words)?;
        Ok(KvFile::of_parts(words, index))
    }

    /// The file of the tag whose three texts these are: the words, their B-tree and their hash accessor.
    pub fn check(
        alloc: Global,
        tag: Tag,
        kv: Bytes,
        bt: Bytes,
        kvi: Bytes,
    ) -> Result<KvFile, FileError>
        // What is accepted is spelled so, under this tag.
        ensures found { IfOk result (λ file. AreFilesOf tag kv bt kvi file) }
        // What is spelled so is refused for want of memory alone.
        ensures only { (file : TaggedPairs) → AreFilesOf tag kv bt kvi file → IfErr result (λ e. e ≡ NoMemory) }
        // Where the first of the three that is wrong is wrong first.
        ensures exact { (kind : FileKind) (at : ℕ) → result ≡ Err (Bad kind at) →
            kv_fault tag kv bt kvi ≡ Some (Bad kind at) }
    {
        let words = match open_kv(tag, kv) {
            Ok(words) => words,
            Err(error) => return Err(error),
        };
        let index = match open_bt(alloc, bt, &words) {
            Ok(index) => index,
            Err(error) => return Err(error),
        };
        match HashedWords::check(alloc, FileKind::Kvi, words, kvi) {
            Ok(words) => Ok(KvFile::of_parts(words, index)),
            Err(error) => Err(error),
        }
    }

    /// What the file is of.
    pub fn tag(&self) -> Tag
        ensures { result ≡ self.now.tag }
    {
        self.words.words().tag()
    }

    /// The words of the file: a key, its value, the next key and so on.
    pub fn words(&self) -> &WordFile
        ensures { result.now ≡ tagged self.now.tag (words_of self.now.pairs) }
    {
        self.words.words()
    }

    /// The whole file.
    pub fn bytes(&self) -> &[u8]
        ensures { result.now ≡ kv_spelling self.now }
    {
        self.words.words().bytes()
    }

    /// Its whole B-tree, which is a file of its own.
    pub fn bt_bytes(&self) -> &[u8]
        ensures { result.now ≡ bt_spelling self.now }
    {
        self.index.bytes()
    }

    /// Its whole hash accessor, which is a file of its own.
    pub fn kvi_bytes(&self) -> &[u8]
        ensures { result.now ≡ kvi_spelling self.now }
    {
        self.words.accessor()
    }

    /// The form of the hash accessor.
    pub fn form(&self) -> u8
        ensures { result ≡ kvi_form self.now }
    {
        self.words.form()
    }

    /// The number of pairs.
    pub fn len(&self) -> u64
        ensures count { result ≡ length self.now.pairs }
        // Keys ascend, and lengths are within their limits.
        ensures pairs { ArePairs self.now.pairs }
    {
        self.index.count()
    }

    /// The stored value of a key, which is empty for a deleted one; `None` where the key isn't there.
    pub fn get<L: Ledger>(&self, key: &[u8], steps: &mut Steps<L>) -> Option<&[u8]>
        ensures value { option_copied result ≡ word_in self.now.pairs key.now }
        ensures split_steps { kvi_form self.now ≡ 1 → steps.new ≤ steps.old + 2 }
        ensures plain_steps { (digits : ℕ) → length self.now.pairs < 2 ^ digits → steps.new ≤ steps.old + (digits + 2) }
        ensures steps { steps.new ≤ steps.old + (8 * levels (length self.now.pairs) + 4) }
    {
        look_up(&self.words, key, steps)
    }

    /// The place of the first key that isn't below this one, or the number of pairs.
    pub fn seek<L: Ledger>(&self, key: &[u8], steps: &mut Steps<L>) -> u64
        ensures place { IsFirstNotBelow self.now.pairs key.now result }
        ensures steps { steps.new ≤ steps.old + (8 * levels (length self.now.pairs) + 2) }
    {
        first_place(&self.words, &self.index, key, steps)
    }

    /// The key and the value at a place.
    pub fn pair_at<L: Ledger>(&self, place: u64, steps: &mut Steps<L>) -> (&[u8], &[u8])
        requires { place < length self.now.pairs }
        ensures pair { slice_get self.now.pairs place ≡ Some (record { key = result.0.now; value = result.1.now }) }
        ensures steps { steps.new ≡ steps.old + 2 }
    {
        pair_in(&self.words, &self.index, place, steps)
    }
}
