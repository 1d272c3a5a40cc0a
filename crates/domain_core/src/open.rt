//! How the files of a tag are opened.
ghost use Rattle.std.specs.Prelude.{◌≡◌, ℕ, List, IfOk, OnOk, Ok, Err, Some};
ghost use Rattle.agg_model.specs.declared.contents.Pair.{Pair};
ghost use Rattle.agg_model.specs.declared.entity.FileKind.{FileKind};
ghost use Rattle.agg_model.specs.declared.entity.FileKind.TheVariants.{Kv};
ghost use Rattle.agg_model.specs.Pairs.{ArePairs};
ghost use Rattle.word_file.specs.Spelling.{spelling};
ghost use Rattle.word_file.specs.Reading.{tagged};
ghost use Rattle.word_file.specs.Paired.{IsPaired, key_offsets};
ghost use Rattle.btree_index.specs.Levels as btree;
ghost use Rattle.hashed_words.specs.declared.error.FileError.TheVariants.{Bad};
ghost use Rattle.hashed_words.specs.Faults.{opened, named};
ghost use Rattle.domain_core.specs.KvFile.{words_of, ArePairWords};
ghost use Rattle.domain_core.specs.KvRules.{kv_rules, bt_fault};

use agg_model::FileKind;
use agg_outside::Bytes;
use btree_index::BTreeFile;
use hashed_words::{FileError, WordRules, count_plain_value, is_plain_key, open_words};
use std::alloc::Global;
use word_file::{Tag, WordFile};

/// What a `.kv` file asks of its words.
struct KvRules;

impl WordRules for KvRules {
    ghost use Rattle.domain_core.specs.KvRules.{kv_rules};

    ghost rules = { λ it. kv_rules };

    fn key_stands(&self, last: Option<&[u8]>, key: &[u8]) -> bool {
        is_plain_key(last, key)
    }

    fn count_value(&self, counted: u64, value: &[u8]) -> Option<u64> {
        count_plain_value(counted, value)
    }
}

/// The words of a `.kv` file of this tag.
pub(crate) fn open_kv(tag: Tag, kv: Bytes) -> Result<WordFile, FileError>
    ensures tag { IfOk result (λ f. f.tag ≡ tag) }
    ensures words { IfOk result (λ f. ArePairWords f.words) }
    ensures found { IfOk result (λ f. kv ≡ spelling f) }
    ensures only { (ps : List Pair) → ArePairs ps → kv ≡ spelling (tagged tag (words_of ps)) →
        result ≡ Ok (tagged tag (words_of ps)) }
    ensures exact { result ≡ named Kv (opened kv_rules tag kv) }
{
    open_words(&KvRules, FileKind::Kv, tag, kv)
}

/// The B-tree of the words, which takes no memory to check.
pub(crate) fn open_bt(alloc: Global, bt: Bytes, words: &WordFile) -> Result<BTreeFile, FileError>
    requires { IsPaired words.now.words }
    ensures ok { IfOk result (λ b. b ≡ key_offsets words.now.words) }
    ensures found { OnOk result (bt ≡ btree.spelling (key_offsets words.now.words)) }
    ensures only { bt ≡ btree.spelling (key_offsets words.now.words) → result ≡ Ok (key_offsets words.now.words) }
    ensures exact { (kind : FileKind) (at : ℕ) → result ≡ Err (Bad kind at) →
        bt_fault bt words.now ≡ Some (Bad kind at) }
{
    match BTreeFile::check(alloc, bt, words) {
        Ok(index) => Ok(index),
        Err(error) => Err(FileError::of_accessor(FileKind::Bt, error)),
    }
}
