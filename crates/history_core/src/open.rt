//! How files are opened.
ghost use Rattle.std.specs.Prelude.{◌≡◌, ℕ, List, IfOk, IfErr, OnOk, Ok, Err, Some};
ghost use Rattle.agg_model.specs.declared.contents.Before.{Before};
ghost use Rattle.agg_model.specs.declared.entity.FileKind.{FileKind};
ghost use Rattle.agg_model.specs.declared.entity.FileKind.TheVariants.{V, Vi};
ghost use Rattle.word_file.specs.Spelling.{spelling};
ghost use Rattle.word_file.specs.Reading.{tagged};
ghost use Rattle.hashed_words.specs.declared.error.FileError.TheVariants.{Bad, Memory as NoMemory};
ghost use Rattle.hashed_words.specs.Faults.{opened, named};
ghost use Rattle.hashed_words.specs.Hashed.{accessor_bytes};
ghost use Rattle.history_core.specs.Befores.{AreBefores};
ghost use Rattle.history_core.specs.KeyWord.{words_of};
ghost use Rattle.history_core.specs.Rules.{v_rules};
ghost use Rattle.history_core.specs.VFile.{IsHeld, file_fault};

use crate::rules::BeforeRules;
use agg_model::FileKind;
use agg_outside::{Bytes, slice_fits};
use hashed_words::{FileError, HashedWords, open_words};
use std::alloc::Global;
use word_file::{Tag, WordFile};

/// The words of a `.v` file of this tag.
pub(crate) fn open_v(tag: Tag, v: Bytes) -> Result<WordFile, FileError>
    ensures tag { IfOk result (λ f. f.tag ≡ tag) }
    ensures held { IfOk result (λ f. IsHeld f) }
    ensures found { IfOk result (λ f. v ≡ spelling f) }
    ensures only { (bs : List Before) → AreBefores tag bs → v ≡ spelling (tagged tag (words_of bs)) →
        result ≡ Ok (tagged tag (words_of bs)) }
    ensures exact { result ≡ named V (opened (v_rules tag) tag v) }
{
    slice_fits(v.as_slice());
    let rules = BeforeRules { tag };
    open_words(&rules, FileKind::V, tag, v)
}

/// The words of a `.v` file of this tag behind their accessor.
pub(crate) fn open_pair(
    alloc: Global,
    tag: Tag,
    v: Bytes,
    vi: Bytes,
) -> Result<HashedWords, FileError>
    ensures tag { IfOk result (λ f. f.tag ≡ tag) }
    ensures held { IfOk result (λ f. IsHeld f) }
    ensures found { IfOk result (λ f. v ≡ spelling f) }
    ensures accessor { IfOk result (λ f. vi ≡ accessor_bytes f.words) }
    ensures same { (bs : List Before) → AreBefores tag bs → v ≡ spelling (tagged tag (words_of bs)) →
        IfOk result (λ f. f ≡ tagged tag (words_of bs)) }
    ensures only { (bs : List Before) → AreBefores tag bs → v ≡ spelling (tagged tag (words_of bs)) →
        vi ≡ accessor_bytes (words_of bs) → IfErr result (λ e. e ≡ NoMemory) }
    ensures exact { (kind : FileKind) (at : ℕ) → result ≡ Err (Bad kind at) →
        file_fault tag v vi ≡ Some (Bad kind at) }
{
    match open_v(tag, v) {
        Ok(words) => HashedWords::check(alloc, FileKind::Vi, words, vi),
        Err(error) => Err(error),
    }
}
