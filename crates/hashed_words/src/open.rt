ghost use Rattle.std.specs.Prelude.{◌≡◌, IfOk, Ok, None};
ghost use Rattle.word_file.specs.Spelling.{TaggedWords, IsTag, AreShort, spelling};
ghost use Rattle.word_file.specs.Paired.{IsPaired};
ghost use Rattle.hashed_words.specs.Rules.{bad_place};
ghost use Rattle.hashed_words.specs.Faults.{word_fault, tag_difference, opened, named};

use crate::error::FileError;
use crate::rules::{WordRules, first_bad};
use agg_model::FileKind;
use agg_outside::Bytes;
use std::marker::Brand;
use std::sync::ledger::Blank;
use word_file::{Tag, WordError, WordFile};

/// Where bytes are no word file.
fn word_fault(error: WordError) -> u64
    ensures { result ≡ word_fault error }
{
    match error {
        WordError::Short { at } => at,
        WordError::Magic => 0,
        WordError::Count { .. } => 32,
    }
}

/// That each number of a tag has its bytes is known where they are read.
fn tag_fits(_tag: Tag)
    ensures { IsTag _tag }
{}

/// The offset of the first field in which the tags differ.
#[tactic(auto, unfolding(crate::specs::Faults::tag_difference))]
fn tag_difference(said: Tag, asked: Tag) -> Option<u64>
    ensures { result ≡ tag_difference said asked }
{
    if said.entity != asked.entity {
        return Some(4);
    }
    if said.kind != asked.kind {
        return Some(5);
    }
    if said.version != asked.version {
        return Some(6);
    }
    if said.step != asked.step {
        return Some(8);
    }
    if said.from != asked.from {
        return Some(16);
    }
    if said.to != asked.to {
        return Some(24);
    }
    None
}

/// The word file that the bytes are, if they are one of this tag, whose words come in pairs and keep the rules;
/// else where they first don't. It takes no memory and goes over the bytes twice.
pub fn open_words<R: WordRules>(
    rules: &R,
    kind: FileKind,
    tag: Tag,
    bytes: Bytes,
) -> Result<WordFile, FileError>
    // What is accepted is spelled so, under this tag, and keeps the rules.
    ensures tag { IfOk result (λ f. f.tag ≡ tag) }
    ensures paired { IfOk result (λ f. IsPaired f.words) }
    ensures short { IfOk result (λ f. AreShort f.words) }
    ensures found { IfOk result (λ f. bytes ≡ spelling f) }
    ensures keeps { IfOk result (λ f. bad_place (R.rules rules.now) f.words ≡ None) }
    // What is spelled so and keeps the rules is accepted.
    ensures only { (f : TaggedWords) → f.tag ≡ tag → AreShort f.words → bytes ≡ spelling f →
        bad_place (R.rules rules.now) f.words ≡ None → result ≡ Ok f }
    // Which refusal it is, and where.
    ensures exact { result ≡ named kind (opened (R.rules rules.now) tag bytes) }
{
    tag_fits(tag);
    // That there are fewer than 2^64 words comes with the length of the file.
    let _length = bytes.as_slice().len();
    let words = match WordFile::check(bytes) {
        Ok(words) => words,
        Err(error) => {
            let at = word_fault(error);
            return Err(FileError::Bad { kind, at });
        }
    };
    if let Some(at) = tag_difference(words.tag(), tag) {
        return Err(FileError::Bad { kind, at });
    }
    if let Some(at) = first_bad::<R, Brand>(rules, &words, Blank::new(1)) {
        return Err(FileError::Bad { kind, at });
    }
    Ok(words)
}
