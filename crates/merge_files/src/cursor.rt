//! A place in the words of a file, between two pairs.
ghost use Rattle.std.specs.Prelude.{◌≡◌, ℕ, ◌<◌, [], drop, MatchOption};
ghost use Rattle.domain_core.specs.KvFile.{pairs_in, words_of};
ghost use Rattle.word_file.specs.Paired.{IsPaired, key_at};
ghost use Rattle.hashed_words.specs.Hashed.{value_at, IsPairAt, StartsPair};
ghost use Rattle.merge_files.specs.Cursors.{BeginsWith};

use agg_outside::Steps;
use std::marker::{Brand, Model};
use std::sync::ledger::{Blank, Ledger};
use word_file::{WordFile, key_after};

/// What is left of the pairs of a file.
#[derive(Debug, Drop)]
pub(crate) struct Cursor<'a> {
    words: &'a WordFile,
    // The offset of the first key word that is left.
    at: Option<u64>,
    // How many pairs have been passed.
    place: u64,
}

impl<'a> Model for Cursor<'a> {
    ghost use Rattle.std.specs.Prelude.{List, drop};
    ghost use Rattle.agg_model.specs.declared.contents.Pair.{Pair};
    ghost use Rattle.domain_core.specs.KvFile.{pairs_in};
    ghost use Rattle.merge_files.specs.Cursors.{IsCursor};

    ghost Value = { List Pair };

    ghost view = { λ c. drop c.place (pairs_in c.words.now.words) };

    ghost invariant = { λ c. IsCursor c.words.now.words c.at c.place };
}

fn value_behind<'a, L: Ledger>(words: &'a WordFile, at: u64, steps: &mut Steps<L>) -> &'a [u8]
    requires starts { StartsPair words.now.words at }
    requires paired { IsPaired words.now.words }
    ensures { (p : ℕ) → IsPairAt words.now.words at p → result.now ≡ value_at words.now.words p }
{
    let Some(behind) = words.next(at) else {
        unreachable!()
    };
    words.word_at(behind, steps)
}

fn pair_in<'a, L: Ledger>(words: &'a WordFile, at: u64, blank: Blank) -> (&'a [u8], &'a [u8])
    requires name { blank.name ≡ L.name }
    requires parts { blank.parts ≡ L.parts }
    requires some { 0 < L.parts }
    requires starts { StartsPair words.now.words at }
    requires paired { IsPaired words.now.words }
    ensures key { (p : ℕ) → IsPairAt words.now.words at p → result.0.now ≡ key_at words.now.words p }
    ensures value { (p : ℕ) → IsPairAt words.now.words at p → result.1.now ≡ value_at words.now.words p }
{
    let mut steps = Steps::<L>::of(blank);
    let key = words.word_at(at, &mut steps);
    let value = value_behind(words, at, &mut steps);
    (key, value)
}

// The key word at an offset, and its value word.
fn pair_at(words: &WordFile, at: u64) -> (&[u8], &[u8])
    requires starts { StartsPair words.now.words at }
    requires paired { IsPaired words.now.words }
    ensures key { (p : ℕ) → IsPairAt words.now.words at p → result.0.now ≡ key_at words.now.words p }
    ensures value { (p : ℕ) → IsPairAt words.now.words at p → result.1.now ≡ value_at words.now.words p }
{
    pair_in::<Brand>(words, at, Blank::new(1))
}

impl<'a> Cursor<'a> {
    /// All pairs of the file are left.
    pub(crate) fn of(words: &'a WordFile) -> Cursor<'a>
        requires { words.now.words ≡ words_of (pairs_in words.now.words) }
        ensures { result ≡ pairs_in words.now.words }
    {
        // That there are fewer than 2^64 words comes with their number.
        let _count = words.count();
        Cursor {
            words,
            at: words.first(),
            place: 0,
        }
    }

    /// The first pair that is left.
    pub(crate) fn first(&self) -> Option<(&'a [u8], &'a [u8])>
        ensures { MatchOption result (self.now ≡ []) (λ x. BeginsWith self.now x.0.now x.1.now) }
    {
        match self.at {
            Some(at) => Some(pair_at(self.words, at)),
            None => None,
        }
    }

    /// Passes the first pair.
    pub(crate) fn pass(&mut self)
        ensures { self.new ≡ drop 1 self.old }
    {
        if let Some(at) = self.at {
            self.at = key_after(self.words, at);
            self.place += 1;
        }
    }
}
