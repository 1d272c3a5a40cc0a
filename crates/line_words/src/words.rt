ghost use Rattle.std.specs.Prelude.{◌≡◌, ◌^◌, ◌<◌, ◌⊎◌, [], ◌∷◌, IfOk, IfSome, MatchOption, MatchResult, Ok, Err};
ghost use Rattle.std.specs.Prelude.{ok_or, All};
ghost use Rattle.line_words.specs.Words.{words_of, number_of, bytes_of_word, entity_of_word, number_end_of};
ghost use Rattle.line_words.specs.Words.{key_end_of, limit_of_word, is_descending_of};
ghost use Rattle.line_words.specs.Requests.{Takes, word, no_more, IsNumber, IsLimit};
ghost use Rattle.line_words.specs.declared.request.LineError.TheVariants as errors;

use crate::request::LineError;
use agg_model::Entity;
use agg_outside::Bytes;
use memchr::memchr;
use std::alloc::Global;
use std::marker::Model;

/// How many rows or numbers one reply has at most.
pub const PAGE_MOST: u64 = 1_000;

/// The words of a line that are left to read. Each step takes a word, and is `Syntax` where none is
/// left or the word doesn't mean such a thing.
#[derive(Drop)]
pub(crate) struct Words<'a> {
    left: Option<&'a [u8]>,
}

impl<'a> Model for Words<'a> {
    ghost use Rattle.std.specs.Prelude.{List, ℕ};
    ghost use Rattle.line_words.specs.Words.{words_left};

    ghost Value = { List (List ℕ) };

    ghost view = { λ w. words_left w.left };
}

impl<'a> Words<'a> {
    pub(crate) fn of(line: &'a [u8]) -> Words<'a>
        ensures { result ≡ words_of line.now }
    {
        Words { left: Some(line) }
    }

    /// Takes the first word that is left.
    pub(crate) fn next(&mut self) -> Option<&'a [u8]>
        ensures { MatchOption result (self.old ≡ []) (λ word. self.old ≡ word.now ∷ self.new) }
    {
        let left = self.left?;
        match memchr(b' ', left) {
            Some(space) => {
                self.left = Some(&left[space + 1..]);
                Some(&left[..space])
            }
            None => {
                self.left = None;
                Some(left)
            }
        }
    }

    pub(crate) fn number(&mut self) -> Result<u64, LineError>
        ensures exact { Takes result self.new (word number_of self.old) }
        ensures within { IfOk result IsNumber }
    {
        let Some(word) = self.next() else {
            return Err(LineError::Syntax);
        };
        number(word)
    }

    pub(crate) fn entity(&mut self) -> Result<Entity, LineError>
        ensures { Takes result self.new (word entity_of_word self.old) }
    {
        let Some(word) = self.next() else {
            return Err(LineError::Syntax);
        };
        entity(word)
    }

    pub(crate) fn bytes(&mut self, alloc: Global) -> Result<Bytes, LineError>
        ensures exact { Takes result self.new (word bytes_of_word self.old) }
        ensures bytes { IfOk result (All (λ b. b < 256)) }
    {
        let Some(word) = self.next() else {
            return Err(LineError::Syntax);
        };
        bytes(alloc, word)
    }

    /// A number, or none at an open end.
    pub(crate) fn number_end(&mut self) -> Result<Option<u64>, LineError>
        ensures exact { Takes result self.new (word number_end_of self.old) }
        ensures within { IfOk result (λ end. IfSome end IsNumber) }
    {
        let Some(word) = self.next() else {
            return Err(LineError::Syntax);
        };
        number_end(word)
    }

    /// The bytes of a key, or none at an open end.
    pub(crate) fn key_end(&mut self, alloc: Global) -> Result<Option<Bytes>, LineError>
        ensures exact { Takes result self.new (word key_end_of self.old) }
        ensures bytes { IfOk result (λ end. IfSome end (All (λ b. b < 256))) }
    {
        let Some(word) = self.next() else {
            return Err(LineError::Syntax);
        };
        key_end(alloc, word)
    }

    pub(crate) fn limit(&mut self) -> Result<u64, LineError>
        ensures exact { Takes result self.new (word limit_of_word self.old) }
        ensures within { IfOk result IsLimit }
    {
        let Some(word) = self.next() else {
            return Err(LineError::Syntax);
        };
        limit(word)
    }

    pub(crate) fn is_descending(&mut self) -> Result<bool, LineError>
        ensures { Takes result self.new (word is_descending_of self.old) }
    {
        let Some(word) = self.next() else {
            return Err(LineError::Syntax);
        };
        is_descending(word)
    }

    /// No word may be left.
    pub(crate) fn end(&mut self) -> Result<(), LineError>
        ensures { Takes result [] (no_more self.old) }
    {
        match self.next() {
            Some(_) => Err(LineError::Syntax),
            None => Ok(()),
        }
    }
}

/// The number that a word is: 1 to 19 decimal digits, at most 2^63 - 1. All else is `Syntax`.
pub fn number(word: &[u8]) -> Result<u64, LineError>
    ensures exact { result ≡ ok_or (number_of word.now) errors.Syntax }
    ensures within { IfOk result (λ n. n < 2 ^ 63) }
{
    if word.is_empty() || word.len() > 19 {
        return Err(LineError::Syntax);
    }
    let mut n = 0u64;
    for digit in word {
        if !digit.is_ascii_digit() {
            return Err(LineError::Syntax);
        }
        n = n * 10 + u64::from(digit - b'0');
    }
    if n < 1 << 63 {
        Ok(n)
    } else {
        Err(LineError::Syntax)
    }
}

/// The bytes that a word spells.
fn bytes(alloc: Global, word: &[u8]) -> Result<Bytes, LineError>
    ensures exact { MatchResult result (λ b. ok_or (bytes_of_word word.now) errors.Syntax ≡ Ok b)
        (λ e. (e ≡ errors.Memory) ⊎ (ok_or (bytes_of_word word.now) errors.Syntax ≡ Err e)) }
    ensures bytes { IfOk result (All (λ b. b < 256)) }
{
    if word == b"-".as_slice() {
        return Ok(Bytes::from_vec(Vec::new(alloc)));
    }
    if word.is_empty() {
        return Err(LineError::Syntax);
    }
    Ok(Bytes::from_vec(hex::decode(alloc, word)?))
}

// The entity that a word names.
fn entity(word: &[u8]) -> Result<Entity, LineError>
    ensures { result ≡ ok_or (entity_of_word word.now) errors.Syntax }
{
    match Entity::of_name(word) {
        Some(entity) => Ok(entity),
        None => Err(LineError::Syntax),
    }
}

// An end that is a number, or open.
#[tactic(auto, unfolding(crate::specs::Words::open_or))]
fn number_end(word: &[u8]) -> Result<Option<u64>, LineError>
    ensures exact { result ≡ ok_or (number_end_of word.now) errors.Syntax }
    ensures within { IfOk result (λ end. IfSome end IsNumber) }
{
    if word == b"-".as_slice() {
        return Ok(None);
    }
    Ok(Some(number(word)?))
}

// An end that is a key, or open.
#[tactic(auto, unfolding(crate::specs::Words::open_or))]
fn key_end(alloc: Global, word: &[u8]) -> Result<Option<Bytes>, LineError>
    ensures exact { MatchResult result (λ end. ok_or (key_end_of word.now) errors.Syntax ≡ Ok end)
        (λ e. (e ≡ errors.Memory) ⊎ (ok_or (key_end_of word.now) errors.Syntax ≡ Err e)) }
    ensures bytes { IfOk result (λ end. IfSome end (All (λ b. b < 256))) }
{
    if word == b"-".as_slice() {
        return Ok(None);
    }
    Ok(Some(bytes(alloc, word)?))
}

// How many rows or numbers a page may have.
#[tactic(auto, unfolding(crate::specs::Words::limit_of_word))]
fn limit(word: &[u8]) -> Result<u64, LineError>
    ensures exact { result ≡ ok_or (limit_of_word word.now) errors.Syntax }
    ensures within { IfOk result IsLimit }
{
    let limit = number(word)?;
    if limit < 1 || PAGE_MOST < limit {
        return Err(LineError::Syntax);
    }
    Ok(limit)
}

// Whether the numbers of a page descend.
#[tactic(auto, unfolding(crate::specs::Words::is_descending_of))]
fn is_descending(word: &[u8]) -> Result<bool, LineError>
    ensures { result ≡ ok_or (is_descending_of word.now) errors.Syntax }
{
    if word == b"asc".as_slice() {
        return Ok(false);
    }
    if word == b"desc".as_slice() {
        return Ok(true);
    }
    Err(LineError::Syntax)
}
