ghost use Rattle.std.specs.Prelude.{◌≡◌, ◌⊎◌, MatchResult, IfOk, Ok, Err};
ghost use Rattle.line_words.specs.Requests.{Reads, IsRequest, length_fits, end_fits, holds_values, holds_marks};
ghost use Rattle.line_words.specs.Requests.{tx_request, put_request, del_request, mark_request, bare_request};
ghost use Rattle.line_words.specs.Requests.{close_request};
ghost use Rattle.line_words.specs.Requests.{latest_request, asof_request, range_request, history_request};
ghost use Rattle.line_words.specs.Requests.{index_request, read_of_words, request_of};
ghost use Rattle.line_words.specs.Words.{hex_error};
ghost use Rattle.line_words.specs.declared.request.LineError.TheVariants as errors;

use crate::words::Words;
use agg_model::{Entity, KEY_MOST, VALUE_MOST};
use agg_outside::Bytes;
use hex::FromHexError;
use std::alloc::Global;

/// What a line asks for. Numbers are at most 2^63 - 1. A transaction's number comes first, and the
/// limit of a page, from 1 to 1,000, last; none is an open end.
#[derive(Debug, Drop, PartialEq, Eq)]
pub enum Request {
    /// Later changes have this number.
    Tx(u64),
    /// The key of a domain has this value from the next number on.
    Put(Entity, Bytes, Bytes),
    /// The key of a domain has no value from the next number on.
    Del(Entity, Bytes),
    /// The key of an index occurs at the number.
    Mark(Entity, Bytes),
    /// Accept the pending changes.
    Commit,
    /// Open a read transaction.
    Open,
    /// Close the read transaction of this number.
    Close(u64),
    /// The latest value of a domain's key that the read transaction of this number sees.
    Latest(u64, Entity, Bytes),
    /// The value of a domain's key just before a number.
    Asof(u64, Entity, u64, Bytes),
    /// The keys of a domain from one on and below another that have a value just before a number.
    Range(u64, Entity, u64, Option<Bytes>, Option<Bytes>, u64),
    /// The keys of a domain, from one on, that changed at numbers from one on and below another.
    History(u64, Entity, Option<u64>, Option<u64>, Option<Bytes>, u64),
    /// The numbers from one on and below another at which a key changed, descending where it says so.
    Index(u64, Entity, Bytes, Option<u64>, Option<u64>, bool, u64),
    /// Write all complete steps to files, and name the files.
    Settle,
}

/// Why a line makes no request.
#[derive(Clone, Copy, Debug, PartialEq, Eq)]
pub enum LineError {
    /// The line is of no form.
    Syntax,
    /// A key isn't of 1 to 64 bytes, or a value not of 1 to 65,535: the length.
    Length(u64),
    /// The entity is an index where the form wants a domain, or a domain where it wants an index.
    Entity,
    /// Memory could not be had.
    Memory,
}

impl From<FromHexError> for LineError {
    ghost from_gives = { λ e r. r ≡ hex_error e };

    fn from(e: FromHexError) -> LineError {
        match e {
            FromHexError::OutOfMemory => LineError::Memory,
            _ => LineError::Syntax,
        }
    }
}

fn check_length(most: u64, bytes: &Bytes) -> Result<(), LineError>
    ensures { result ≡ length_fits most bytes.now }
{
    let length = bytes.as_slice().len() as u64;
    if length < 1 || most < length {
        return Err(LineError::Length(length));
    }
    Ok(())
}

// An open end is no key.
fn check_end(end: &Option<Bytes>) -> Result<(), LineError>
    ensures { result ≡ end_fits end.now }
{
    match end {
        Some(key) => check_length(KEY_MOST, key),
        None => Ok(()),
    }
}

fn check_domain(entity: Entity) -> Result<(), LineError>
    ensures { result ≡ holds_values entity }
{
    if entity.is_domain() {
        Ok(())
    } else {
        Err(LineError::Entity)
    }
}

fn check_index(entity: Entity) -> Result<(), LineError>
    ensures { result ≡ holds_marks entity }
{
    if entity.is_domain() {
        Err(LineError::Entity)
    } else {
        Ok(())
    }
}

#[tactic(auto, unfolding(crate::specs::Requests::bare_request))]
fn bare(request: Request, mut words: Words<'_>) -> Result<Request, LineError>
    ensures exact { Reads result (bare_request request words.entry) }
    ensures fits { IsRequest request → IfOk result IsRequest }
{
    words.end()?;
    Ok(request)
}

#[tactic(auto, unfolding(crate::specs::Requests::tx_request))]
fn tx(mut words: Words<'_>) -> Result<Request, LineError>
    ensures exact { Reads result (tx_request words.entry) }
    ensures fits { IfOk result IsRequest }
{
    let n = words.number()?;
    words.end()?;
    Ok(Request::Tx(n))
}

#[tactic(auto, unfolding(crate::specs::Requests::close_request))]
fn close(mut words: Words<'_>) -> Result<Request, LineError>
    ensures exact { Reads result (close_request words.entry) }
    ensures fits { IfOk result IsRequest }
{
    let t = words.number()?;
    words.end()?;
    Ok(Request::Close(t))
}

#[tactic(auto, unfolding(crate::specs::Requests::put_request))]
fn put(alloc: Global, mut words: Words<'_>) -> Result<Request, LineError>
    ensures exact { Reads result (put_request words.entry) }
    ensures fits { IfOk result IsRequest }
{
    let e = words.entity()?;
    let k = words.bytes(alloc)?;
    let v = words.bytes(alloc)?;
    words.end()?;
    check_length(KEY_MOST, &k)?;
    check_length(VALUE_MOST, &v)?;
    check_domain(e)?;
    Ok(Request::Put(e, k, v))
}

#[tactic(auto, unfolding(crate::specs::Requests::del_request))]
fn del(alloc: Global, mut words: Words<'_>) -> Result<Request, LineError>
    ensures exact { Reads result (del_request words.entry) }
    ensures fits { IfOk result IsRequest }
{
    let e = words.entity()?;
    let k = words.bytes(alloc)?;
    words.end()?;
    check_length(KEY_MOST, &k)?;
    check_domain(e)?;
    Ok(Request::Del(e, k))
}

#[tactic(auto, unfolding(crate::specs::Requests::mark_request))]
fn mark(alloc: Global, mut words: Words<'_>) -> Result<Request, LineError>
    ensures exact { Reads result (mark_request words.entry) }
    ensures fits { IfOk result IsRequest }
{
    let e = words.entity()?;
    let k = words.bytes(alloc)?;
    words.end()?;
    check_length(KEY_MOST, &k)?;
    check_index(e)?;
    Ok(Request::Mark(e, k))
}

#[tactic(auto, unfolding(crate::specs::Requests::latest_request))]
fn latest(alloc: Global, mut words: Words<'_>) -> Result<Request, LineError>
    ensures exact { Reads result (latest_request words.entry) }
    ensures fits { IfOk result IsRequest }
{
    let t = words.number()?;
    let e = words.entity()?;
    let k = words.bytes(alloc)?;
    words.end()?;
    check_length(KEY_MOST, &k)?;
    check_domain(e)?;
    Ok(Request::Latest(t, e, k))
}

#[tactic(auto, unfolding(crate::specs::Requests::asof_request))]
fn asof(alloc: Global, mut words: Words<'_>) -> Result<Request, LineError>
    ensures exact { Reads result (asof_request words.entry) }
    ensures fits { IfOk result IsRequest }
{
    let t = words.number()?;
    let e = words.entity()?;
    let n = words.number()?;
    let k = words.bytes(alloc)?;
    words.end()?;
    check_length(KEY_MOST, &k)?;
    check_domain(e)?;
    Ok(Request::Asof(t, e, n, k))
}

#[tactic(auto, unfolding(crate::specs::Requests::range_request))]
fn range(alloc: Global, mut words: Words<'_>) -> Result<Request, LineError>
    ensures exact { Reads result (range_request words.entry) }
    ensures fits { IfOk result IsRequest }
{
    let t = words.number()?;
    let e = words.entity()?;
    let n = words.number()?;
    let from = words.key_end(alloc)?;
    let to = words.key_end(alloc)?;
    let limit = words.limit()?;
    words.end()?;
    check_end(&from)?;
    check_end(&to)?;
    check_domain(e)?;
    Ok(Request::Range(t, e, n, from, to, limit))
}

#[tactic(auto, unfolding(crate::specs::Requests::history_request))]
fn history(alloc: Global, mut words: Words<'_>) -> Result<Request, LineError>
    ensures exact { Reads result (history_request words.entry) }
    ensures fits { IfOk result IsRequest }
{
    let t = words.number()?;
    let e = words.entity()?;
    let a = words.number_end()?;
    let b = words.number_end()?;
    let from = words.key_end(alloc)?;
    let limit = words.limit()?;
    words.end()?;
    check_end(&from)?;
    check_domain(e)?;
    Ok(Request::History(t, e, a, b, from, limit))
}

#[tactic(auto, unfolding(crate::specs::Requests::index_request))]
fn index(alloc: Global, mut words: Words<'_>) -> Result<Request, LineError>
    ensures exact { Reads result (index_request words.entry) }
    ensures fits { IfOk result IsRequest }
{
    let t = words.number()?;
    let e = words.entity()?;
    let k = words.bytes(alloc)?;
    let a = words.number_end()?;
    let b = words.number_end()?;
    let descends = words.is_descending()?;
    let limit = words.limit()?;
    words.end()?;
    check_length(KEY_MOST, &k)?;
    Ok(Request::Index(t, e, k, a, b, descends, limit))
}

// The forms of reads.
#[tactic(auto, unfolding(crate::specs::Requests::read_of_words))]
fn read_of(alloc: Global, form: &[u8], words: Words<'_>) -> Result<Request, LineError>
    ensures exact { Reads result (read_of_words form.now words.entry) }
    ensures fits { IfOk result IsRequest }
{
    if form == b"latest".as_slice() {
        return latest(alloc, words);
    }
    if form == b"asof".as_slice() {
        return asof(alloc, words);
    }
    if form == b"range".as_slice() {
        return range(alloc, words);
    }
    if form == b"history".as_slice() {
        return history(alloc, words);
    }
    if form == b"index".as_slice() {
        return index(alloc, words);
    }
    Err(LineError::Syntax)
}

impl Request {
    /// The request that a line makes, which has neither its line feed nor the carriage return
    /// before that. `Syntax` goes before `Length`; of lengths a key's goes before a value's, and that
    /// of the first end before the second's; `Entity` comes last.
    #[tactic(auto, unfolding(crate::specs::Requests::request_of_words))]
    pub fn read(alloc: Global, line: &[u8]) -> Result<Request, LineError>
        ensures exact { MatchResult result (λ r. request_of line.now ≡ Ok r)
            (λ e. (e ≡ errors.Memory) ⊎ (request_of line.now ≡ Err e)) }
        ensures fits { IfOk result IsRequest }
    {
        let mut words = Words::of(line);
        let Some(form) = words.next() else {
            return Err(LineError::Syntax);
        };
        if form == b"tx".as_slice() {
            return tx(words);
        }
        if form == b"put".as_slice() {
            return put(alloc, words);
        }
        if form == b"del".as_slice() {
            return del(alloc, words);
        }
        if form == b"mark".as_slice() {
            return mark(alloc, words);
        }
        if form == b"commit".as_slice() {
            return bare(Request::Commit, words);
        }
        if form == b"open".as_slice() {
            return bare(Request::Open, words);
        }
        if form == b"close".as_slice() {
            return close(words);
        }
        if form == b"settle".as_slice() {
            return bare(Request::Settle, words);
        }
        read_of(alloc, form, words)
    }
}
