ghost use Rattle.std.specs.Prelude.{◌≡◌, ◌+◌, ℕ, List, [], ◌++◌, take, drop, length, slice_range, vec_len, ◌≤◌, OnOk, OnErr, Some, None};
ghost use Rattle.std.specs.Option.{option_to_list};
ghost use Rattle.std.specs.Borrow.{sem};
ghost use Rattle.line_words.specs.LineCut.{piece_of, pieces_of, next_cut, last_from, rest_cut, cut_of, IsSearched};

use crate::lines::without_cr;
use agg_outside::Memory;
use memchr::{memchr, memrchr};
use std::alloc::Global;
use std::marker::Model;

/// What is cut off.
#[derive(Clone, Copy, Debug, PartialEq, Eq)]
pub enum Cutting<'a> {
    /// A line without its line end.
    Line(&'a [u8]),
    /// A line of more bytes than the limit, counted with the carriage return at its end.
    Long,
    /// No line end has come.
    NotYet,
}

/// Cuts a text that comes in pieces into lines. It keeps what has come of the line that has no end
/// yet, up to the limit and one byte more.
#[derive(Debug, Drop)]
pub struct LineCut {
    limit: u64,
    buffer: Vec<u8>,
    // How many bytes of the buffer are cut off.
    start: usize,
    // No line feed stands from `start` up to here.
    seen: usize,
}

impl Model for LineCut {
    ghost use Rattle.std.specs.Prelude.{drop};
    ghost use Rattle.line_words.specs.LineCut.{Uncut, IsSearched};

    ghost Value = { Uncut };

    ghost view = { λ c. record { limit = c.limit; left = drop c.start c.buffer.items } };

    ghost invariant = { λ c. IsSearched c.buffer.items c.start c.seen };
}

// The line from `start` to its end at `end`.
fn cut_off(limit: u64, text: &[u8], start: usize, end: usize) -> Cutting<'_>
    requires ordered { start ≤ end }
    requires within { end ≤ length text.now }
    ensures { cut_of result ≡ Some (piece_of limit (slice_range text.now start end)) }
{
    let line = &text[start..end];
    if line.len() as u64 > limit {
        return Cutting::Long;
    }
    Cutting::Line(without_cr(line))
}

// Where the last line of what is left begins.
fn last_line(text: &[u8], start: usize, seen: usize) -> usize
    requires { IsSearched text.now start seen }
    ensures from { start ≤ result }
    ensures within { result ≤ length text.now }
    ensures line { last_from [] (drop start text.now) ≡ drop result text.now }
{
    match memrchr(b'\n', &text[seen..]) {
        Some(ahead) => seen + ahead + 1,
        None => start,
    }
}

// Of a line that is too long already, one byte past the limit is kept.
fn hold_back(text: &mut Vec<u8>, start: usize, limit: u64)
    requires { start ≤ vec_len text.old }
    ensures { text.new.items ≡ take (start + limit + 1) text.old.items }
{
    if (text.len() - start) as u64 > limit {
        text.truncate(start + limit as usize + 1);
    }
}

impl LineCut {
    ghost use Rattle.line_words.specs.CutLends.{EndsWith};

    /// Nothing has come yet; takes no memory.
    pub fn new(alloc: Global, limit: u64) -> LineCut
        ensures { result ≡ record { limit = limit; left = [] } }
    {
        LineCut {
            limit,
            buffer: Vec::new(alloc),
            start: 0,
            seen: 0,
        }
    }

    /// Takes the next piece of the text. An `Err` changes nothing.
    pub fn push(&mut self, piece: &[u8]) -> Result<(), Memory>
        ensures ok { OnOk result (self.new ≡ record self.old { left = self.old.left ++ piece.now }) }
        ensures err { OnErr result (self.new ≡ self.old) }
    {
        self.compact();
        self.buffer.extend_from_slice(piece)?;
        Ok(())
    }

    // Once most of the buffer is cut off, what is left moves to its front: each byte of the text
    // moves once at most for each that was cut off.
    fn compact(&mut self)
        ensures { self.new ≡ self.old }
    {
        let left = self.buffer.len() - self.start;
        if self.start < left {
            return;
        }
        self.buffer.copy_within(self.start.., 0);
        self.buffer.truncate(left);
        self.seen -= self.start;
        self.start = 0;
    }

    /// Cuts off the first line that has its line feed.
    pub fn next(&mut self) -> Cutting<'_>
        ensures* leaves { sem 𝓛 (EndsWith self.entry (next_cut self.old).1) }
        ensures cut { cut_of result ≡ (next_cut self.old).0 }
        // What is cut off is the first line of the text, however it goes on.
        ensures lines { (later : List ℕ) → pieces_of self.old.limit (self.old.left ++ later)
            ≡ option_to_list (next_cut self.old).0 ++ pieces_of self.old.limit ((next_cut self.old).1 ++ later) }
    {
        let Some(ahead) = memchr(b'\n', &self.buffer[self.seen..]) else {
            hold_back(&mut self.buffer, self.start, self.limit);
            self.seen = self.buffer.len();
            return Cutting::NotYet;
        };
        let place = self.seen + ahead;
        let start = self.start;
        self.start = place + 1;
        self.seen = place + 1;
        cut_off(self.limit, self.buffer.as_slice(), start, place)
    }

    /// Cuts off all that has come: the last line, which has no line feed, where it has bytes. Lines
    /// that `next` hasn't given yet are lost.
    pub fn rest(&mut self) -> Cutting<'_>
        ensures* leaves { sem 𝓛 (EndsWith self.entry []) }
        ensures cut { cut_of result ≡ rest_cut self.old }
        // Once `next` gives none, it is all that is left of the text.
        ensures lines { (next_cut self.old).0 ≡ None → pieces_of self.old.limit self.old.left ≡ option_to_list (rest_cut self.old) }
    {
        let start = last_line(self.buffer.as_slice(), self.start, self.seen);
        let end = self.buffer.len();
        self.start = end;
        self.seen = end;
        if start == end {
            return Cutting::NotYet;
        }
        cut_off(self.limit, self.buffer.as_slice(), start, end)
    }
}
