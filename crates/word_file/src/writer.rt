ghost use Rattle.std.specs.Prelude.{◌≡◌, ◌<◌, ◌≤◌, ◌^◌, ◌++◌, [], ◌∷◌, length, take, drop, IfOk, OnOk, OnErr};
ghost use Rattle.std.specs.Int.{w64, to_be_bytes};
ghost use Rattle.word_file.specs.Spelling.{TaggedWords, Fits, IsTag, IsPlace, header, word_bytes, end_of};
ghost use Rattle.word_file.specs.Reading.{tagged};

use crate::file::WordFile;
use crate::read::{HEADER, MAGIC};
use crate::tag::Tag;
use agg_outside::{Bytes, Memory};
use file_numbers::{put_u16, put_u32, put_u64, set_u64};
use std::alloc::Global;
use std::marker::Model;

/// A word file while it is written.
#[derive(Debug, Drop)]
pub struct WordWriter {
    tag: Tag,
    count: u64,
    bytes: Vec<u8>,
}

impl Model for WordWriter {
    ghost use Rattle.word_file.specs.Spelling.{TaggedWords};
    ghost use Rattle.word_file.specs.Reading.{tagged, words_in, IsBegun};

    ghost Value = { TaggedWords };

    ghost view = { λ w. tagged w.tag (words_in w.bytes.items) };

    ghost invariant = { λ w. IsBegun w.tag w.count w.bytes.items };
}

/// A header that says that there are no words, with room for `room` bytes of words behind it.
#[tactic(auto, unfolding(crate::specs::Spelling::header))]
fn new_header(alloc: Global, tag: Tag, room: usize) -> Result<Vec<u8>, Memory>
    ensures header { IfOk result (λ out. out.items ≡ header tag 0) }
    ensures fits { OnOk result (IsTag tag) }
{
    let mut out = Vec::with_capacity(alloc, HEADER.saturating_add(room))?;
    put_u32(&mut out, MAGIC)?;
    out.push(tag.entity)?;
    out.push(tag.kind)?;
    put_u16(&mut out, tag.version)?;
    put_u64(&mut out, tag.step)?;
    put_u64(&mut out, tag.from)?;
    put_u64(&mut out, tag.to)?;
    put_u64(&mut out, 0)?;
    Ok(out)
}

/// Adds the word with its length in front of it.
#[tactic(auto, unfolding(crate::specs::Spelling::word_bytes))]
fn put_word(out: &mut Vec<u8>, word: &[u8]) -> Result<(), Memory>
    requires { length word.now < 2 ^ 32 }
    ensures ok { OnOk result (out.new.items ≡ out.old.items ++ word_bytes word.now) }
    ensures err { OnErr result (out.new.items ≡ out.old.items) }
{
    let start = out.len();
    put_u32(out, word.len() as u32)?;
    if out.extend_from_slice(word).is_err() {
        out.truncate(start);
        return Err(Memory);
    }
    Ok(())
}

fn put_count(bytes: &mut [u8], count: u64)
    requires { 40 ≤ length bytes.old }
    ensures { bytes.new ≡ take 32 bytes.old ++ (to_be_bytes w64 count ++ drop 40 bytes.old) }
{
    set_u64(bytes, 32, count);
}

impl WordWriter {
    /// No words yet.
    pub fn new(alloc: Global, tag: Tag) -> Result<WordWriter, Memory>
        ensures { IfOk result (λ w. w ≡ tagged tag []) }
    {
        WordWriter::with_room(alloc, tag, 0)
    }

    /// No words yet, and room for `room` bytes of words, each of which takes 4 more than its length. Where
    /// that is enough, no `push` asks for memory.
    pub fn with_room(alloc: Global, tag: Tag, room: usize) -> Result<WordWriter, Memory>
        ensures { IfOk result (λ w. w ≡ tagged tag []) }
    {
        let bytes = new_header(alloc, tag, room)?;
        Ok(WordWriter {
            tag,
            count: 0,
            bytes,
        })
    }

    /// Adds the word at the end, and answers its offset.
    pub fn push(&mut self, word: &[u8]) -> Result<u64, Memory>
        requires { length word.now < 2 ^ 32 }
        ensures ok { OnOk result (self.new ≡ tagged self.old.tag (self.old.words ++ word.now ∷ [])) }
        ensures offset { IfOk result (λ at. at ≡ end_of self.old.words) }
        ensures place { IfOk result (λ at. IsPlace self.new.words at (length self.old.words)) }
        ensures err { OnErr result (self.new ≡ self.old) }
    {
        let at = self.bytes.len() as u64;
        put_word(&mut self.bytes, word)?;
        self.count += 1;
        Ok(at)
    }

    /// The file of the words, without a copy.
    pub fn finish(self) -> WordFile
        ensures file { result ≡ self }
        ensures fits { Fits self }
    {
        let WordWriter {
            tag,
            count,
            mut bytes,
        } = self;
        put_count(bytes.as_mut_slice(), count);
        WordFile::of_parts(tag, count, Bytes::from_vec(bytes))
    }
}
