ghost use Rattle.std.specs.Prelude.{◌≡◌, ℕ, ◌∷◌, [], ◌≤◌, ◌<◌, ◌^◌, ◌++◌, List, length, IfOk};
ghost use Rattle.file_numbers.specs.Lists.{number_bytes, AreNumbers};
ghost use Rattle.word_file.specs.Paired.{IsPaired};
ghost use Rattle.recsplit_index.specs.Keys.{hashed_keys};
ghost use Rattle.recsplit_index.specs.Index.{nodes_of};
ghost use Rattle.recsplit_index.specs.Layout.{Follows, IsWithin};
ghost use Rattle.recsplit_index.specs.InPlace.{header, FollowsAll};

use crate::buckets::bucket_count;
use crate::keys::groups_of;
use crate::nodes::{Parts, put_node};
use crate::spell::MAGIC;
use agg_outside::{Memory, Steps};
use bit_store::RiceWriter;
use std::alloc::Global;
use std::sync::ledger::Ledger;
use word_file::{WordFile, follow};

/// How far bytes go on with the starts, and with the offsets, of the nodes of all buckets, each
/// from its own place on.
#[derive(Debug, Drop)]
pub(crate) struct Followed {
    pub(crate) starts: Result<usize, usize>,
    pub(crate) offsets: Result<usize, usize>,
    /// The number of starts.
    pub(crate) table: u64,
    /// The number of offsets.
    pub(crate) count: u64,
    pub(crate) codes: RiceWriter,
}

/// Nothing is followed yet from this place on; past the end of the bytes nothing can be.
fn start_at(bytes: &[u8], at: usize) -> Result<usize, usize>
    ensures text { at ≤ length bytes.now → Follows bytes.now at [] result }
    ensures within { IsWithin bytes.now result }
{
    if at <= bytes.len() {
        Ok(at)
    } else {
        Err(bytes.len())
    }
}

/// How far a text goes on in the bytes, after how far what stands before it goes.
pub(crate) fn follow_on(
    bytes: &[u8],
    so_far: Result<usize, usize>,
    text: &[u8],
) -> Result<usize, usize>
    requires { IsWithin bytes.now so_far }
    ensures text { (at : ℕ) (front : List ℕ) → Follows bytes.now at front so_far → Follows bytes.now at (front ++ text.now) result }
    ensures within { IsWithin bytes.now result }
{
    match so_far {
        Ok(at) => follow(bytes, at, text),
        Err(place) => Err(place),
    }
}

/// The same of numbers of eight bytes.
pub(crate) fn follow_numbers(
    bytes: &[u8],
    so_far: Result<usize, usize>,
    numbers: &[u64],
) -> Result<usize, usize>
    requires { IsWithin bytes.now so_far }
    ensures text { (at : ℕ) (front : List ℕ) → Follows bytes.now at front so_far → Follows bytes.now at (front ++ number_bytes numbers.now) result }
    ensures within { IsWithin bytes.now result }
    // That each number has eight bytes is known where they are read.
    ensures fits { AreNumbers numbers.now }
{
    let mut reached = so_far;
    for number in numbers {
        reached = follow_on(bytes, reached, &number.to_be_bytes());
    }
    reached
}

/// How far the bytes go on with what stands before the starts.
pub(crate) fn follow_header(bytes: &[u8], form: u8, salt: u8, count: u64) -> Result<usize, usize>
    ensures text { Follows bytes.now 0 (header form salt count) result }
    ensures within { IsWithin bytes.now result }
{
    let magic = follow(bytes, 0, &MAGIC.to_be_bytes());
    let forms = follow_on(bytes, magic, &[form, salt, 0, 0]);
    follow_on(bytes, forms, &count.to_be_bytes())
}

/// How far one text and another go on, where the other was followed from the end of the first on.
pub(crate) fn join(one: Result<usize, usize>, other: Result<usize, usize>) -> Result<usize, usize>
    ensures text { (bytes front text : List ℕ) → Follows bytes 0 front one → (length front ≤ length bytes → Follows bytes (length front) text other) → Follows bytes 0 (front ++ text) result }
    ensures within { (bytes : List ℕ) → IsWithin bytes other → IsWithin bytes result }
{
    match one {
        Ok(_) => other,
        Err(place) => Err(place),
    }
}

/// Follows the nodes of all buckets under a salt through the bytes, unless a node has no seed below
/// the limit.
pub(crate) fn follow_nodes<L: Ledger>(
    alloc: Global,
    bytes: &[u8],
    salt: u64,
    words: &WordFile,
    tries: u32,
    steps: &mut Steps<L>,
) -> Result<Option<Followed>, Memory>
    requires paired { IsPaired words.now.words }
    requires tries { tries ≤ 2 ^ 16 }
    ensures { IfOk result (λ followed. FollowsAll bytes.now followed (nodes_of tries (hashed_keys salt words.now.words))) }
{
    let keys = words.count() / 2;
    let buckets = bucket_count(keys);
    let groups = groups_of(alloc, salt, words, buckets, steps)?;
    let table = 2 * buckets + 2;
    let mut starts = start_at(bytes, 16);
    let mut offsets = start_at(bytes, 16 + 8 * table as usize);
    let mut count = 0u64;
    let mut parts = Parts {
        codes: RiceWriter::new(alloc),
        offsets: Vec::new(alloc),
    };
    for group in &groups {
        let bits = parts.codes.len();
        starts = follow_numbers(bytes, starts, &[count, bits]);
        if !put_node(alloc, group.as_slice(), 0, tries, &mut parts)? {
            return Ok(None);
        }
        let slots = parts.offsets.as_slice();
        offsets = follow_numbers(bytes, offsets, slots);
        count += slots.len() as u64;
        parts.offsets.clear();
    }
    let total = parts.codes.len();
    starts = follow_numbers(bytes, starts, &[count, total]);
    let Parts { codes, offsets: _ } = parts;
    Ok(Some(Followed {
        starts,
        offsets,
        table,
        count,
        codes,
    }))
}
