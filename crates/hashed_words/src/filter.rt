//! A filter beside a hash accessor: one byte tells of most keys that they aren't in the file.
ghost use Rattle.std.specs.Prelude.{◌≡◌, ℕ, ◌<◌, length, true, IfOk};
ghost use Rattle.word_file.specs.Paired.{IsPaired};
ghost use Rattle.recsplit_index.specs.Hash.{key_hash};
ghost use Rattle.hashed_words.specs.Filter.{mark_of, passes, Admits, AdmitsKeys};

use agg_outside::{Memory, Steps};
use recsplit_index::{key_hash, scale};
use std::alloc::Global;
use std::sync::ledger::{Blank, Ledger};
use word_file::{WordFile, key_after};

/// The byte of a slot whose keys have several marks.
const SEVERAL: u8 = 255;

/// What a key of this hash leaves in its slot.
fn mark_of(hash: u64) -> u8
    ensures value { result ≡ mark_of hash }
    ensures some { 0 < result }
{
    (hash % 255) as u8 + 1
}

/// Whether a slot lets a key of this mark pass.
fn passes(held: u8, mark: u8) -> bool
    ensures { result ≡ passes held mark }
{
    held == SEVERAL || held == mark
}

/// What a slot holds after one more key of this mark; 0 is that of a slot without a key.
fn with_mark(held: u8, mark: u8) -> u8
    ensures own { passes result mark ≡ true }
    ensures others { (other : ℕ) → 0 < other → passes held other ≡ true → passes result other ≡ true }
{
    if held == 0 || held == mark {
        mark
    } else {
        SEVERAL
    }
}

fn put_mark(marks: &mut Vec<u8>, hash: u64)
    requires { 0 < length marks.old.items }
    ensures size { length marks.new.items ≡ length marks.old.items }
    ensures own { Admits marks.new.items hash }
    ensures others { (other : ℕ) → Admits marks.old.items other → Admits marks.new.items other }
{
    let slot = scale(hash, marks.len() as u64) as usize;
    let held = marks[slot];
    marks[slot] = with_mark(held, mark_of(hash));
}

fn empty_slots(alloc: Global, slots: u64) -> Result<Vec<u8>, Memory>
    ensures { IfOk result (λ marks. length marks.items ≡ slots) }
{
    let mut marks = Vec::with_capacity(alloc, slots as usize)?;
    for _ in 0..slots {
        marks.push(0)?;
    }
    Ok(marks)
}

/// The slots of these words' keys, two for each key.
pub(crate) fn marks_of<L: Ledger>(
    alloc: Global,
    words: &WordFile,
    blank: Blank,
) -> Result<Vec<u8>, Memory>
    requires name { blank.name ≡ L.name }
    requires parts { blank.parts ≡ L.parts }
    requires some { 0 < L.parts }
    requires paired { IsPaired words.now.words }
    ensures { IfOk result (λ marks. AdmitsKeys marks.items words.now.words) }
{
    let mut steps = Steps::<L>::of(blank);
    let mut marks = empty_slots(alloc, words.count())?;
    let mut place = 0u64;
    let mut next = words.first();
    while let Some(at) = next {
        let hash = key_hash(0, words.word_at(at, &mut steps));
        put_mark(&mut marks, hash);
        next = key_after(words, at);
        place += 1;
    }
    Ok(marks)
}

/// Whether this key may be among those of the slots, by one look at one of them.
pub(crate) fn may_have(marks: &[u8], key: &[u8]) -> bool
    ensures { Admits marks.now (key_hash 0 key.now) → result ≡ true }
{
    if marks.is_empty() {
        return true;
    }
    let hash = key_hash(0, key);
    let slot = scale(hash, marks.len() as u64) as usize;
    passes(marks[slot], mark_of(hash))
}
