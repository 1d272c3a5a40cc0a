ghost use Rattle.std.specs.Prelude.{◌≡◌, ◌<◌, ◌≤◌, ◌^◌, [], map, IfOk, IfSome};
ghost use Rattle.word_file.specs.Paired.{IsPaired};
ghost use Rattle.recsplit_index.specs.Index.{plain_index, index_of};
ghost use Rattle.recsplit_index.specs.Spelling.{Index};
ghost use Rattle.recsplit_index.specs.Layout.{IsLayoutOf, IsShapeOf};

use crate::buckets::{Built, nodes_of, nodes_side_by_side};
use crate::keys::by_key;
use crate::nodes::Parts;
use agg_outside::{Bytes, Memory, Steps};
use bit_store::RiceWriter;
use std::alloc::Global;
use std::collections::BTreeMap;
use std::sync::ledger::{Blank, Ledger};
use std::thread::Threads;
use word_file::{WordFile, key_offsets};

/// What an accessor holds, with its bits as their text.
#[derive(Debug, Drop)]
pub(crate) struct Layout {
    pub(crate) form: u8,
    pub(crate) salt: u8,
    pub(crate) starts: Vec<u64>,
    pub(crate) offsets: Vec<u64>,
    pub(crate) bits: u64,
    pub(crate) text: Bytes,
}

/// How much of each an accessor holds.
#[derive(Clone, Copy, Debug, PartialEq, Eq)]
pub(crate) struct Shape {
    pub(crate) form: u8,
    pub(crate) salt: u8,
    pub(crate) starts: u64,
    pub(crate) count: u64,
    pub(crate) bits: u64,
}

impl Layout {
    pub(crate) fn shape(&self) -> Shape
        ensures { (x : Index) → IsLayoutOf self.now x → IsShapeOf result x }
    {
        Shape {
            form: self.form,
            salt: self.salt,
            starts: self.starts.len() as u64,
            count: self.offsets.len() as u64,
            bits: self.bits,
        }
    }

    fn of(form: u8, salt: u8, starts: Vec<u64>, offsets: Vec<u64>, codes: RiceWriter) -> Layout
        ensures { IsLayoutOf result (record { form = form; salt = salt; starts = starts.items; offsets = offsets.items; bits = codes }) }
    {
        let bits = codes.len();
        let text = codes.finish();
        Layout {
            form,
            salt,
            starts,
            offsets,
            bits,
            text,
        }
    }
}

fn offsets_in(alloc: Global, tree: &BTreeMap<Bytes, u64>) -> Result<Vec<u64>, Memory>
    ensures { IfOk result (λ v. v.items ≡ map (λ entry. entry.1) tree.now.entries) }
{
    Ok(tree.values().copied().collect(alloc)?)
}

/// The accessor with the offsets in the order of their keys.
pub(crate) fn plain<L: Ledger>(
    alloc: Global,
    words: &WordFile,
    steps: &mut Steps<L>,
) -> Result<Layout, Memory>
    requires { IsPaired words.now.words }
    ensures { IfOk result (λ l. IsLayoutOf l (plain_index words.now.words)) }
{
    let offsets = key_offsets(alloc, words)?;
    let tree = by_key(alloc, words, offsets.as_slice(), steps)?;
    let sorted = offsets_in(alloc, &tree)?;
    let starts = Vec::new(alloc);
    let codes = RiceWriter::new(alloc);
    Ok(Layout::of(0, 0, starts, sorted, codes))
}

/// What the accessor of the word file holds.
pub(crate) fn layout_of<L: Ledger>(
    alloc: Global,
    words: &WordFile,
    tries: u32,
    blank: Blank,
) -> Result<Layout, Memory>
    requires name { blank.name ≡ L.name }
    requires parts { blank.parts ≡ L.parts }
    requires some { 0 < L.parts }
    requires paired { IsPaired words.now.words }
    requires tries { tries ≤ 2 ^ 16 }
    ensures { IfOk result (λ l. IsLayoutOf l (index_of tries words.now.words)) }
{
    let mut steps = Steps::<L>::of(blank);
    for salt in 0..8u8 {
        if let Some(built) = nodes_of(alloc, u64::from(salt), words, tries, &mut steps)? {
            let Built { starts, parts } = built;
            let Parts { codes, offsets } = parts;
            return Ok(Layout::of(1, salt, starts, offsets, codes));
        }
    }
    plain(alloc, words, &mut steps)
}

/// What the accessor of the word file holds, where each node has a seed under the first salt; the nodes of many buckets
/// are looked for side by side.
pub(crate) fn first_layout<R: Threads + Sync, L: Ledger>(
    rt: &R,
    alloc: Global,
    words: &WordFile,
    tries: u32,
    blank: Blank,
) -> Result<Option<Layout>, Memory>
    requires name { blank.name ≡ L.name }
    requires parts { blank.parts ≡ L.parts }
    requires some { 0 < L.parts }
    requires paired { IsPaired words.now.words }
    requires tries { tries ≤ 2 ^ 16 }
    ensures { IfOk result (λ layout. IfSome layout (λ l. IsLayoutOf l (index_of tries words.now.words))) }
{
    let mut steps = Steps::<L>::of(blank);
    let built = nodes_side_by_side(rt, alloc, 0, words, tries, &mut steps)?;
    let Some(built) = built else {
        return Ok(None);
    };
    let Built { starts, parts } = built;
    let Parts { codes, offsets } = parts;
    Ok(Some(Layout::of(1, 0, starts, offsets, codes)))
}
