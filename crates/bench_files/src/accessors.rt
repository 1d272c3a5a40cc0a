//! Accessors of word files, built alone.
ghost use Rattle.std.specs.Prelude.{◌≡◌, ◌<◌};

use agg_outside::{Bytes, Memory, Steps};
use btree_index::BTreeFile;
use hashed_words::TRIES;
use recsplit_index::HashIndex;
use std::alloc::Global;
use std::marker::Brand;
use std::sync::ledger::{Blank, Ledger};
use word_file::{WordFile, is_paired, keys_ascend};

// The lengths of the accessors of words whose keys ascend; 0 of others.
fn lengths<L: Ledger>(alloc: Global, words: &WordFile, blank: Blank) -> Result<(u64, u64), Memory>
    requires name { blank.name ≡ L.name }
    requires parts { blank.parts ≡ L.parts }
    requires some { 0 < L.parts }
{
    let mut steps = Steps::<L>::of(blank);
    if !is_paired(words) || !keys_ascend(words, &mut steps) {
        return Ok((0, 0));
    }
    let hash = HashIndex::build(alloc, words, TRIES)?;
    let tree = BTreeFile::build(alloc, words)?;
    Ok((hash.bytes().len() as u64, tree.bytes().len() as u64))
}

/// The length of the hash accessor of a word file with these bytes, and of its B-tree too where it has one.
pub(crate) fn accessors_length(
    alloc: Global,
    bytes: &[u8],
    with_tree: bool,
) -> Result<u64, Memory> {
    let Ok(words) = WordFile::check(Bytes::of(alloc, bytes)?) else {
        return Ok(0);
    };
    let (hash, tree) = lengths::<Brand>(alloc, &words, Blank::new(1))?;
    Ok(if with_tree {
        hash.wrapping_add(tree)
    } else {
        hash
    })
}
