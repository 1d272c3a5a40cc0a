ghost use Rattle.std.specs.Prelude.{◌≡◌, ℕ, ◌∷◌, [], ◌≤◌, ◌<◌, ◌^◌, ◌++◌, List, length, IfOk};
ghost use Rattle.word_file.specs.Difference.{first_difference};
ghost use Rattle.word_file.specs.Paired.{IsPaired};
ghost use Rattle.recsplit_index.specs.Spelling.{Index, laid_out};
ghost use Rattle.recsplit_index.specs.Nodes.{Node};
ghost use Rattle.recsplit_index.specs.Index.{split_index, index_of};
ghost use Rattle.recsplit_index.specs.Layout.{IsLayoutOf, Follows};
ghost use Rattle.recsplit_index.specs.InPlace.{header, FollowsNodes, IsCompared};

use crate::follow::{Followed, follow_header, follow_nodes, follow_numbers, follow_on, join};
use crate::layout::{Layout, Shape, plain};
use agg_outside::{Memory, Steps};
use std::alloc::Global;
use std::sync::ledger::{Blank, Ledger};
use word_file::WordFile;

/// What bytes were compared with, and where they differ from it first.
#[derive(Clone, Copy, Debug, PartialEq, Eq)]
pub(crate) struct Compared {
    pub(crate) shape: Shape,
    pub(crate) place: Option<usize>,
}

/// Where the bytes and a text differ first, by how far they go on with it.
fn place_of(bytes: &[u8], reached: Result<usize, usize>) -> Option<usize>
    ensures { (text : List ℕ) → Follows bytes.now 0 text reached → result ≡ first_difference bytes.now text }
{
    match reached {
        Ok(end) => { if end < bytes.len() { Some(end) } else { None } }
        Err(place) => Some(place),
    }
}

/// Where the bytes and the accessor differ first.
fn difference(bytes: &[u8], layout: &Layout) -> Option<usize>
    ensures { result ≡ first_difference bytes.now (laid_out layout.now.form layout.now.salt layout.now.starts.items layout.now.offsets.items layout.now.text) }
{
    let count = layout.offsets.len() as u64;
    let header = follow_header(bytes, layout.form, layout.salt, count);
    let starts = follow_numbers(bytes, header, layout.starts.as_slice());
    let offsets = follow_numbers(bytes, starts, layout.offsets.as_slice());
    place_of(bytes, follow_on(bytes, offsets, layout.text.as_slice()))
}

fn with_layout(bytes: &[u8], layout: &Layout) -> Compared
    ensures { (x : Index) → IsLayoutOf layout.now x → IsCompared bytes.now result x }
{
    Compared {
        shape: layout.shape(),
        place: difference(bytes, layout),
    }
}

fn with_nodes(bytes: &[u8], salt: u8, followed: Followed) -> Compared
    requires { (nodes : List Node) × FollowsNodes bytes.now followed nodes }
    ensures { (nodes : List Node) → FollowsNodes bytes.now followed nodes → IsCompared bytes.now result (split_index salt nodes) }
{
    let Followed {
        starts,
        offsets,
        table,
        count,
        codes,
    } = followed;
    let bits = codes.len();
    let text = codes.finish();
    let header = follow_header(bytes, 1, salt, count);
    let numbers = join(join(header, starts), offsets);
    let reached = follow_on(bytes, numbers, text.as_slice());
    let shape = Shape {
        form: 1,
        salt,
        starts: table,
        count,
        bits,
    };
    Compared {
        shape,
        place: place_of(bytes, reached),
    }
}

/// Compares the bytes with the accessor of the word file. Beside them stand the hashes of the keys,
/// the offsets of one bucket and the bits of all; in form 0 the keys in order and their offsets.
pub(crate) fn compare<L: Ledger>(
    alloc: Global,
    bytes: &[u8],
    words: &WordFile,
    tries: u32,
    blank: Blank,
) -> Result<Compared, Memory>
    requires name { blank.name ≡ L.name }
    requires parts { blank.parts ≡ L.parts }
    requires some { 0 < L.parts }
    requires paired { IsPaired words.now.words }
    requires tries { tries ≤ 2 ^ 16 }
    ensures { IfOk result (λ c. IsCompared bytes.now c (index_of tries words.now.words)) }
{
    let mut steps = Steps::<L>::of(blank);
    for salt in 0..8u8 {
        let followed = follow_nodes(alloc, bytes, u64::from(salt), words, tries, &mut steps)?;
        if let Some(nodes) = followed {
            return Ok(with_nodes(bytes, salt, nodes));
        }
    }
    let layout = plain(alloc, words, &mut steps)?;
    Ok(with_layout(bytes, &layout))
}
