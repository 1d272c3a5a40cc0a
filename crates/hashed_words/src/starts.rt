//! Where some of the pairs start, so that a walk over keys in order can begin near any of them.
ghost use Rattle.std.specs.Prelude.{◌<◌, IfOk};
ghost use Rattle.word_file.specs.Paired.{IsPaired};
ghost use Rattle.hashed_words.specs.Hashed.{ArePairs};

use agg_outside::Memory;
use std::alloc::Global;
use word_file::{WordFile, key_after};

/// Of so many pairs one is told.
const APART: u64 = 8;

/// The offset of every eighth pair, from the first on.
pub(crate) fn starts_of(alloc: Global, words: &WordFile) -> Result<Vec<u64>, Memory>
    requires { IsPaired words.now.words }
    ensures { IfOk result (λ starts. ArePairs words.now.words starts.items) }
{
    // That there are fewer than 2^64 words comes with their number.
    let count = words.count();
    let mut starts = Vec::with_capacity(alloc, (count / (2 * APART) + 1) as usize)?;
    let mut place = 0u64;
    let mut next = words.first();
    while let Some(at) = next {
        if place % APART == 0 {
            starts.push(at)?;
        }
        next = key_after(words, at);
        place += 1;
    }
    Ok(starts)
}
