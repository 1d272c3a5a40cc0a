ghost use Rattle.std.specs.Prelude.{◌≡◌, ◌+◌, ◌*◌, ◌<◌, ◌≤◌, ◌^◌, length, true, IfSome};
ghost use Rattle.recsplit_index.specs.Nodes.{first_below, is_leaf_seed, is_split_seed, left_of, goes_left};

use crate::hash::{position, shift_of, shifted_position};
use crate::keys::HashedKey;

/// How many keys of a node go left at a split.
#[tactic(auto, unfolding(crate::specs::Nodes::left_of))]
pub(crate) fn left_of(size: u64) -> u64
    ensures { result ≡ left_of size }
{
    8 * size.div_ceil(8).div_ceil(2)
}

/// Whether a key goes left at a split under this seed.
pub(crate) fn goes_left(depth: u64, seed: u32, size: u64, key: &HashedKey) -> bool
    ensures { result ≡ goes_left depth seed size key.now }
{
    position(depth, seed, size, key.hash) < left_of(size)
}

/// Whether the keys of a leaf have different positions under the seed. All keys are looked at, since a return at the
/// first that stands at a taken position costs more than it saves.
fn is_leaf_seed(keys: &[HashedKey], depth: u64, seed: u32) -> bool
    requires { length keys.now ≤ 8 }
    ensures { result ≡ is_leaf_seed depth keys.now seed }
{
    let places = keys.len() as u64;
    let shift = shift_of(depth, seed);
    let mut taken = [false; 8];
    let mut differ = true;
    for key in keys {
        let place = shifted_position(shift, places, key.hash) as usize;
        differ &= !taken[place];
        taken[place] = true;
    }
    differ
}

/// Whether as many keys go left under the seed as are to.
#[tactic(auto, unfolding(crate::specs::Nodes::is_split_seed))]
fn is_split_seed(keys: &[HashedKey], depth: u64, seed: u32) -> bool
    ensures { result ≡ is_split_seed depth keys.now seed }
{
    let size = keys.len() as u64;
    let left = keys.iter().filter(|key| goes_left(depth, seed, size, *key));
    left.count() as u64 == left_of(size)
}

/// The first seed of a leaf below the limit.
pub(crate) fn leaf_seed(keys: &[HashedKey], depth: u64, tries: u32) -> Option<u32>
    requires { length keys.now ≤ 8 }
    ensures first { result ≡ first_below (is_leaf_seed depth keys.now) tries }
    ensures below { IfSome result (λ seed. seed < tries) }
{
    for seed in 0..tries {
        if is_leaf_seed(keys, depth, seed) {
            return Some(seed);
        }
    }
    None
}

/// The first seed of a split below the limit.
pub(crate) fn split_seed(keys: &[HashedKey], depth: u64, tries: u32) -> Option<u32>
    ensures first { result ≡ first_below (is_split_seed depth keys.now) tries }
    ensures below { IfSome result (λ seed. seed < tries) }
    ensures works { IfSome result (λ seed. is_split_seed depth keys.now seed ≡ true) }
{
    for seed in 0..tries {
        if is_split_seed(keys, depth, seed) {
            return Some(seed);
        }
    }
    None
}
