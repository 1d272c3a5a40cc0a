//! Whether pairs may be those of a file.
ghost use Rattle.std.specs.Prelude.{◌≡◌, ◌+◌, ◌<◌, ◌↔◌, length, All, IsTrue};
ghost use Rattle.agg_model.specs.Pairs.{IsBelow, IsPair, KeysAscend, ArePairs, pair_keys};
ghost use Rattle.domain_core.specs.KvFile.{key_at};

use agg_model::{KEY_MOST, Pair, Pairs, VALUE_MOST};

fn is_pair(pair: &Pair) -> bool
    ensures { IsTrue result ↔ IsPair pair.now }
{
    let key = pair.key.as_slice().len() as u64;
    let value = pair.value.as_slice().len() as u64;
    1 <= key && key <= KEY_MOST && value <= VALUE_MOST
}

fn all_fit(pairs: &[Pair]) -> bool
    ensures { IsTrue result ↔ All IsPair pairs.now }
{
    for pair in pairs {
        if !is_pair(pair) {
            return false;
        }
    }
    true
}

// Whether the key at a place is below the one after it.
fn goes_up(pairs: &[Pair], place: usize) -> bool
    requires { place + 1 < length pairs.now }
    ensures { IsTrue result ↔ IsBelow (key_at pairs.now place) (key_at pairs.now (place + 1)) }
{
    let key = pairs[place].key.as_slice();
    let next = pairs[place + 1].key.as_slice();
    key.cmp(&next).is_lt()
}

fn all_go_up(pairs: &[Pair]) -> bool
    ensures { IsTrue result ↔ KeysAscend (pair_keys pairs.now) }
{
    for place in 0..pairs.len().saturating_sub(1) {
        if !goes_up(pairs, place) {
            return false;
        }
    }
    true
}

/// Whether the keys ascend strictly, and the lengths of keys and values are within their limits.
pub fn are_pairs(pairs: &Pairs) -> bool
    ensures { IsTrue result ↔ ArePairs pairs.now }
{
    all_fit(pairs.as_slice()) && all_go_up(pairs.as_slice())
}
