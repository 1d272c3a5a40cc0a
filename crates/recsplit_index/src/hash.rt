ghost use Rattle.std.specs.Prelude.{◌≡◌, ◌+◌, ◌*◌, ◌/◌, ◌%◌, ◌^◌, ◌<◌, ◌≤◌, length, drop, slice_index};
ghost use Rattle.std.specs.Int.{div_ceil, w64, from_be_bytes};
ghost use Rattle.recsplit_index.specs.Hash.{golden, mix, taken_in, hash_from, key_hash, scaled, position};

/// Added between the pieces of a key and between seeds.
const GOLDEN: u64 = 0x9e37_79b9_7f4a_7c15;

#[tactic(auto, unfolding(crate::specs::Hash::mix))]
fn mix(x: u64) -> u64
    ensures { result ≡ mix x }
{
    let mut mixed = x;
    mixed = (mixed ^ (mixed >> 30)).wrapping_mul(0xbf58_476d_1ce4_e5b9);
    mixed = (mixed ^ (mixed >> 27)).wrapping_mul(0x94d0_49bb_1331_11eb);
    mixed ^ (mixed >> 31)
}

/// The hash after one more piece of a key.
#[tactic(auto, unfolding(crate::specs::Hash::taken_in))]
fn take_in(hash: u64, piece: u64) -> u64
    ensures { result ≡ taken_in hash piece }
{
    mix((hash ^ piece).wrapping_add(GOLDEN))
}

fn byte_or_zero(bytes: &[u8], at: usize) -> u8
    ensures { result ≡ slice_index bytes.now at }
{
    if at < bytes.len() { bytes[at] } else { 0 }
}

/// The number of the eight bytes from `at` on; what is missing of them is 0.
fn piece_at(bytes: &[u8], at: usize) -> u64
    requires { at < length bytes.now }
    ensures { result ≡ from_be_bytes w64 (drop at bytes.now) }
{
    u64::from_be_bytes([
        byte_or_zero(bytes, at),
        byte_or_zero(bytes, at + 1),
        byte_or_zero(bytes, at + 2),
        byte_or_zero(bytes, at + 3),
        byte_or_zero(bytes, at + 4),
        byte_or_zero(bytes, at + 5),
        byte_or_zero(bytes, at + 6),
        byte_or_zero(bytes, at + 7),
    ])
}

/// The hash of a key. The seeds of an accessor are looked for anew under another salt.
#[tactic(auto, unfolding(crate::specs::Hash::key_hash))]
pub fn key_hash(salt: u64, key: &[u8]) -> u64
    ensures { result ≡ key_hash salt key.now }
{
    let start = salt.wrapping_mul(GOLDEN).wrapping_add(key.len() as u64);
    hash_from(mix(start), key)
}

fn hash_from(start: u64, key: &[u8]) -> u64
    ensures { result ≡ hash_from (div_ceil (length key.now) 8) start key.now }
{
    let mut hash = start;
    let mut at = 0;
    while at < key.len() {
        hash = take_in(hash, piece_at(key, at));
        at += 8;
    }
    hash
}

/// The hash scaled down to a number below `places`: the bucket of a key, where `places` is the
/// number of buckets, and the last step of a position.
#[tactic(auto, unfolding(crate::specs::Hash::scaled))]
pub fn scale(hash: u64, places: u64) -> u64
    ensures value { result ≡ scaled hash places }
    ensures below { 0 < places → result < places }
{
    ((u128::from(hash) * u128::from(places)) >> 64) as u64
}

/// What a seed adds to each hash in a node of this depth.
pub(crate) fn shift_of(depth: u64, seed: u32) -> u64
    ensures { result ≡ golden * (2 ^ 20 * (depth + 1) + seed) % 2 ^ 64 }
{
    let level = depth.wrapping_add(1).wrapping_mul(1 << 20);
    GOLDEN.wrapping_mul(level.wrapping_add(u64::from(seed)))
}

/// The position, below `places`, of a key of this hash, where the seed adds `shift`. Most leaves have 8 places, and
/// there the product is a shift.
#[tactic(auto, unfolding(crate::specs::Hash::scaled))]
pub(crate) fn shifted_position(shift: u64, places: u64, hash: u64) -> u64
    ensures value { result ≡ scaled (mix ((hash + shift) % 2 ^ 64)) places }
    ensures below { 0 < places → result < places }
{
    let mixed = mix(hash.wrapping_add(shift));
    if places == 8 {
        mixed >> 61
    } else {
        scale(mixed, places)
    }
}

/// The position, below `places`, of a key of this hash.
#[tactic(auto, unfolding(crate::specs::Hash::position))]
pub(crate) fn position(depth: u64, seed: u32, places: u64, hash: u64) -> u64
    ensures value { result ≡ position depth seed places hash }
    ensures below { 0 < places → result < places }
{
    scale(mix(hash.wrapping_add(shift_of(depth, seed))), places)
}
