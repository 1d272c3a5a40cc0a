ghost use Rattle.std.specs.Prelude.{◌≡◌, ◌↔◌, ◌≤◌, length, IsNone, IfSome, IfOk, IfErr};
ghost use Rattle.word_file.specs.declared.access.AccessError.TheVariants.{Memory as NoMemory};
ghost use Rattle.word_file.specs.Difference.{first_difference, IsDifference};
ghost use Rattle.word_file.specs.Agreement.{GoesOn, PartsAt};

use agg_outside::Memory;

/// Why bytes are not the accessor of a word file.
#[derive(Clone, Copy, Debug, PartialEq, Eq)]
pub enum AccessError {
    /// They differ from the accessor first at `at`, or one begins the other and `at` is the length of
    /// the shorter.
    Differs { at: u64 },
    /// Memory could not be had.
    Memory,
}

impl From<Memory> for AccessError {
    ghost from_gives = { λ _ e. e ≡ NoMemory };

    fn from(_: Memory) -> AccessError {
        AccessError::Memory
    }
}

/// The first place where the texts differ, or the length of the shorter where it begins the longer;
/// `None` where they are equal.
pub fn first_difference(one: &[u8], other: &[u8]) -> Option<usize>
    ensures value { result ≡ first_difference one.now other.now }
    ensures same { IsNone result ↔ (one.now ≡ other.now) }
    ensures place { IfSome result (IsDifference one.now other.now) }
{
    difference_from(one, other)
}

fn difference_from(one: &[u8], other: &[u8]) -> Option<usize>
    ensures { result ≡ first_difference one.now other.now }
{
    let shorter = one.len().min(other.len());
    for i in 0..shorter {
        if one[i] != other[i] {
            return Some(i);
        }
    }
    if one.len() == other.len() {
        None
    } else {
        Some(shorter)
    }
}

/// Follows a text through the bytes from `at` on: `Ok` is where the text ends, if the bytes go on with it,
/// and `Err` where they first don't.
pub fn follow(bytes: &[u8], at: usize, text: &[u8]) -> Result<usize, usize>
    requires { at ≤ length bytes.now }
    ensures end { IfOk result (λ end. GoesOn bytes.now text.now at end) }
    ensures place { IfErr result (λ place. PartsAt bytes.now text.now at place) }
{
    let rest = &bytes[at..];
    let here = &rest[..rest.len().min(text.len())];
    match first_difference(here, text) {
        None => Ok(at + text.len()),
        Some(place) => Err(at + place),
    }
}
