ghost use Rattle.std.specs.Prelude.{◌≡◌, ◌↔◌, ◌&&◌, ◌≤◌, ◌^◌, ◌∷◌, nat_le, map, length, None, Some, IfOk, IsErrOf};
ghost use Rattle.std.specs.Prelude.{IfSome, MatchOption};
ghost use Rattle.std.specs.String.{string_bytes};
ghost use Rattle.std.specs.List.{position};
ghost use Rattle.command_words.specs.CommandWords as asked;
ghost use Rattle.command_words.specs.Sizes as sizes;

use line_words::number;
use std::alloc::Global;

/// What the words ask for.
#[derive(Clone, Copy, Debug, PartialEq, Eq)]
pub enum Command {
    /// One session over the source and the sink.
    Run {
        /// How many numbers a step has.
        size: u64,
        /// How many threads help to write files.
        workers: u32,
    },
}

/// Why words couldn't be read.
#[derive(Clone, Copy, Debug, PartialEq, Eq)]
pub enum WordsError {
    /// They are no command.
    Usage,
    /// Memory could not be had.
    Memory,
}

/// The step size where the words give none.
const STEP_SIZE: u64 = 1_562_500;

/// The greatest step size.
const MOST_SIZE: u64 = 1 << 32;

/// The most digits of a step size, leading zeros included.
const MOST_DIGITS: usize = 10;

/// Reads the words after the program's name: the command, and behind it its options, in any order.
pub fn read_words(_alloc: Global, words: &[String]) -> Result<Command, WordsError>
    ensures found { IfOk result (λ command. asked.command_of (map string_bytes words.now) ≡ Some command) }
    ensures usage { IsErrOf result WordsError.Usage ↔ (asked.command_of (map string_bytes words.now) ≡ None) }
    ensures bounds { IfOk result asked.IsCommand }
{
    let Some((command, options)) = words.split_first() else {
        return Err(WordsError::Usage);
    };
    if command.as_str() != "run" {
        return Err(WordsError::Usage);
    }
    match size_from(None, options) {
        Some(size) => Ok(Command::Run { size, workers: 0 }),
        None => Err(WordsError::Usage),
    }
}

// The step size by the words that are left, where `given` was read before.
fn size_from(given: Option<u64>, words: &[String]) -> Option<u64>
    requires { IfSome given (λ size. (1 ≤ size) × (size ≤ 2 ^ 32)) }
    ensures exact { result ≡ sizes.size_from given (asked.behind_of (map string_bytes words.now)) }
    ensures within { IfSome result (λ size. (1 ≤ size) × (size ≤ 2 ^ 32)) }
{
    let Some((word, rest)) = words.split_first() else {
        return Some(given.unwrap_or(STEP_SIZE));
    };
    let word = word.as_bytes();
    if !is_option(word) {
        return None;
    }
    match joined_setting(word) {
        Some((name, value)) => {
            let size = step_given(given, name, value)?;
            size_from(Some(size), rest)
        }
        None => {
            let (value, rest) = rest.split_first()?;
            let size = step_given(given, word, value.as_bytes())?;
            size_from(Some(size), rest)
        }
    }
}

fn is_option(word: &[u8]) -> bool
    ensures { result ≡ asked.is_option word.now }
{
    word.starts_with(b"--".as_slice())
}

fn equals_place(word: &[u8]) -> Option<usize>
    ensures { result ≡ position asked.is_equals_sign word.now }
{
    word.iter().position(|byte| *byte == b'=')
}

// `--name=value`
#[tactic(auto, unfolding(crate::specs::CommandWords::joined_setting))]
fn joined_setting(word: &[u8]) -> Option<(&[u8], &[u8])>
    ensures { MatchOption result (asked.joined_setting word.now ≡ None) (λ parts.
        asked.joined_setting word.now ≡ Some (record { name = parts.0.now; value = parts.1.now })) }
{
    match equals_place(word) {
        Some(place) => Some((&word[..place], &word[place + 1..])),
        None => None,
    }
}

// The step size by one more option.
fn step_given(given: Option<u64>, name: &[u8], value: &[u8]) -> Option<u64>
    ensures exact { result ≡ sizes.step_given given name.now value.now }
    ensures within { IfSome result (λ size. (1 ≤ size) × (size ≤ 2 ^ 32)) }
{
    if given.is_some() || name != b"--step".as_slice() {
        return None;
    }
    step_value(value)
}

// The step size that a value gives: 1 to 10 digits, from 1 to 2^32.
fn step_value(value: &[u8]) -> Option<u64>
    ensures exact { result ≡ asked.step_value value.now }
    ensures within { IfSome result (λ size. (1 ≤ size) × (size ≤ 2 ^ 32)) }
{
    if value.len() > MOST_DIGITS {
        return None;
    }
    let Ok(size) = number(value) else {
        return None;
    };
    if is_step(size) { Some(size) } else { None }
}

fn is_step(size: u64) -> bool
    ensures { result ≡ (nat_le 1 size && nat_le size (2 ^ 32)) }
{
    1 <= size && size <= MOST_SIZE
}
