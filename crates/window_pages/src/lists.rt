//! The keys of a group from one on, by its `.ef` file.
ghost use Rattle.std.specs.Prelude.{◌≡◌, ℕ, ◌+◌, ◌<◌, ◌≤◌, true, [], List, length, IfSome, IfNone};
ghost use Rattle.std.specs.Option.{option_map};
ghost use Rattle.hashed_words.specs.Hashed.{IsPairAt, StartsPair};
ghost use Rattle.inverted_index.specs.EfFile.{words_of};
ghost use Rattle.recsplit_index.specs.Keys.{IsKeyAt};
ghost use Rattle.window_pages.specs.Places.{next_from};
ghost use Rattle.window_pages.specs.Starts.{IsStart};

use crate::order::is_below;
use collate_step::EntityFiles;
use inverted_index::EfFile;

// The offset of the pair behind this one.
fn pair_behind(ef: &EfFile, at: u64) -> Option<u64>
    requires { StartsPair (words_of ef.now.lists) at }
    ensures some { (place : ℕ) → IsPairAt (words_of ef.now.lists) at place →
        IfSome result (λ behind. IsPairAt (words_of ef.now.lists) behind (place + 1)) }
    ensures none { (place : ℕ) → IsPairAt (words_of ef.now.lists) at place →
        IfNone result (length ef.now.lists ≤ place + 1) }
{
    let words = ef.words();
    let Some(numbers) = words.next(at) else {
        return None;
    };
    words.next(numbers)
}

// Whether the key whose pair starts here is below the first one.
fn is_start(ef: &EfFile, at: u64, first: &[u8]) -> bool
    requires { StartsPair (words_of ef.now.lists) at }
    ensures { result ≡ true → IsStart ef.now.lists first.now at }
{
    // That the keys ascend is a clause of this call.
    let _held = ef.words();
    let (key, _numbers) = ef.pair_at(at);
    is_below(key, first)
}

// The first pair.
fn first_pair(ef: &EfFile) -> Option<u64>
    ensures start { (k : List ℕ) → IfSome result (IsStart ef.now.lists k) }
    ensures none { IfNone result (ef.now.lists ≡ []) }
{
    ef.words().first()
}

// Where the walk begins: of the pairs whose starts the file tells, at the last with a key below the first one, or
// else at the first pair.
fn start_in(ef: &EfFile, first: &[u8]) -> Option<u64>
    ensures start { IfSome result (IsStart ef.now.lists first.now) }
    ensures none { IfNone result (ef.now.lists ≡ []) }
{
    let starts = ef.starts();
    let mut found = first_pair(ef);
    let mut low = 0;
    let mut high = starts.len();
    while low < high {
        let middle = low + (high - low) / 2;
        let at = starts[middle];
        if is_start(ef, at, first) {
            found = Some(at);
            low = middle + 1;
        } else {
            high = middle;
        }
    }
    found
}

/// The first key from the start on that isn't below the first one, and the offset of its pair.
pub(crate) fn key_from<'a>(ef: &'a EfFile, first: &[u8], start: u64) -> Option<(&'a [u8], u64)>
    requires { IsStart ef.now.lists first.now start }
    ensures next { option_map (λ p. p.0.now) result ≡ next_from first.now ef.now.lists }
    ensures there { IfSome result (λ p. IsKeyAt (words_of ef.now.lists) p.0.now p.1) }
{
    let words = ef.words();
    let mut at = start;
    for _pair in 0..words.count() {
        let (key, _numbers) = ef.pair_at(at);
        if !is_below(key, first) {
            return Some((key, at));
        }
        let Some(behind) = pair_behind(ef, at) else {
            return None;
        };
        at = behind;
    }
    None
}

/// The first key of a group that isn't below this one, and the offset of its pair.
pub(crate) fn next_in_group<'a>(group: &'a EntityFiles, first: &[u8]) -> Option<(&'a [u8], u64)>
    ensures next { option_map (λ p. p.0.now) result ≡ next_from first.now group.now.ef.lists }
    ensures there { IfSome result (λ p. IsKeyAt (words_of group.now.ef.lists) p.0.now p.1) }
{
    let ef = group.ef();
    let Some(start) = start_in(ef, first) else {
        return None;
    };
    key_from(ef, first, start)
}
