//! The least key word of several inputs.
ghost use Rattle.std.specs.Prelude.{◌≡◌, ◌+◌, ◌<◌, ◌≤◌, [], ◌++◌, true, length, map, take, drop, All};
ghost use Rattle.std.specs.Option.{option_copied};
ghost use Rattle.agg_model.specs.declared.entity.FileKind.{FileKind};
ghost use Rattle.merge_files.specs.Walks.{IsInput, IsKnown, IsLeastOf, word_before, left_behind, words_given};
ghost use Rattle.merge_files.specs.Seen.{IsSeen};

use crate::cursor::Cursor;
use crate::order::word_order;
use agg_model::FileKind;
use std::cmp::Ordering;

// How the first key word of an input stands to the least one so far.
#[derive(Clone, Copy, Debug)]
pub(crate) enum Seen<'a> {
    // It is less.
    Lower(&'a [u8]),
    // It is the same.
    Same,
    // It is greater, or there is none.
    Behind,
}

fn look<'a>(kind: FileKind, least: Option<&[u8]>, input: &Cursor<'a>) -> Seen<'a>
    requires input { IsInput kind input.now }
    requires least { IsKnown kind (option_copied least) }
    ensures { IsSeen kind (option_copied least.entry) input.now result }
{
    let Some((word, _value)) = input.first() else {
        return Seen::Behind;
    };
    let Some(known) = least else {
        return Seen::Lower(word);
    };
    match word_order(kind, word, known) {
        Ordering::Less => Seen::Lower(word),
        Ordering::Equal => Seen::Same,
        Ordering::Greater => Seen::Behind,
    }
}

/// The least key word, and the mark that the inputs which have it bear then.
#[derive(Clone, Copy, Debug)]
pub(crate) struct Least<'a> {
    pub(crate) word: Option<&'a [u8]>,
    pub(crate) turn: usize,
}

// The inputs are gone over once, and each is compared with the least of those before it.
pub(crate) fn choose<'a>(kind: FileKind, inputs: &[Cursor<'a>], marks: &mut [usize]) -> Least<'a>
    requires inputs { All (IsInput kind) inputs.now }
    requires marks { length marks.old ≡ length inputs.now }
    ensures least { IsLeastOf kind (option_copied result.word) result.turn marks.new inputs.now (length inputs.now) }
    ensures known { IsKnown kind (option_copied result.word) }
{
    let mut word: Option<&'a [u8]> = None;
    let mut turn = 0usize;
    for i in 0..inputs.len() {
        match look(kind, word, &inputs[i]) {
            Seen::Lower(lower) => {
                word = Some(lower);
                turn += 1;
                marks[i] = turn;
            }
            Seen::Same => marks[i] = turn,
            Seen::Behind => marks[i] = 0,
        }
    }
    Least { word, turn }
}

// Gives the first value word of an input, and passes its pair.
fn give<'a>(input: &mut Cursor<'a>, words: &mut [&'a [u8]], count: usize) -> usize
    requires { count < length words.old }
    ensures input { input.new ≡ drop 1 input.old }
    ensures words { map (λ w. w.now) (take result words.new)
        ≡ map (λ w. w.now) (take count words.old) ++ word_before true input.old [] }
    ensures count { result ≤ count + 1 }
{
    match input.first() {
        Some((_word, value)) => {
            words[count] = value;
            input.pass();
            count + 1
        }
        None => count,
    }
}

/// Gives the first value words of the inputs that bear the mark, and passes their pairs.
pub(crate) fn give_all<'a>(
    inputs: &mut [Cursor<'a>],
    marks: &[usize],
    turn: usize,
    words: &mut [&'a [u8]],
) -> usize
    requires marks { length marks.now ≡ length inputs.old }
    requires words { length words.old ≡ length inputs.old }
    ensures inputs { inputs.new ≡ left_behind turn marks.now inputs.old }
    ensures words { map (λ w. w.now) (take result words.new) ≡ words_given turn marks.now inputs.old }
    ensures count { result ≤ length words.new }
{
    let mut count = 0;
    for i in 0..inputs.len() {
        if marks[i] == turn {
            count = give(&mut inputs[i], words, count);
        }
    }
    count
}
