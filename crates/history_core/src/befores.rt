//! Whether befores may be those of a file.
ghost use Rattle.std.specs.Prelude.{◌≡◌, ◌+◌, ◌<◌, ◌↔◌, length, All, AllPairs, IsTrue};
ghost use Rattle.history_core.specs.Befores.{IsEarlier, IsNumber, HasLengths, IsBefore, AreBefores};
ghost use Rattle.history_core.specs.KeyWord.{before_at};

use crate::key_word::{is_inside, order};
use agg_model::{Before, Befores, KEY_MOST, VALUE_MOST};
use word_file::Tag;

fn is_number(tag: Tag, tx: u64) -> bool
    ensures { IsTrue result ↔ IsNumber tag tx }
{
    is_inside(tag, tx)
}

fn has_lengths(row: &Before) -> bool
    ensures { IsTrue result ↔ HasLengths row.now }
{
    let key = row.key.as_slice().len() as u64;
    let value = row.value.as_slice().len() as u64;
    1 <= key && key <= KEY_MOST && value <= VALUE_MOST
}

fn is_before(tag: Tag, row: &Before) -> bool
    ensures { IsTrue result ↔ IsBefore tag row.now }
{
    has_lengths(row) && is_number(tag, row.tx)
}

fn all_fit(tag: Tag, rows: &[Before]) -> bool
    ensures { IsTrue result ↔ All (IsBefore tag) rows.now }
{
    for row in rows {
        if !is_before(tag, row) {
            return false;
        }
    }
    true
}

/// Whether the one at a place comes before the next.
#[tactic(auto, unfolding(crate::specs::Befores::order_of))]
fn goes_up(rows: &[Before], place: usize) -> bool
    requires { place + 1 < length rows.now }
    ensures { IsTrue result ↔ IsEarlier (before_at rows.now place) (before_at rows.now (place + 1)) }
{
    let row = &rows[place];
    let next = &rows[place + 1];
    order(row.key.as_slice(), row.tx, next.key.as_slice(), next.tx).is_lt()
}

fn all_go_up(rows: &[Before]) -> bool
    ensures { IsTrue result ↔ AllPairs IsEarlier rows.now }
{
    for place in 0..rows.len().saturating_sub(1) {
        if !goes_up(rows, place) {
            return false;
        }
    }
    true
}

/// Whether `build_v` takes the befores under this tag: they ascend strictly by key and number, lengths are within
/// their limits, and numbers in the steps.
pub fn are_befores(tag: Tag, rows: &Befores) -> bool
    ensures { IsTrue result ↔ AreBefores tag rows.now }
{
    all_fit(tag, rows.as_slice()) && all_go_up(rows.as_slice())
}
