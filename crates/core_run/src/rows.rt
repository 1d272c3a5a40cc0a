//! The open rows.
ghost use Rattle.std.specs.Prelude.{◌≡◌, false, OnSome, IfSome, IsNone};
ghost use Rattle.core_machine.specs.Sound.{is_row, has_row};
ghost use Rattle.core_run.specs.Rows.{IsPlaceOf};
ghost use Rattle.core_run.specs.Running.{opening_of, openings};

use crate::running::Row;

fn is_row(row: &Row, caller: u32, number: u64) -> bool
    ensures { result ≡ is_row caller number (opening_of row.now) }
{
    row.caller == caller && row.number == number
}

/// Where the caller's row of this number stands.
pub fn place_of_row(rows: &[Row], caller: u32, number: u64) -> Option<usize>
    ensures some { IfSome result (IsPlaceOf rows.now caller number) }
    ensures none { IsNone result → has_row (openings rows.now) caller number ≡ false }
{
    for (i, row) in rows.iter().enumerate() {
        if is_row(row, caller, number) {
            return Some(i);
        }
    }
    None
}

/// Whether the caller has an open row of this number.
pub fn is_open(rows: &[Row], caller: u32, number: u64) -> bool
    ensures { result ≡ has_row (openings rows.now) caller number }
{
    for row in rows {
        if is_row(row, caller, number) {
            return true;
        }
    }
    false
}
