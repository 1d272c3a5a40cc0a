//! Versioned rows: each row is seen from the epoch at which it was written up to that at which it was
//! killed, so that what an earlier epoch sees stays while later ones write and kill.
#![tactic(auto)]

mod error;
mod killed;
mod places;
mod rows;
mod scan;
mod shared;
mod writes;

pub use error::RowsError;
pub use places::{behind, change_of, first_place, is_before, is_seen, next_piece, place_at};
pub use rows::Rows;
