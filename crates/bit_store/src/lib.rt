//! Lists of bits as texts, and Rice codes in them.
#![tactic(auto)]

mod bits;
mod reserved;
mod rice;
mod view;

pub use bits::Bits;
pub use reserved::ReservedBits;
pub use rice::{RiceReader, RiceWriter};
pub use view::BitView;

#[cfg(test)]
mod tests;
