ghost use Rattle.std.specs.Prelude.{◌≡◌};
ghost use Rattle.std.specs.Option.{option_copied};
ghost use Rattle.agg_model.specs.Listed.{is_under};
ghost use Rattle.window_pages.specs.Asking.{number_from, number_to, bound_of};

use crate::order::is_below;
use agg_model::Range;
use agg_outside::Bytes;

/// Which rows a page is asked for.
#[derive(Drop)]
pub enum Asked {
    /// Those of the keys under a bound that have a value just before `n`, with that value.
    Values { n: u64, to: Option<Bytes> },
    /// Those of the keys that changed from one number on and below another, with their values before.
    Changes { from: u64, to: u64 },
}

/// The numbers of the changes whose keys can have rows.
pub(crate) fn numbers_of(asked: &Asked) -> Range
    ensures from { result.from ≡ number_from asked.now }
    ensures to { result.to ≡ number_to asked.now }
{
    match asked {
        Asked::Values { n, .. } => Range { from: 0, to: *n },
        Asked::Changes { from, to } => Range {
            from: *from,
            to: *to,
        },
    }
}

/// Whether the key is under the bound, where there is one.
pub(crate) fn is_under(asked: &Asked, key: &[u8]) -> bool
    ensures { result ≡ is_under (bound_of asked.now) key.now }
{
    match asked {
        Asked::Values {
            to: Some(bound),
            ..
        } => is_below(key, bound.as_slice()),
        Asked::Values { to: None, .. } => true,
        Asked::Changes { .. } => true,
    }
}
