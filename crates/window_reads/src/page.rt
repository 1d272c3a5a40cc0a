//! What a read gives that stops at a limit.
ghost use Rattle.std.specs.Prelude.{◌≡◌, ◌≤◌, ◌+◌, length};
ghost use Rattle.agg_model.specs.Listed.{limited};

use agg_outside::Numbers;

/// The first numbers of a key, and the next one where there is one.
#[derive(Debug, Drop)]
pub struct TimesPage {
    pub items: Numbers,
    pub more: Option<u64>,
}

/// A page of the numbers, of which at most one is more than fit.
pub(crate) fn page_of(mut found: Numbers, limit: usize) -> TimesPage
    requires { length found ≤ limit + 1 }
    ensures { (result.items, result.more) ≡ limited (λ t. t) limit found }
{
    if found.len() <= limit {
        return TimesPage {
            items: found,
            more: None,
        };
    }
    let more = found.remove(limit);
    TimesPage {
        items: found,
        more: Some(more),
    }
}
