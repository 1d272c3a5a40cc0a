//! Two parts of the work of a step, side by side where there is enough of it.
use std::thread::{Threads, join};

/// Two parts with fewer changes than this take less time than a second thread does.
pub(crate) const MANY: usize = 1_000;

/// What both parts give: side by side where there is much to do, else one after the other.
pub(crate) fn both<R: Threads, A: Send, B, F: FnOnce() -> A + Send, G: FnOnce() -> B>(
    rt: &R,
    is_much: bool,
    first: F,
    second: G,
) -> (A, B)
    requires { F.pre first × G.pre second }
    ensures first { F.post first result.0 }
    ensures second { G.post second result.1 }
{
    if is_much {
        return join(rt, first, second);
    }
    (first(), second())
}
