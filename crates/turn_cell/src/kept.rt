//! What a cell keeps, and what its history is made of.
ghost use Rattle.std.specs.Prelude.{ℕ, List};

use std::marker::Send;

/// A record of a history: what one turn did. Each has the number of the pass that did it.
pub trait Recorded {
    /// What stays the same of a cell's states, as a limit. It exists in contracts alone.
    type Start;

    ghost caller: { Self → ℕ };
}

/// A state that passes take by turns, with the histories that it stands for.
pub trait Kept: Send + Drop {
    type Record: Recorded;

    ghost stands: { Self → List Self.Record → Type 0 };

    ghost start: { Self → Self.Record.Start };
}

/// Which record a turn adds. Each call of a program names its own; it has no bytes at run time.
pub trait Naming<R> {
    ghost added: { R };
}
