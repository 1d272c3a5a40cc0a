//! Where links come from.
ghost use Rattle.std.specs.Prelude.{◌≡◌, ◌+◌, ◌<◌, ◌≤◌, ◌++◌, [], ◌∷◌, ℕ, List, Option, Some, None, IfSome, IfNone, IfOk, OnOk, OnErr};
ghost use Rattle.agg_outside.specs.Counts.{FailsForCause};
ghost use Rattle.agg_outside.specs.Links.{Closed, IsFirst, IsExhausted, given_after};

use crate::errors::Failed;
use crate::sink::Sink;
use crate::source::Source;

/// Accepts links, gives them out and takes them back.
///
/// A contract can name the bytes of the links that are left only if the doors tell them, and likewise
/// the links that were taken back. For each of the two, doors either always tell or never do: no call
/// makes them begin or stop.
pub trait Doors {
    /// The input of a link.
    type In: Source + Send + Drop;

    /// The output of a link.
    type Out: Sink + Send + Drop;

    /// A link that was closed.
    type Done: Send + Drop;

    /// How often the doors have failed.
    ghost faults: { Self → ℕ };

    /// The port of the last `listen` that was Ok, and 0 before.
    ghost port: { Self → ℕ };

    /// The number of links of the last `listen` that was Ok, and 0 before.
    ghost links: { Self → ℕ };

    /// How many links were given out since.
    ghost given: { Self → ℕ };

    /// How many links were taken back since.
    ghost taken: { Self → ℕ };

    /// The bytes of each link that is left, in order, where it tells them.
    ghost left: { Self → Option (List (List ℕ)) };

    /// The links taken back since, in order, where it tells them.
    ghost back: { Self → Option (List Closed) };

    /// What a closed link tells.
    ghost closed: { Self.Done → Closed };

    /// From now on `count` links are accepted on the port `number`. After `Failed` nothing changed.
    fn listen(&mut self, number: u16, count: u32) -> Result<(), Failed>
        ensures ok { OnOk result ((port self.new ≡ number) × (links self.new ≡ count) × (given self.new ≡ 0) × (taken self.new ≡ 0)) }
        ensures emptied { OnOk result (IfSome (back self.old) (λ _. back self.new ≡ Some [])) }
        ensures err { OnErr result ((port self.new ≡ port self.old) × (links self.new ≡ links self.old)
            × (given self.new ≡ given self.old) × (taken self.new ≡ taken self.old) × (back self.new ≡ back self.old)) }
        ensures silent { IfNone (back self.old) (back self.new ≡ None) }
        ensures left { left self.new ≡ left self.old }
        ensures cause { FailsForCause (faults self.old) (faults self.new) result };

    /// The next link, with both counts 0. It may wait. After `Failed` no link was given out.
    fn next_link(&mut self) -> Result<Option<(Self::In, Self::Out)>, Failed>
        ensures fresh { IfOk result (λ next. IfSome next (λ link. (Self.In.faults link.0 ≡ 0) × (Self.Out.faults link.1 ≡ 0))) }
        ensures within { IfOk result (λ next. IfSome next (λ link. given self.old < links self.old)) }
        ensures first { IfOk result (λ next. IfSome next (λ link. IfSome (left self.old) (λ inputs.
            IsFirst inputs (left self.new) (Self.In.left link.0) (Self.Out.bytes link.1)))) }

        // `None` comes only so; by the two clauses before, a link comes only otherwise.
        ensures none { IfOk result (λ next. IfNone next (IsExhausted (given self.old) (links self.old) (left self.old))) }
        ensures none_taken { IfOk result (λ next. IfNone next (left self.new ≡ left self.old)) }
        ensures counted { IfOk result (λ next. given self.new ≡ given_after (given self.old) next) }
        ensures err { OnErr result ((given self.new ≡ given self.old) × (left self.new ≡ left self.old)) }
        ensures silent { IfNone (left self.old) (left self.new ≡ None) }
        ensures back { (back self.new ≡ back self.old) × (taken self.new ≡ taken self.old) }
        ensures listening { (port self.new ≡ port self.old) × (links self.new ≡ links self.old) }
        ensures cause { FailsForCause (faults self.old) (faults self.new) result };

    /// Ends the link.
    fn close_link(input: Self::In, output: Self::Out) -> Self::Done
        ensures told { closed result ≡ record {
          source_faults = Self.In.faults input;
          sink_faults = Self.Out.faults output;
          left = Self.In.left input;
          written = Self.Out.bytes output;
        } };

    /// Adds the closed link to those taken back.
    fn take_back(&mut self, done: Self::Done)
        requires { taken self.old < given self.old }
        ensures back { IfSome (back self.old) (λ links. back self.new ≡ Some (links ++ closed done ∷ [])) }
        ensures silent { IfNone (back self.old) (back self.new ≡ None) }
        ensures counted { taken self.new ≡ taken self.old + 1 }
        ensures left { left self.new ≡ left self.old }
        ensures listening { (port self.new ≡ port self.old) × (links self.new ≡ links self.old) × (given self.new ≡ given self.old) }
        ensures faults { faults self.old ≤ faults self.new };
}
