//! What the threads take by turns: a counter, with a number that each turn works on.
ghost use Rattle.std.specs.Prelude.{◌≡◌, ◌+◌, ◌%◌, ◌^◌, length};

use std::marker::Brand;
use turn_cell::{Kept, Naming, Recorded};

/// How many turns were taken, and the number after so many rounds of each.
#[derive(Drop)]
pub struct Counter {
    pub turns: u64,
    pub value: u64,
}

/// One turn: who took it.
pub struct Entry {
    pub by: u64,
}

impl Recorded for Entry {
    type Start = ();

    ghost caller = { λ e. e.by };
}

impl Kept for Counter {
    type Record = Entry;

    ghost stands = { λ x log. x.turns ≡ length log % 2 ^ 64 };

    ghost start = { λ x. tt };
}

impl Naming<Entry> for Brand {
    ghost added = { record { by = 0 } };
}

impl Counter {
    /// One turn's work. What the number is depends on the count of all rounds alone.
    pub fn work(&mut self, rounds: u64)
        ensures { self.new.turns ≡ (self.old.turns + 1) % 2 ^ 64 }
    {
        let mut value = self.value;
        for _round in 0..rounds {
            value ^= value << 13;
            value ^= value >> 7;
            value ^= value << 17;
        }
        self.value = value;
        self.turns = self.turns.wrapping_add(1);
    }
}
