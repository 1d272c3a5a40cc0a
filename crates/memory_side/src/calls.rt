ghost use Rattle.std.specs.Prelude.{◌≡◌, ◌==◌, ◌↔◌, IfOk, IsErr, IsTrue};
ghost use Rattle.std.specs.Ordering.{nat_cmp};
ghost use Rattle.std.specs.List.{list_any};
ghost use Rattle.std.specs.List.Sorted.{IsPermutation, IsSorted};
ghost use Rattle.memory_side.specs.Memory.{CallCount, called, fails_next};

use agg_outside::{Failed, Memory};
use std::alloc::Global;
use std::marker::Model;

/// Counts the calls of an object and knows which of them fail.
#[derive(Debug, Drop)]
pub struct Calls {
    calls: u64,
    // As they were given, and the same in ascending order.
    fails: Vec<u64>,
    ascending: Vec<u64>,
    faults: u64,
}

impl Model for Calls {
    ghost use Rattle.std.specs.Ordering.{nat_cmp};
    ghost use Rattle.std.specs.List.Sorted.{IsPermutation, IsSorted};
    ghost use Rattle.memory_side.specs.Memory.{CallCount};

    ghost Value = { CallCount };

    ghost view = { λ c. record { calls = c.calls; fails = c.fails.items; faults = c.faults } };

    ghost invariant = { λ c. IsPermutation c.fails.items c.ascending.items × IsSorted nat_cmp c.ascending.items };
}

impl Calls {
    /// No calls yet; those with these numbers, counted from 1, will fail.
    pub fn new(alloc: Global, fails: &[u64]) -> Result<Calls, Memory>
        ensures { IfOk result (λ c. c ≡ record { calls = 0; fails = fails.now; faults = 0 }) }
    {
        let fails = Vec::from_slice(alloc, fails)?;
        let mut ascending = Vec::from_slice(alloc, fails.as_slice())?;
        ascending.sort_unstable();
        Ok(Calls {
            calls: 0,
            fails,
            ascending,
            faults: 0,
        })
    }

    /// Counts one more call, and a fault where that call fails.
    pub fn begin(&mut self) -> Result<(), Failed>
        ensures fails { IsErr result ↔ IsTrue (fails_next self.old) }
        ensures counted { self.new ≡ called self.old }
    {
        self.calls = self.calls.saturating_add(1);
        if stands_in(&self.fails, &self.ascending, self.calls) {
            self.faults = self.faults.saturating_add(1);
            return Err(Failed);
        }
        Ok(())
    }
}

// Whether the number is one of these, by halving among them in ascending order.
fn stands_in(fails: &[u64], ascending: &[u64], number: u64) -> bool
    requires same { IsPermutation fails.now ascending.now }
    requires sorted { IsSorted nat_cmp ascending.now }
    ensures { result ≡ list_any (λ other. other == number) fails.now }
{
    ascending.binary_search(&number).is_ok()
}
