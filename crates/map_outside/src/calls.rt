//! The calls of a form in memory, and which of them are to fail.
ghost use Rattle.std.specs.Prelude.{◌≡◌};
ghost use Rattle.map_nums.specs.Counts.{raised};
ghost use Rattle.map_outside.specs.Calls.{is_next_listed, called};

use std::marker::Model;

/// How many calls were made, the numbers of those that are to fail, and how many failed.
#[derive(Drop)]
pub(crate) struct Calls {
    made: u64,
    fails: Vec<u64>,
    faults: u64,
}

impl Model for Calls {
    ghost use Rattle.map_outside.specs.Calls.{CallState};

    ghost Value = { CallState };

    ghost view = { λ c. record { made = c.made; fails = c.fails.items; faults = c.faults } };
}

impl Calls {
    pub(crate) fn new(fails: Vec<u64>) -> Calls
        ensures { result ≡ record { made = 0; fails = fails.items; faults = 0 } }
    {
        Calls {
            made: 0,
            fails,
            faults: 0,
        }
    }

    /// One more call. Whether it is one of those that are to fail.
    pub(crate) fn next_is_listed(&mut self) -> bool
        ensures listed { result ≡ is_next_listed self.old }
        ensures state { self.new ≡ called self.old }
    {
        self.made = self.made.saturating_add(1);
        self.fails.contains(&self.made)
    }

    /// One more fault.
    pub(crate) fn raise_faults(&mut self)
        ensures { self.new ≡ record self.old { faults = raised self.old.faults 1 } }
    {
        self.faults = self.faults.saturating_add(1);
    }
}
