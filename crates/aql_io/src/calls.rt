ghost use Rattle.std.specs.Prelude.{◌≡◌, ◌≤◌, ◌↔◌, IsTrue, Contains};
ghost use Rattle.aql_io.specs.Causes.{counted};

use crate::Failed;
use crate::faults::Faults;
use std::marker::Model;

/// The calls on an object in memory: the numbers of those that are to fail, how many were made and
/// how many failed. Both counts stop at 2^64 - 1.
#[derive(Debug, Drop)]
pub struct Calls {
    fail: Vec<u64>,
    made: u64,
    faults: Faults,
}

impl Model for Calls {
    ghost use Rattle.aql_io.specs.InMemory.{CallLog};

    ghost Value = { CallLog };

    ghost view = { λ c. record { fail = c.fail.items; made = c.made; faults = c.faults } };
}

impl Calls {
    ghost use Rattle.aql_io.specs.InMemory.{no_calls, NextIsListed};

    /// No call yet; those whose numbers, from 1, stand in `fail` are to fail.
    pub fn new(fail: Vec<u64>) -> Calls
        ensures { result ≡ no_calls fail.items }
    {
        Calls {
            fail,
            made: 0,
            faults: Faults::new(),
        }
    }

    /// Counts one more call, and tells whether it is to fail.
    pub fn begin(&mut self) -> bool
        ensures listed { IsTrue result ↔ NextIsListed self.old }
        ensures made { self.new ≡ record self.old { made = counted self.old.made } }
    {
        self.made = self.made.saturating_add(1);
        self.fail.contains(&self.made)
    }

    /// Counts one more fault, and gives what the call that failed answers.
    pub fn fail(&mut self) -> Failed
        ensures faults { self.new ≡ record self.old { faults = counted self.old.faults } }
        ensures later { self.old.faults ≤ self.new.faults }
    {
        self.faults.fail()
    }
}
