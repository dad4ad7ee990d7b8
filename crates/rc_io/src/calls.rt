ghost use Rattle.std.specs.Prelude.{◌≡◌, ◌≤◌, IsErr, is_err};
ghost use Rattle.rc_base.specs.Counts.{Counted, Rose};
ghost use Rattle.rc_io.specs.Calls.{Turns, after_turn, after_fault, is_listed};

use crate::failed::Failed;
use std::marker::Model;

// The calls of an object in memory, of which some are to fail.
#[derive(Drop)]
pub(crate) struct Calls {
    made: u64,
    fails: Vec<u64>,
    faults: u64,
}

impl Model for Calls {
    ghost use Rattle.rc_io.specs.Calls.{Turns};

    ghost Value = { Turns };

    ghost view = { λ c. record { made = c.made; fails = c.fails.items; faults = c.faults } };
}

impl Calls {
    // No call was made yet. The numbers are those of the calls that are to fail, from 1 on.
    pub(crate) fn new(fails: Vec<u64>) -> Calls
        ensures { result ≡ record { made = 0; fails = fails.items; faults = 0 } }
    {
        Calls {
            made: 0,
            fails,
            faults: 0,
        }
    }

    // Counts a call, and fails where it is listed.
    pub(crate) fn turn(&mut self) -> Result<(), Failed>
        ensures listed { is_err result ≡ is_listed self.old }
        ensures after { self.new ≡ after_turn self.old }
        ensures cause { Counted self.old.faults self.new.faults (IsErr result) }
    {
        self.made = self.made.saturating_add(1);
        if self.fails.contains(&self.made) {
            self.faults = self.faults.saturating_add(1);
            return Err(Failed);
        }
        Ok(())
    }

    // Counts a fault of another cause.
    pub(crate) fn fault(&mut self) -> Failed
        ensures after { self.new ≡ after_fault self.old }
        ensures later { self.old.faults ≤ self.new.faults }
        ensures rose { Rose self.old.faults self.new.faults }
    {
        self.faults = self.faults.saturating_add(1);
        Failed
    }
}
