// The counts of a stream's or an applier's calls, of which those that a list has fail.
ghost use Rattle.std.specs.Prelude.{◌≡◌, ◌≤◌, ◌↔◌, IsErr, IsTrue, is_err, if◌then◌else◌};
ghost use Rattle.rt_streams.specs.Streams.{next_count};
ghost use Rattle.rt_streams.specs.Memory.{CallCounts, fails_next};

use crate::Failed;
use std::marker::Model;

/// Counts calls, and says which fail: those whose numbers, counted from 1, are in a list. Each count stops at
/// 2^64 - 1. For sources, sinks and appliers of tests. This project's own rule.
#[derive(Drop)]
pub struct CallCounter {
    failing: Vec<u64>,
    made: u64,
    faults: u64,
}

impl Model for CallCounter {
    ghost use Rattle.rt_streams.specs.Memory.{CallCounts};

    ghost Value = { CallCounts };

    ghost view = { λ c. record { failing = c.failing.items; made = c.made; faults = c.faults } };
}

impl CallCounter {
    /// Returns the counter of no calls. The calls whose numbers are in `failing` are to fail.
    pub fn new(failing: Vec<u64>) -> Self
        ensures { result ≡ record { failing = failing.items; made = 0; faults = 0 } }
    {
        CallCounter {
            failing,
            made: 0,
            faults: 0,
        }
    }

    /// Counts a failed call.
    pub fn fault(&mut self)
        ensures counted { self.new ≡ record self.old { faults = next_count self.old.faults } }
        ensures later { self.old.faults ≤ self.new.faults }
    {
        self.faults = self.faults.saturating_add(1);
    }

    /// Counts the next call, and fails if the list has its number.
    pub fn next(&mut self) -> Result<(), Failed>
        ensures fails { IsErr result ↔ IsTrue (fails_next self.old.failing self.old.made) }
        ensures failing { self.new.failing ≡ self.old.failing }
        ensures made { self.new.made ≡ next_count self.old.made }
        ensures faults { self.new.faults ≡ (if is_err result then next_count self.old.faults else self.old.faults) }
        ensures later { self.old.faults ≤ self.new.faults }
    {
        self.made = self.made.saturating_add(1);
        if self.failing.contains(&self.made) {
            self.fault();
            return Err(Failed);
        }
        Ok(())
    }
}
