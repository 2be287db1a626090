ghost use Rattle.std.specs.Prelude.{◌≡◌, ◌≤◌, IfOk};
ghost use Rattle.fk_base.specs.InMemory.{called, fails_next};

use crate::memory::NoMemory;
use crate::numbers::Numbers;
use std::alloc::Global;

/// Which calls of a source or a sink in memory fail.
#[derive(Drop)]
pub struct Calls {
    /// How many calls were made, up to the largest `u64`.
    pub made: u64,
    /// The numbers of the calls that fail, from 1.
    pub failing: Numbers,
    /// How many calls have failed, up to the largest `u64`.
    pub faults: u64,
}

impl Calls {
    pub(crate) fn new(alloc: Global, failing: &[u64]) -> Result<Calls, NoMemory>
        ensures { IfOk result (λ c. c ≡ record { made = 0; failing = failing.now; faults = 0 }) }
    {
        Ok(Calls {
            made: 0,
            failing: Numbers::from_slice(alloc, failing)?,
            faults: 0,
        })
    }

    /// Whether the next call is one that fails.
    pub(crate) fn fails_next(&self) -> bool
        ensures { result ≡ fails_next self.now }
    {
        let next = self.made.saturating_add(1);
        self.failing.as_slice().iter().any(|call| *call == next)
    }

    /// Counts a call, which failed or didn't.
    pub(crate) fn count(&mut self, failed: bool)
        ensures counted { self.new ≡ called failed self.old }
        ensures later { self.old.faults ≤ self.new.faults }
    {
        self.made = self.made.saturating_add(1);
        if failed {
            self.faults = self.faults.saturating_add(1);
        }
    }
}
