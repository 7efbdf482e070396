ghost use Rattle.std.specs.Prelude.{◌≡◌, ◌↔◌, ◌≤◌, IsTrue, IfOk};

use crate::failed::Failed;
use faust_types::{Numbers, OutOfMemory};
use std::alloc::Global;

/// The calls of an object in memory, counted from 1: how many were made, the numbers of those that fail, and
/// how many failed. Both counts stop at the end of 64 bits.
#[derive(Debug, Drop)]
pub struct Calls {
    pub made: u64,
    pub failing: Numbers,
    pub faults: u64,
}

impl Calls {
    ghost use Rattle.faust_io.specs.Calls.{no_calls, IsNextFailing, after_success, after_failure, Admits, after_admitted};

    pub fn new(alloc: Global, failing: &[u64]) -> Result<Calls, OutOfMemory>
        ensures { IfOk result (λ calls. calls ≡ no_calls failing.now) }
    {
        Ok(Calls {
            made: 0,
            failing: Numbers::from_slice(alloc, failing)?,
            faults: 0,
        })
    }

    /// Whether the next call is one of those that fail.
    pub fn is_next_failing(&self) -> bool
        ensures { IsTrue result ↔ IsNextFailing self.now }
    {
        self.failing
            .as_slice()
            .contains(&self.made.saturating_add(1))
    }

    /// Counts a call that succeeds.
    pub fn succeed(&mut self)
        ensures { self.new ≡ after_success self.old }
    {
        self.made = self.made.saturating_add(1);
    }

    /// Counts a call that fails.
    pub fn fail(&mut self) -> Failed
        ensures counted { self.new ≡ after_failure self.old }
        ensures later { self.old.faults ≤ self.new.faults }
    {
        self.made = self.made.saturating_add(1);
        self.faults = self.faults.saturating_add(1);
        Failed
    }

    /// How many of the next `wanted` calls succeed before one fails: all where none does. It counts those, and
    /// the one that fails, but no fault.
    pub fn admit(&mut self, wanted: usize) -> usize
        ensures within { result ≤ wanted }
        ensures admits { Admits self.old wanted result }
        ensures after { self.new ≡ after_admitted self.old wanted result }
    {
        let _made = self.made;
        for passed in 0..wanted {
            let fails = self.is_next_failing();
            self.succeed();
            if fails {
                return passed;
            }
        }
        wanted
    }
}
