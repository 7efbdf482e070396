ghost use Rattle.std.specs.Prelude.{◌≡◌, All, IfOk, IfSome};
ghost use Rattle.faust_io.specs.Moments.{IsMoment, CountsEnd, first_of, after_first};

use crate::clock::Clock;
use faust_types::{Numbers, OutOfMemory};
use std::alloc::Global;
use std::marker::Model;

/// A clock in memory: the moments of its list, then None.
#[derive(Debug, Drop)]
pub struct ListClock {
    moments: Numbers,
    given: usize,
    ends: u64,
}

impl Model for ListClock {
    ghost use Rattle.std.specs.Prelude.{◌≤◌, All, length, drop};
    ghost use Rattle.faust_io.specs.Moments.{ListView, IsMoment};

    ghost Value = { ListView };

    ghost view = { λ clock. record { left = drop clock.given clock.moments; ends = clock.ends } };

    ghost invariant = { λ clock. (clock.given ≤ length clock.moments) × All IsMoment clock.moments };
}

impl ListClock {
    /// A clock of these moments, each of which is at most 2^40 - 1.
    pub fn new(alloc: Global, moments: &[u64]) -> Result<ListClock, OutOfMemory>
        requires { All IsMoment moments.now }
        ensures { IfOk result (λ clock. clock ≡ record { left = moments.now; ends = 0 }) }
    {
        Ok(ListClock {
            moments: Numbers::from_slice(alloc, moments)?,
            given: 0,
            ends: 0,
        })
    }

    /// How often it answered None.
    pub fn ends(&self) -> u64
        ensures { result ≡ self.now.ends }
    {
        self.ends
    }
}

impl Clock for ListClock {
    ghost ends = { λ clock. clock.ends };

    fn next(&mut self) -> Option<u64>
        ensures moment { IfSome result IsMoment }
        ensures count { CountsEnd result self.old.ends self.new.ends }

        // The first of the moments that are left, which is then gone.
        ensures first { result ≡ first_of self.old.left }
        ensures after { self.new ≡ after_first self.old.left self.old.ends }
    {
        if self.given < self.moments.len() {
            let moment = self.moments.as_slice()[self.given];
            self.given += 1;
            return Some(moment);
        }
        self.ends = self.ends.saturating_add(1);
        None
    }
}
