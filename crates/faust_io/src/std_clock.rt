ghost use Rattle.std.specs.Prelude.{◌≡◌, ◌+◌, ◌^◌, ◌≤◌, ◌↔◌, IsNone, IfSome};
ghost use Rattle.faust_io.specs.Moments.{IsMoment, CountsEnd};

use crate::clock::Clock;
use std::marker::Model;
use std::time::Duration;
use std::{thread, time};

/// The first number that is no moment.
const END_OF_MOMENTS: u64 = 1 << 40;

/// A clock in milliseconds: one period, two periods, and so on. It sleeps a period before each moment, so the
/// moments are at the time that went by or behind it.
#[derive(Debug, Drop)]
pub struct StdClock<T> {
    time: T,
    period: u64,
    moment: u64,
    ends: u64,
}

impl<T> Model for StdClock<T> {
    ghost use Rattle.faust_io.specs.Moments.{PeriodView, IsMoment};

    ghost Value = { PeriodView };

    ghost view = { λ clock. record { moment = clock.moment; period = clock.period; ends = clock.ends } };

    ghost invariant = { λ clock. IsMoment clock.moment };
}

impl<T: time::Clock> StdClock<T> {
    /// A clock that begins at moment 0, with so many milliseconds from moment to moment.
    pub fn new(time: T, period: u64) -> StdClock<T>
        ensures { result ≡ record { moment = 0; period = period; ends = 0 } }
    {
        StdClock {
            time,
            period,
            moment: 0,
            ends: 0,
        }
    }

    /// How often it answered None.
    pub fn ends(&self) -> u64
        ensures { result ≡ self.now.ends }
    {
        self.ends
    }
}

impl<T: time::Clock> Clock for StdClock<T> {
    ghost ends = { λ clock. clock.ends };

    fn next(&mut self) -> Option<u64>
        ensures moment { IfSome result IsMoment }
        ensures count { CountsEnd result self.old.ends self.new.ends }

        // It ends only where the next moment would be above the last one that there is.
        ensures end { IsNone result ↔ (2 ^ 40 ≤ self.old.moment + self.old.period) }
        ensures later { IfSome result (λ moment. (moment ≡ self.old.moment + self.old.period) × (self.new.moment ≡ moment)) }
        ensures same { self.new.period ≡ self.old.period }
    {
        let next = self.moment.saturating_add(self.period);
        if next >= END_OF_MOMENTS {
            self.ends = self.ends.saturating_add(1);
            return None;
        }
        thread::sleep(&self.time, Duration::from_millis(self.period));
        self.moment = next;
        Some(next)
    }
}
