ghost use Rattle.std.specs.Prelude.{◌≡◌, ℕ, IfSome};
ghost use Rattle.faust_io.specs.Moments.{IsMoment, CountsEnd};

/// What gives moments: plain numbers of at most 2^40 - 1, in a unit of the clock's own.
pub trait Clock {
    /// How often it answered None. The number may stop at the end of 64 bits.
    ghost ends: { Self → ℕ };

    /// Waits for the next moment, and answers it. None ends the ticks.
    fn next(&mut self) -> Option<u64>
        ensures moment { IfSome result IsMoment }
        ensures count { CountsEnd result (ends self.old) (ends self.new) };
}
