ghost use Rattle.std.specs.Prelude.{ℕ, List, Option};
ghost use Rattle.faust_io.specs.Faults.{Counts};
ghost use Rattle.faust_io.specs.Reading.{Reads};

use crate::failed::Failed;

/// Where bytes come from.
pub trait Source {
    /// The bytes that are left, where the type tells them. A source that tells goes on telling.
    ghost left: { Self → Option (List ℕ) };

    /// How many reads failed. The number may stop at the end of 64 bits.
    ghost faults: { Self → ℕ };

    /// Puts the next bytes at the front of the buffer, and answers how many: 0 into a buffer with room only
    /// at the end. `Failed` gave nothing. What stands in the rest of the buffer isn't said.
    fn read(&mut self, buf: &mut [u8]) -> Result<usize, Failed>
        ensures count { Counts result (faults self.old) (faults self.new) }
        ensures bytes { Reads (left self.old) (left self.new) buf.new result };
}
