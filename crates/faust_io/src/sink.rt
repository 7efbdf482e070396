ghost use Rattle.std.specs.Prelude.{ℕ, List, Option};
ghost use Rattle.faust_io.specs.Faults.{Counts};
ghost use Rattle.faust_io.specs.Writing.{Writes};

use crate::failed::Failed;

/// Where bytes go.
pub trait Sink {
    /// The bytes that it holds, where the type tells them. A sink that tells goes on telling.
    ghost held: { Self → Option (List ℕ) };

    /// How many writes failed. The number may stop at the end of 64 bits.
    ghost faults: { Self → ℕ };

    /// Puts the first bytes of the piece behind those that the sink holds, and answers how many: at least one
    /// of a piece that has any. `Failed` took nothing.
    fn write(&mut self, piece: &[u8]) -> Result<usize, Failed>
        ensures count { Counts result (faults self.old) (faults self.new) }
        ensures bytes { Writes (held self.old) (held self.new) piece.now result };
}
