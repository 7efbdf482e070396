ghost use Rattle.std.specs.Prelude.{◌≡◌, ℕ, List, Option};
ghost use Rattle.faust_link.specs.Counts.{CountsLink, CountsEnd};
ghost use Rattle.faust_link.specs.Frames.{IsFrame};
ghost use Rattle.faust_link.specs.Links.{Receives, Sends};

use crate::answers::{Got, LinkError};
use faust_types::Bytes;

/// The end of a stream at which frames come out.
pub trait FrameIn {
    /// The bytes of the stream that are to come, where the type tells them.
    ghost left: { Self → Option (List ℕ) };

    /// How many calls failed. The number may stop at the end of 64 bits.
    ghost faults: { Self → ℕ };

    /// How many calls answered `Ended`. The number may stop at the end of 64 bits.
    ghost ends: { Self → ℕ };

    /// Waits for the next frame, and puts it in place of what the buffer has: 1 to 16,384 bytes. `Ended` says
    /// that the stream ended between two frames. With any other answer the buffer is as before.
    fn recv(&mut self, into: &mut Bytes) -> Result<Got, LinkError>
        ensures faults { CountsLink result (faults self.old) (faults self.new) }
        ensures ends { CountsEnd result (ends self.old) (ends self.new) }
        ensures bytes { Receives (left self.old) (left self.new) into.old into.new result };
}

/// The end of a stream into which frames are sent.
pub trait FrameOut {
    /// The bytes that went out, where the type tells them.
    ghost sent: { Self → Option (List ℕ) };

    /// How many calls failed. The number may stop at the end of 64 bits.
    ghost faults: { Self → ℕ };

    /// Sends a frame of 1 to 16,384 bytes.
    fn send(&mut self, frame: &[u8]) -> Result<(), LinkError>
        requires { IsFrame frame.now }
        ensures faults { CountsLink result (faults self.old) (faults self.new) }
        ensures bytes { Sends (sent self.old) (sent self.new) frame.now result };

    /// Ends the stream, so that the other end finds its end behind the frames that were sent.
    fn close(&mut self)
        ensures faults { faults self.new ≡ faults self.old }
        ensures bytes { sent self.new ≡ sent self.old };
}
