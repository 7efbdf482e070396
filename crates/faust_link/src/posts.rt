ghost use Rattle.std.specs.Prelude.{◌≡◌, ℕ, List, Option};
ghost use Rattle.faust_link.specs.Counts.{CountsLink};
ghost use Rattle.faust_link.specs.Frames.{IsFrame};
ghost use Rattle.faust_link.specs.Links.{TakesPost};

use crate::answers::{Got, LinkError};
use faust_types::Bytes;

/// Where a client's datagrams come in, one message each. One of another length than 1 to 16,384 bytes counts as
/// lost.
pub trait PostIn {
    /// The datagrams that stand there, where the type tells them.
    ghost standing: { Self → Option (List (List ℕ)) };

    /// How many calls failed. The number may stop at the end of 64 bits.
    ghost faults: { Self → ℕ };

    /// Puts a datagram that stands there in place of what the buffer has. `Idle` says that none stood there when
    /// this call looked. With any other answer than `Frame` the buffer is as before.
    fn take(&mut self, into: &mut Bytes) -> Result<Got, LinkError>
        ensures faults { CountsLink result (faults self.old) (faults self.new) }
        ensures datagram { TakesPost (standing self.old) (standing self.new) into.old into.new result };
}

/// Where a client's datagrams go out.
pub trait PostOut {
    /// How many calls failed. The number may stop at the end of 64 bits.
    ghost faults: { Self → ℕ };

    /// Gives a message of 1 to 16,384 bytes to the post of client `to`. It may be lost, repeated or overtaken.
    fn give(&mut self, to: u8, bytes: &[u8]) -> Result<(), LinkError>
        requires { IsFrame bytes.now }
        ensures { CountsLink result (faults self.old) (faults self.new) };
}
