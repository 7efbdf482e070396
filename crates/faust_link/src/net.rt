ghost use Rattle.std.specs.Prelude.{◌≡◌, ℕ, IfOk};
ghost use Rattle.faust_link.specs.Counts.{CountsLink, CountsBack};

use crate::answers::LinkError;
use crate::posts::{PostIn, PostOut};
use crate::streams::{FrameIn, FrameOut};

/// What makes the streams between clients and a server, and the posts between clients. What it makes starts with
/// the count 0, and comes back to it.
pub trait Net {
    type In: FrameIn + Send + Drop;

    type Out: FrameOut + Send + Drop;

    type Pin: PostIn + Send + Drop;

    type Pout: PostOut + Send + Drop;

    /// How many calls failed, and how many links and posts came back with a count. The number may stop at the
    /// end of 64 bits.
    ghost faults: { Self → ℕ };

    /// Makes ready for n clients.
    fn listen(&mut self, n: u8) -> Result<(), LinkError>
        ensures { CountsLink result (faults self.old) (faults self.new) };

    /// Client i's ends of its stream.
    fn connect(&mut self, i: u8) -> Result<(Self::In, Self::Out), LinkError>
        ensures faults { CountsLink result (faults self.old) (faults self.new) }
        ensures in_fresh { IfOk result (λ ends. Self.In.faults ends.0 ≡ 0) }
        ensures out_fresh { IfOk result (λ ends. Self.Out.faults ends.1 ≡ 0) };

    /// The server's ends of the next stream that was connected.
    fn accept(&mut self) -> Result<(Self::In, Self::Out), LinkError>
        ensures faults { CountsLink result (faults self.old) (faults self.new) }
        ensures in_fresh { IfOk result (λ ends. Self.In.faults ends.0 ≡ 0) }
        ensures out_fresh { IfOk result (λ ends. Self.Out.faults ends.1 ≡ 0) };

    /// The ends of client i's post.
    fn post(&mut self, i: u8) -> Result<(Self::Pin, Self::Pout), LinkError>
        ensures faults { CountsLink result (faults self.old) (faults self.new) }
        ensures in_fresh { IfOk result (λ ends. Self.Pin.faults ends.0 ≡ 0) }
        ensures out_fresh { IfOk result (λ ends. Self.Pout.faults ends.1 ≡ 0) };

    /// Takes a stream's end back. The count rises exactly where that of the link isn't 0.
    fn back_in(&mut self, link: Self::In)
        ensures { CountsBack (Self.In.faults link) (faults self.old) (faults self.new) };

    /// As `back_in`, for the other end.
    fn back_out(&mut self, link: Self::Out)
        ensures { CountsBack (Self.Out.faults link) (faults self.old) (faults self.new) };

    /// As `back_in`, for a post.
    fn back_pin(&mut self, post: Self::Pin)
        ensures { CountsBack (Self.Pin.faults post) (faults self.old) (faults self.new) };

    /// As `back_in`, for a post's other end.
    fn back_pout(&mut self, post: Self::Pout)
        ensures { CountsBack (Self.Pout.faults post) (faults self.old) (faults self.new) };
}
