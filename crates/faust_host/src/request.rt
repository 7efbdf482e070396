// What a client asks of the server.
ghost use Rattle.std.specs.Prelude.{◌≡◌, ◌⊎◌, IfOk, Some, None, MatchResult};
ghost use Rattle.faust_types.specs.Clients.{IsClientCount};
ghost use Rattle.faust_types.specs.declared.arrival.Closing.TheVariants as closings;
ghost use Rattle.faust_host.specs.Requests.{request_in, IsRequestFor};

use faust_types::{Closing, Commit, Message, Submit};
use faust_wire::{WireError, decode};
use std::alloc::Global;

/// The version of the wire that a host reads and writes.
pub const WIRE: u8 = 1;

/// A message that asks something of the server.
#[derive(Debug, Drop)]
pub enum Request {
    Submit(Submit),
    Commit(Commit),
}

/// The request that the bytes spell for n clients. `Malformed` comes exactly where they spell none.
#[tactic(auto, unfolding(crate::specs::Requests::request_in))]
pub fn request_in(alloc: Global, n: u8, bytes: &[u8]) -> Result<Request, Closing>
    requires { IsClientCount n }
    ensures asked { MatchResult result (λ request. request_in n bytes.now ≡ Some request)
        (λ closing. (closing ≡ closings.Memory) ⊎ ((closing ≡ closings.Malformed) × (request_in n bytes.now ≡ None))) }
    ensures in_range { IfOk result (IsRequestFor n) }
{
    match decode(alloc, WIRE, n, bytes) {
        Ok(Message::Submit(m)) => Ok(Request::Submit(m)),
        Ok(Message::Commit(m)) => Ok(Request::Commit(m)),
        Ok(Message::Reply(_)) => Err(Closing::Malformed),
        Ok(Message::Peer(_)) => Err(Closing::Malformed),
        Ok(Message::Hello(_)) => Err(Closing::Malformed),
        Err(WireError::Malformed) => Err(Closing::Malformed),
        Err(WireError::OutOfMemory) => Err(Closing::Memory),
    }
}
