// What stands first in a connection.
ghost use Rattle.std.specs.Prelude.{◌≡◌, ◌⊎◌, Some, None, IfOk, MatchResult};
ghost use Rattle.faust_types.specs.Clients.{IsClientCount, IsClient};
ghost use Rattle.faust_types.specs.declared.arrival.Closing.TheVariants as closings;
ghost use Rattle.faust_host.specs.Requests.{client_in};

use crate::request::WIRE;
use faust_types::{Closing, Message};
use faust_wire::{WireError, decode};
use std::alloc::Global;

/// The client that the bytes name by a HELLO of one of n clients. `Malformed` comes exactly where they name none.
#[tactic(auto, unfolding(crate::specs::Requests::client_in))]
pub fn client_in(alloc: Global, n: u8, bytes: &[u8]) -> Result<u8, Closing>
    requires { IsClientCount n }
    ensures named { MatchResult result (λ client. client_in n bytes.now ≡ Some client)
        (λ closing. (closing ≡ closings.Memory) ⊎ ((closing ≡ closings.Malformed) × (client_in n bytes.now ≡ None))) }
    ensures in_range { IfOk result (IsClient n) }
{
    match decode(alloc, WIRE, n, bytes) {
        Ok(Message::Hello(client)) => Ok(client),
        Ok(Message::Submit(_)) => Err(Closing::Malformed),
        Ok(Message::Commit(_)) => Err(Closing::Malformed),
        Ok(Message::Reply(_)) => Err(Closing::Malformed),
        Ok(Message::Peer(_)) => Err(Closing::Malformed),
        Err(WireError::Malformed) => Err(Closing::Malformed),
        Err(WireError::OutOfMemory) => Err(Closing::Memory),
    }
}
