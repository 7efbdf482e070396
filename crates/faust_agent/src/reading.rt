ghost use Rattle.std.specs.Prelude.{◌≡◌, IfOk, IfSome};
ghost use Rattle.faust_types.specs.Ranges.{IsConfig, IsPeerMessageFor, IsReplyFor};
ghost use Rattle.faust_agent.specs.Deeds.{peer_in, reply_in};

use faust_types::{Config, Message, OutOfMemory, PeerMessage, Reply};
use faust_wire::{WireError, decode};
use std::alloc::Global;

/// The REPLY that the bytes spell under the wire of the run; none where they spell no REPLY.
pub fn read_reply(
    alloc: Global,
    config: &Config,
    bytes: &[u8],
) -> Result<Option<Reply>, OutOfMemory>
    requires { IsConfig config.now }
    ensures value { IfOk result (λ reply. reply ≡ reply_in config.now bytes.now) }
    ensures in_range { IfOk result (λ reply. IfSome reply (IsReplyFor config.now.clients)) }
{
    match decode(alloc, config.wire, config.clients, bytes) {
        Ok(Message::Reply(reply)) => Ok(Some(reply)),
        Ok(_) | Err(WireError::Malformed) => Ok(None),
        Err(WireError::OutOfMemory) => Err(OutOfMemory),
    }
}

/// The message between clients that the bytes spell under the wire of the run; none where they spell none.
pub fn read_peer(
    alloc: Global,
    config: &Config,
    bytes: &[u8],
) -> Result<Option<PeerMessage>, OutOfMemory>
    requires { IsConfig config.now }
    ensures value { IfOk result (λ message. message ≡ peer_in config.now bytes.now) }
    ensures in_range { IfOk result (λ message. IfSome message (IsPeerMessageFor config.now.clients)) }
{
    match decode(alloc, config.wire, config.clients, bytes) {
        Ok(Message::Peer(message)) => Ok(Some(message)),
        Ok(_) | Err(WireError::Malformed) => Ok(None),
        Err(WireError::OutOfMemory) => Err(OutOfMemory),
    }
}
