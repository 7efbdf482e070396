//! Which messages come with an entry.
ghost use Rattle.std.specs.Prelude.{◌≡◌, IfOk, IfSome};
ghost use Rattle.faust_types.specs.Ranges.{IsConfig};
ghost use Rattle.faust_audit.specs.Watching.{IsCameFor, message_came, reply_came};

use faust_record::Input;
use faust_types::{Config, Message, OutOfMemory, PeerMessage, Reply};
use faust_wire::{WireError, decode};
use std::alloc::Global;

/// The REPLY that comes with an input under the wire of the run, if one does.
#[tactic(auto, using(crate::proofs::Replies::came_for))]
pub fn reply_of(alloc: Global, config: &Config, input: &Input) -> Result<Option<Reply>, OutOfMemory>
    requires { IsConfig config.now }
    ensures value { IfOk result (λ reply. reply ≡ reply_came config.now input.now) }
    ensures in_range { IfOk result (λ reply. IfSome reply (IsCameFor config.now.clients)) }
{
    let Input::Reply(bytes) = input else {
        return Ok(None);
    };
    match decode(alloc, config.wire, config.clients, bytes.as_slice()) {
        Ok(Message::Reply(reply)) => Ok(Some(reply)),
        Ok(_) | Err(WireError::Malformed) => Ok(None),
        Err(WireError::OutOfMemory) => Err(OutOfMemory),
    }
}

/// The message between clients that comes with an input under the wire of the run, if one does.
pub fn message_of(
    alloc: Global,
    config: &Config,
    input: &Input,
) -> Result<Option<PeerMessage>, OutOfMemory>
    requires { IsConfig config.now }
    ensures { IfOk result (λ message. message ≡ message_came config.now input.now) }
{
    let Input::Peer(bytes) = input else {
        return Ok(None);
    };
    match decode(alloc, config.wire, config.clients, bytes.as_slice()) {
        Ok(Message::Peer(message)) => Ok(Some(message)),
        Ok(_) | Err(WireError::Malformed) => Ok(None),
        Err(WireError::OutOfMemory) => Err(OutOfMemory),
    }
}
