ghost use Rattle.std.specs.Prelude.{◌≡◌, ◌<◌, Some, length, slice_get, IfOk, IfSome};
ghost use Rattle.faust_types.specs.Ranges.{IsConfig};
ghost use Rattle.faust_agent.specs.Deeds.{reply_in};
ghost use Rattle.faust_views.specs.Grown.{IsReply};

use faust_record::{Entry, RunRecord};
use faust_types::{Config, Message, OutOfMemory, Reply};
use faust_wire::{WireError, decode};
use std::alloc::Global;

/// An entry of a record.
pub(crate) fn entry_at(rec: &RunRecord, q: u64) -> &Entry
    requires { q < length rec.now.entries }
    ensures { slice_get rec.now.entries q ≡ Some result.now }
{
    match rec.entry(q) {
        Some(entry) => entry,
        None => unreachable!(),
    }
}

/// The REPLY that the bytes spell under the wire of the run; none where they spell no REPLY.
pub(crate) fn read_reply(
    alloc: Global,
    config: &Config,
    bytes: &[u8],
) -> Result<Option<Reply>, OutOfMemory>
    requires { IsConfig config.now }
    ensures value { IfOk result (λ reply. reply ≡ reply_in config.now bytes.now) }
    ensures in_range { IfOk result (λ reply. IfSome reply IsReply) }
{
    match decode(alloc, config.wire, config.clients, bytes) {
        Ok(Message::Reply(reply)) => Ok(Some(reply)),
        Ok(_) | Err(WireError::Malformed) => Ok(None),
        Err(WireError::OutOfMemory) => Err(OutOfMemory),
    }
}
