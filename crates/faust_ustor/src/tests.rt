ghost use Rattle.faust_types.specs.Clients.{IsClientCount};

use crate::{JudgeError, Judged, judge};
use faust_types::{Kind, MAX_TIMESTAMP, OpName, Operation, Reply};
use in_range::{is_client, is_reply_for};
use replies::{KEY, walk_of};
use std::alloc::Global;

mod broken;
mod in_range;
mod inputs;
mod replies;
mod told;

/// The answer to the client of an operation. It made its version, of n clients, after operations of the clients
/// `own`. Nothing is answered about a reply out of range.
fn answer(
    alloc: Global,
    n: u8,
    own: &[u8],
    op: (u8, Kind, u8),
    reply: &Reply,
) -> Result<Option<Judged>, JudgeError>
    requires { IsClientCount n }
{
    let (me, kind, register) = op;
    let own = walk_of(alloc, n, own)?.version;
    if !is_client(own.clients(), me)
        || own.at(me) >= MAX_TIMESTAMP
        || !is_reply_for(own.clients(), reply)
    {
        return Ok(None);
    }
    let t = own.at(me) + 1;
    let op = Operation {
        name: OpName { client: me, t },
        kind,
        register,
        dummy: false,
    };
    let judged = judge(alloc, KEY, me, &own, &op, reply)?;
    Ok(Some(judged))
}
