ghost use Rattle.faust_types.specs.Clients.{IsClientCount};
ghost use Rattle.faust_wire.specs.Reading.{Gives, next_reply, next_announced, next_content, next_peer, next_of_kind, next_message};

use crate::error::WireError;
use crate::numbers::{COMMIT, HELLO, LAST_CHECK, REPLY, SUBMIT};
use crate::parts::{next_byte, next_tag, next_up_to};
use crate::pieces::{next_optional_read_part, next_pending, next_proofs};
use crate::submit::{next_commit, next_submit};
use crate::version::{next_known, next_signed};
use faust_types::spelling::{FAILURE, PROBE, VERSION};
use faust_types::{Known, Message, Peer, PeerMessage, Reply};
use std::alloc::Global;

#[tactic(auto, unfolding(crate::specs::Reading::next_reply))]
fn next_reply(alloc: Global, n: u8, bytes: &[u8]) -> Result<(Reply, &[u8]), WireError>
    requires { IsClientCount n }
    ensures { Gives (λ x. (x.0, x.1.now)) result (next_reply n bytes.now) }
{
    let (c, rest) = next_up_to(n, bytes)?;
    let (version, rest) = next_signed(alloc, n, c, rest)?;
    let (pending, rest) = next_pending(alloc, n, rest)?;
    let (proofs, rest) = next_proofs(alloc, n, rest)?;
    let (read, rest) = next_optional_read_part(alloc, n, rest)?;
    let reply = Reply {
        c,
        version,
        pending,
        proofs,
        read,
    };
    Ok((reply, rest))
}

#[tactic(auto, unfolding(crate::specs::Reading::next_announced))]
fn next_announced(alloc: Global, n: u8, bytes: &[u8]) -> Result<(Known, &[u8]), WireError>
    requires { IsClientCount n }
    ensures { Gives (λ x. (x.0, x.1.now)) result (next_announced n bytes.now) }
{
    let (maker, rest) = next_byte(bytes)?;
    if maker == 0 {
        return Ok((Known::initial(alloc, n)?, rest));
    }
    if maker > n {
        return Err(WireError::Malformed);
    }
    next_known(alloc, n, maker, rest)
}

#[tactic(auto, unfolding(crate::specs::Reading::next_content))]
fn next_content(alloc: Global, n: u8, kind: u8, bytes: &[u8]) -> Result<(Peer, &[u8]), WireError>
    requires { IsClientCount n }
    ensures { Gives (λ x. (x.0, x.1.now)) result (next_content n kind bytes.now) }
{
    match kind {
        PROBE => Ok((Peer::Probe, bytes)),
        VERSION => {
            let (known, rest) = next_announced(alloc, n, bytes)?;
            Ok((Peer::Version(known), rest))
        }
        FAILURE => {
            let (check, rest) = next_up_to(LAST_CHECK, bytes)?;
            Ok((Peer::Failure(check), rest))
        }
        _ => Err(WireError::Malformed),
    }
}

#[tactic(auto, unfolding(crate::specs::Reading::next_peer))]
fn next_peer(
    alloc: Global,
    n: u8,
    kind: u8,
    bytes: &[u8],
) -> Result<(PeerMessage, &[u8]), WireError>
    requires { IsClientCount n }
    ensures { Gives (λ x. (x.0, x.1.now)) result (next_peer n kind bytes.now) }
{
    let (from, rest) = next_up_to(n, bytes)?;
    let (to, rest) = next_up_to(n, rest)?;
    let (peer, rest) = next_content(alloc, n, kind, rest)?;
    let (tag, rest) = next_tag(rest)?;
    if from == to {
        return Err(WireError::Malformed);
    }
    let message = PeerMessage {
        from,
        to,
        peer,
        tag,
    };
    Ok((message, rest))
}

#[tactic(auto, unfolding(crate::specs::Reading::next_of_kind))]
fn next_of_kind(
    alloc: Global,
    wire: u8,
    n: u8,
    kind: u8,
    bytes: &[u8],
) -> Result<(Message, &[u8]), WireError>
    requires { IsClientCount n }
    ensures { Gives (λ x. (x.0, x.1.now)) result (next_of_kind wire n kind bytes.now) }
{
    match kind {
        SUBMIT => {
            let (submit, rest) = next_submit(alloc, wire, n, bytes)?;
            Ok((Message::Submit(submit), rest))
        }
        REPLY => {
            let (reply, rest) = next_reply(alloc, n, bytes)?;
            Ok((Message::Reply(reply), rest))
        }
        COMMIT => {
            let (commit, rest) = next_commit(alloc, n, bytes)?;
            Ok((Message::Commit(commit), rest))
        }
        HELLO => {
            let (client, rest) = next_up_to(n, bytes)?;
            Ok((Message::Hello(client), rest))
        }
        _ => {
            let (message, rest) = next_peer(alloc, n, kind, bytes)?;
            Ok((Message::Peer(message), rest))
        }
    }
}

#[tactic(auto, unfolding(crate::specs::Reading::next_message))]
pub(crate) fn next_message(
    alloc: Global,
    wire: u8,
    n: u8,
    bytes: &[u8],
) -> Result<(Message, &[u8]), WireError>
    requires { IsClientCount n }
    ensures { Gives (λ x. (x.0, x.1.now)) result (next_message wire n bytes.now) }
{
    let (first, rest) = next_byte(bytes)?;
    let (kind, rest) = next_byte(rest)?;
    if first != wire {
        return Err(WireError::Malformed);
    }
    next_of_kind(alloc, wire, n, kind, rest)
}
