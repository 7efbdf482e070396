ghost use Rattle.std.specs.Prelude.{◌≡◌, false, IfOk};
ghost use Rattle.faust_types.specs.Ranges.{IsWire, IsMessageFor, IsSubmitFor, IsReplyFor, IsPeerMessageFor};
ghost use Rattle.faust_types.specs.Versions.{is_initial};
ghost use Rattle.faust_wire.specs.Grammar.{IsForWire, submit_bytes, reply_bytes, commit_bytes, peer_bytes, hello_bytes, spelling};

use crate::numbers::{COMMIT, HELLO, REPLY, SUBMIT};
use crate::put::{
    put_commit, put_number, put_pending, put_proofs, put_read_part, put_riding, put_signed,
    put_written,
};
use crate::room::{room_for_commit, room_for_peer, room_for_reply, room_for_submit};
use faust_types::spelling::byte_of_kind;
use faust_types::{Bytes, Message, OutOfMemory, PeerMessage, Reply, Submit, Tag, Version};
use std::alloc::Global;

/// The one spelling under this wire, 1 or 2, of a message in range for n clients; under wire 1 no COMMIT rides on
/// it. Its room is made at the start, in one allocation.
pub fn encode(alloc: Global, wire: u8, n: u8, message: &Message) -> Result<Bytes, OutOfMemory>
    requires wire { IsWire wire }
    requires in_range { IsMessageFor n message.now }
    requires rides { IsForWire wire message.now }
    ensures { IfOk result (λ bytes. bytes ≡ spelling wire message.now) }
{
    match message {
        Message::Submit(submit) => encode_submit(alloc, wire, n, submit),
        Message::Reply(reply) => encode_reply(alloc, wire, n, reply),
        Message::Commit(commit) => encode_parts(
            alloc,
            wire,
            &commit.version,
            &commit.commit_tag,
            &commit.proof_tag,
        ),
        Message::Peer(message) => encode_peer(alloc, wire, n, message),
        Message::Hello(client) => encode_hello(alloc, wire, *client),
    }
}

#[tactic(auto, unfolding(crate::specs::Grammar::submit_bytes))]
fn encode_submit(alloc: Global, wire: u8, n: u8, submit: &Submit) -> Result<Bytes, OutOfMemory>
    requires { IsSubmitFor n submit.now }
    ensures { IfOk result (λ bytes. bytes ≡ submit_bytes wire submit.now) }
{
    let mut out = Bytes::new(alloc);
    out.reserve(room_for_submit(wire, n, submit))?;
    out.append(&[wire, SUBMIT, byte_of_kind(submit.kind), submit.register])?;
    put_number(submit.t, &mut out)?;
    out.append(&submit.submit_tag)?;
    out.append(&submit.data_tag)?;
    put_written(&submit.value, &mut out)?;
    put_riding(wire, &submit.commit, &mut out)?;
    Ok(out.shared())
}

#[tactic(auto, unfolding(crate::specs::Grammar::reply_bytes))]
fn encode_reply(alloc: Global, wire: u8, n: u8, reply: &Reply) -> Result<Bytes, OutOfMemory>
    requires { IsReplyFor n reply.now }
    ensures { IfOk result (λ bytes. bytes ≡ reply_bytes wire reply.now) }
{
    let mut out = Bytes::new(alloc);
    out.reserve(room_for_reply(n, reply))?;
    out.append(&[wire, REPLY, reply.c])?;
    put_signed(&reply.version, &mut out)?;
    put_pending(reply.pending.as_slice(), &mut out)?;
    put_proofs(reply.proofs.as_slice(), &mut out)?;
    put_read_part(&reply.read, &mut out)?;
    Ok(out.shared())
}

/// The spelling under this wire, 1 or 2, of a COMMIT with this version, which isn't the initial one, and these
/// tags, without a message of its own.
pub fn encode_commit(
    alloc: Global,
    wire: u8,
    version: &Version,
    commit_tag: &Tag,
    proof_tag: &Tag,
) -> Result<Bytes, OutOfMemory>
    requires wire { IsWire wire }
    requires not_initial { is_initial version.now ≡ false }
    ensures { IfOk result (λ bytes. bytes ≡ commit_bytes wire (record { version = version.now; commit_tag = commit_tag.now; proof_tag = proof_tag.now })) }
{
    encode_parts(alloc, wire, version, commit_tag, proof_tag)
}

#[tactic(auto, unfolding(crate::specs::Grammar::commit_bytes))]
fn encode_parts(
    alloc: Global,
    wire: u8,
    version: &Version,
    commit_tag: &Tag,
    proof_tag: &Tag,
) -> Result<Bytes, OutOfMemory>
    ensures { IfOk result (λ bytes. bytes ≡ commit_bytes wire (record { version = version.now; commit_tag = commit_tag.now; proof_tag = proof_tag.now })) }
{
    let mut out = Bytes::new(alloc);
    out.reserve(room_for_commit(version.clients()))?;
    out.append(&[wire, COMMIT])?;
    put_commit(version, commit_tag, proof_tag, &mut out)?;
    Ok(out.shared())
}

#[tactic(auto, unfolding(crate::specs::Grammar::peer_bytes))]
fn encode_peer(alloc: Global, wire: u8, n: u8, message: &PeerMessage) -> Result<Bytes, OutOfMemory>
    requires { IsPeerMessageFor n message.now }
    ensures { IfOk result (λ bytes. bytes ≡ peer_bytes wire message.now) }
{
    let mut out = Bytes::new(alloc);
    out.reserve(room_for_peer(n, message))?;
    message.put_front(wire, &mut out)?;
    out.append(&message.tag)?;
    Ok(out.shared())
}

fn encode_hello(alloc: Global, wire: u8, client: u8) -> Result<Bytes, OutOfMemory>
    ensures { IfOk result (λ bytes. bytes ≡ hello_bytes wire client) }
{
    Bytes::from_slice(alloc, &[wire, HELLO, client])
}
