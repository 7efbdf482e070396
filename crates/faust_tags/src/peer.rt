ghost use Rattle.std.specs.Prelude.{◌≡◌, IfOk};
ghost use Rattle.faust_tags.specs.Bodies.{peer_body, tag_of};

use faust_hash::PreparedKey;
use faust_types::spelling::version_room;
use faust_types::{Bytes, OutOfMemory, Peer, PeerMessage, Tag};
use std::alloc::Global;

// The first byte of the body of a message between clients.
const PEER: u8 = 5;

// The version of the wire that a body is spelled by, whichever one the message goes by.
const WIRE_VERSION: u8 = 1;

// How many bytes stand before the content: the kind of body, the version, the kind of message, and both clients.
const FRONT_LEN: usize = 5;

/// The tag by which the sender of a message between two of `n` clients says all that stands in it. The
/// message's own tag is no part of that.
pub fn peer_tag(alloc: Global, key: &[u8], n: u8, message: &PeerMessage) -> Result<Tag, OutOfMemory>
    ensures { IfOk result (λ tag. tag ≡ tag_of key.now (peer_body message.now)) }
{
    peer_tag_under(alloc, &PreparedKey::new(key), n, message)
}

/// `peer_tag` under a prepared key.
pub fn peer_tag_under(
    alloc: Global,
    key: &PreparedKey,
    n: u8,
    message: &PeerMessage,
) -> Result<Tag, OutOfMemory>
    ensures { IfOk result (λ tag. tag ≡ tag_of key.now (peer_body message.now)) }
{
    let body = peer_body(alloc, n, message)?;
    Ok(key.tag(body.as_slice()))
}

/// The bytes that `peer_tag` tags, the same under both versions of the wire and for every `n`: room for a version
/// of `n` clients is made at the start, in one allocation.
#[tactic(auto, unfolding(crate::specs::Bodies::peer_body))]
pub fn peer_body(alloc: Global, n: u8, message: &PeerMessage) -> Result<Bytes, OutOfMemory>
    ensures { IfOk result (λ body. body ≡ peer_body message.now) }
{
    let mut body = Bytes::new(alloc);
    body.reserve(room_for(n, &message.peer))?;
    body.push(PEER)?;
    message.put_front(WIRE_VERSION, &mut body)?;
    Ok(body)
}

// The most bytes that the body of a message among n clients takes.
fn room_for(n: u8, peer: &Peer) -> usize {
    match peer {
        Peer::Probe => FRONT_LEN,
        Peer::Version(_) => FRONT_LEN + 1 + version_room(n) + 32,
        Peer::Failure(_) => FRONT_LEN + 1,
    }
}
