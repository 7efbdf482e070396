//! Room for spellings, so that one allocation serves each.
ghost use Rattle.std.specs.Prelude.{◌≡◌, ℕ, ◌+◌, ◌*◌, ◌≤◌, length, IfSome};
ghost use Rattle.faust_types.specs.Ranges.{IsValue, IsMem, IsReadPartFor, IsSubmitFor, IsReplyFor, IsCommitFor, IsPeerFor, IsPeerMessageFor};
ghost use Rattle.faust_types.specs.Spelling.{peer_content};
ghost use Rattle.faust_types.specs.declared.message.Commit.{Commit};
ghost use Rattle.faust_wire.specs.Grammar.{riding_bytes, submit_bytes, reply_bytes, commit_bytes, peer_bytes, read_part_bytes, memory_bytes, optional_value_bytes};

use crate::numbers::FIRST_WIRE;
use faust_types::spelling::version_room;
use faust_types::{Bytes, Commit, Mem, Peer, PeerMessage, ReadPart, Reply, Submit};

// The bytes of a timestamp.
const NUMBER_LEN: usize = 8;

// The bytes of a tag or a digest.
const TAG_LEN: usize = 32;

// The bytes of a tag or a digest behind its flag.
const OPTIONAL_LEN: usize = 1 + TAG_LEN;

// The bytes of a tuple: client, kind, register and tag.
const TUPLE_LEN: usize = 3 + TAG_LEN;

fn room_for_signed(n: u8) -> usize
    ensures { result ≡ 33 + 41 * n }
{
    1 + version_room(n) + TAG_LEN
}

fn room_for_value(value: &Option<Bytes>) -> usize
    requires { IfSome value.now IsValue }
    ensures enough { length (optional_value_bytes value.now) ≤ result }
    ensures most { result ≤ 4099 }
{
    match value {
        None => 1,
        Some(value) => 3 + value.len(),
    }
}

fn room_for_memory(mem: &Option<Mem>) -> usize
    requires { IfSome mem.now IsMem }
    ensures enough { length (memory_bytes mem.now) ≤ result }
    ensures most { result ≤ 4140 }
{
    match mem {
        None => 1,
        Some(mem) => 1 + NUMBER_LEN + room_for_value(&mem.value) + TAG_LEN,
    }
}

fn room_for_read_part(n: u8, part: &Option<ReadPart>) -> usize
    requires { IfSome part.now (IsReadPartFor n) }
    ensures enough { length (read_part_bytes part.now) ≤ result }
    ensures most { result ≤ 4175 + 41 * n }
{
    match part {
        None => 1,
        Some(part) => 2 + room_for_signed(n) + room_for_memory(&part.mem),
    }
}

fn room_for_riding(wire: u8, n: u8, commit: &Option<Commit>) -> usize
    requires { IfSome commit.now (IsCommitFor n) }
    ensures enough { length (riding_bytes wire commit.now) ≤ result }
    ensures most { result ≤ 65 + 41 * n }
{
    if wire == FIRST_WIRE {
        return 0;
    }
    match commit {
        None => 1,
        Some(_) => 1 + version_room(n) + 2 * TAG_LEN,
    }
}

pub(crate) fn room_for_submit(wire: u8, n: u8, submit: &Submit) -> usize
    requires { IsSubmitFor n submit.now }
    ensures { length (submit_bytes wire submit.now) ≤ result }
{
    let written = room_for_value(&submit.value);
    4 + NUMBER_LEN + 2 * TAG_LEN + written + room_for_riding(wire, n, &submit.commit)
}

pub(crate) fn room_for_reply(n: u8, reply: &Reply) -> usize
    requires { IsReplyFor n reply.now }
    ensures { (wire : ℕ) → length (reply_bytes wire reply.now) ≤ result }
{
    4 + room_for_signed(n)
        + reply.pending.len() * TUPLE_LEN
        + usize::from(n) * OPTIONAL_LEN
        + room_for_read_part(n, &reply.read)
}

pub(crate) fn room_for_commit(n: u8) -> usize
    ensures { (wire : ℕ) (commit : Commit) → IsCommitFor n commit → length (commit_bytes wire commit) ≤ result }
{
    2 + version_room(n) + 2 * TAG_LEN
}

fn room_for_content(n: u8, peer: &Peer) -> usize
    requires { IsPeerFor n peer.now }
    ensures enough { length (peer_content peer.now) ≤ result }
    ensures most { result ≤ 33 + 41 * n }
{
    match peer {
        Peer::Probe => 0,
        Peer::Version(_) => room_for_signed(n),
        Peer::Failure(_) => 1,
    }
}

pub(crate) fn room_for_peer(n: u8, message: &PeerMessage) -> usize
    requires { IsPeerMessageFor n message.now }
    ensures { (wire : ℕ) → length (peer_bytes wire message.now) ≤ result }
{
    4 + room_for_content(n, &message.peer) + TAG_LEN
}
