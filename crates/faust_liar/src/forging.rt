//! An edited reply with the tag over the edited part made anew.
ghost use Rattle.std.specs.Prelude.{◌≡◌, ◌≤◌, IfOk, length, option_map};
ghost use Rattle.faust_types.specs.Clients.{IsClient};
ghost use Rattle.faust_types.specs.Messages.{tuples_by};
ghost use Rattle.faust_types.specs.Ranges.{IsReplyFor};
ghost use Rattle.faust_hash.specs.Chain.{value_digest_of};
ghost use Rattle.faust_script.specs.InRange.{IsEditFor};
ghost use Rattle.faust_liar.specs.Edits.{Makes, add_forged, forged_reply, next_number, part_signed, part_stored, read_signed, read_stored, signed_anew, stored_anew, version_signed};

use crate::change::{edited, with_pending};
use crate::error::LiarError;
use crate::pending::added;
use faust_hash::value_digest;
use faust_script::Edit;
use faust_tags::{commit_tag, data_tag, submit_tag};
use faust_types::{
    Bytes, Digest, Kind, Known, MAX_TIMESTAMP, Mem, OutOfMemory, ReadPart, Reply, Tuple,
};
use std::alloc::Global;

/// What a forged edit makes of a reply.
pub fn forged(reply: &Reply, edit: &Edit, key: &[u8]) -> Result<Reply, LiarError>
    requires reply { IsReplyFor (length reply.now.proofs) reply.now }
    requires edit { IsEditFor (length reply.now.proofs) edit.now }
    ensures { Makes result (forged_reply key.now edit.now reply.now) }
{
    match edit {
        Edit::V(_, _) | Edit::M(_) => Ok(with_version_signed(edited(reply, edit)?, key)?),
        Edit::Add(k, kind, j) => add_forged(reply, *k, *kind, *j, key),
        Edit::Jv(_, _) => Ok(with_read_signed(edited(reply, edit)?, key)?),
        Edit::T(_) | Edit::Value(_) => Ok(with_read_stored(edited(reply, edit)?, key)),
        Edit::C(_)
        | Edit::Ctag
        | Edit::DropTuple(_)
        | Edit::Swap(_)
        | Edit::Ltag(_)
        | Edit::Proof(_)
        | Edit::Noproof(_)
        | Edit::Jtag
        | Edit::Dtag
        | Edit::Unread => Err(LiarError::Field),
    }
}

/// The reply with one more tuple, whose submit tag is right for the client's next operation behind the tuples.
fn add_forged(reply: &Reply, k: u8, kind: Kind, j: u8, key: &[u8]) -> Result<Reply, LiarError>
    requires reply { IsReplyFor (length reply.now.proofs) reply.now }
    requires client { IsClient (length reply.now.proofs) k }
    ensures { Makes result (add_forged key.now k kind j reply.now) }
{
    let number = next_number(reply, k);
    if number > MAX_TIMESTAMP {
        return Err(LiarError::Field);
    }
    let tuple = Tuple {
        client: k,
        kind,
        register: j,
        tag: submit_tag(key, k, kind, j, number),
    };
    Ok(with_pending(reply, added(tuple, &reply.pending)?)?)
}

/// The number of client k's next operation behind the tuples.
fn next_number(reply: &Reply, k: u8) -> u64
    requires reply { IsReplyFor (length reply.now.proofs) reply.now }
    requires client { IsClient (length reply.now.proofs) k }
    ensures { result ≡ next_number k reply.now }
{
    reply.version.version.at(k) + tuples_by(k, reply.pending.as_slice()) + 1
}

/// How many of the tuples are by client k.
fn tuples_by(k: u8, pending: &[Tuple]) -> u64
    requires { length pending.now ≤ 31 }
    ensures count { result ≡ tuples_by k pending.now }
    ensures few { result ≤ 31 }
{
    let mut count = 0;
    for tuple in pending {
        if tuple.client == k {
            count += 1;
        }
    }
    count
}

/// The reply with the commit tag of c made anew.
fn with_version_signed(reply: Reply, key: &[u8]) -> Result<Reply, OutOfMemory>
    ensures { IfOk result (λ signed. signed ≡ version_signed key.now reply) }
{
    let alloc = reply.proofs.allocator();
    let Reply {
        c,
        version,
        pending,
        proofs,
        read,
    } = reply;
    Ok(Reply {
        c,
        version: signed_anew(alloc, version, c, key)?,
        pending,
        proofs,
        read,
    })
}

/// The reply with the commit tag of j made anew.
fn with_read_signed(reply: Reply, key: &[u8]) -> Result<Reply, OutOfMemory>
    ensures { IfOk result (λ signed. signed ≡ read_signed key.now reply) }
{
    let alloc = reply.proofs.allocator();
    let Reply {
        c,
        version,
        pending,
        proofs,
        read,
    } = reply;
    let read = match read {
        Some(part) => Some(part_signed(alloc, part, key)?),
        None => None,
    };
    Ok(Reply {
        c,
        version,
        pending,
        proofs,
        read,
    })
}

fn part_signed(alloc: Global, part: ReadPart, key: &[u8]) -> Result<ReadPart, OutOfMemory>
    ensures { IfOk result (λ signed. signed ≡ part_signed key.now part) }
{
    let ReadPart {
        register,
        version,
        mem,
    } = part;
    Ok(ReadPart {
        register,
        version: signed_anew(alloc, version, register, key)?,
        mem,
    })
}

/// The reply with the data tag of j made anew.
fn with_read_stored(reply: Reply, key: &[u8]) -> Reply
    ensures { result ≡ read_stored key.now reply }
{
    let Reply {
        c,
        version,
        pending,
        proofs,
        read,
    } = reply;
    let read = match read {
        Some(part) => Some(part_stored(part, key)),
        None => None,
    };
    Reply {
        c,
        version,
        pending,
        proofs,
        read,
    }
}

fn part_stored(part: ReadPart, key: &[u8]) -> ReadPart
    ensures { result ≡ part_stored key.now part }
{
    let ReadPart {
        register,
        version,
        mem,
    } = part;
    let mem = match mem {
        Some(mem) => Some(stored_anew(mem, register, key)),
        None => None,
    };
    ReadPart {
        register,
        version,
        mem,
    }
}

/// The version with the commit tag of its maker made anew.
#[tactic(auto, unfolding(crate::specs::Edits::signed_anew))]
fn signed_anew(alloc: Global, known: Known, maker: u8, key: &[u8]) -> Result<Known, OutOfMemory>
    ensures { IfOk result (λ signed. signed ≡ signed_anew key.now maker known) }
{
    let mut signed = known;
    signed.tag = commit_tag(alloc, key, maker, &signed.version)?;
    Ok(signed)
}

/// The memory of register j with its data tag made anew.
#[tactic(auto, unfolding(crate::specs::Edits::stored_anew))]
fn stored_anew(mem: Mem, j: u8, key: &[u8]) -> Mem
    ensures { result ≡ stored_anew key.now j mem }
{
    let digest = digest_of(&mem.value);
    let mut stored = mem;
    stored.tag = data_tag(key, j, stored.t, digest.as_ref());
    stored
}

fn digest_of(value: &Option<Bytes>) -> Option<Digest>
    ensures { result ≡ option_map value_digest_of value.now }
{
    match value {
        Some(bytes) => Some(value_digest(bytes.as_slice())),
        None => None,
    }
}
