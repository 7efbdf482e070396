ghost use Rattle.std.specs.Prelude.{◌≡◌, IfOk, IfSome};
ghost use Rattle.faust_types.specs.Clients.{IsClient};
ghost use Rattle.faust_types.specs.Versions.{clients_of};
ghost use Rattle.faust_types.specs.Ranges.{IsReplyFor};
ghost use Rattle.faust_ustor.specs.InRange.{IsPendingOf, IsJudgedFor};
ghost use Rattle.faust_ustor.specs.Checks.{broken_base, is_own_kept, is_part_for, judged, Gives, Passes};

use crate::part::answered;
use crate::refusal::JudgeError;
use crate::tags::is_known_right;
use crate::verdict::demand;
use crate::walk::walked;
use faust_hash::PreparedKey;
use faust_types::{Bytes, Kind, Known, Operation, ReadPart, Reply, Version};
use std::alloc::Global;

/// What a reply that breaks no check tells. A read found `value`, or none, as of operation `asof` of the
/// register's client, and has in `heard` the version that this client committed last. A write has no value,
/// `asof` 0 and nothing heard.
#[derive(Debug, Drop)]
pub struct Judged {
    pub next: Version,
    pub value: Option<Bytes>,
    pub asof: u64,
    pub heard: Option<Known>,
}

/// Makes checks 3 to 12 of the reply to operation `op` of client `me`, from 1 to n, whose version of n clients is
/// `own`. The answer is the client's next version with what a read found, or the first broken check and its place.
/// `op.name.t` is the own timestamp plus one, at most 2^40 - 1. `reply` is in range for n clients, as one is that
/// was decoded.
pub fn judge(
    alloc: Global,
    key: &[u8],
    me: u8,
    own: &Version,
    op: &Operation,
    reply: &Reply,
) -> Result<Judged, JudgeError>
    requires pending { IsPendingOf me own.now op.now }
    requires reply { IsReplyFor (clients_of own.now) reply.now }
    ensures checked { Gives result (judged key.now me own.now op.now reply.now) }
    ensures in_range { IfOk result (IsJudgedFor (clients_of own.now) op.now.register) }
{
    judge_under(alloc, &PreparedKey::new(key), me, own, op, reply)
}

/// The same with a key that was prepared before, for a client that judges many replies.
#[tactic(auto, unfolding(crate::specs::Checks::judged))]
pub fn judge_under(
    alloc: Global,
    key: &PreparedKey,
    me: u8,
    own: &Version,
    op: &Operation,
    reply: &Reply,
) -> Result<Judged, JudgeError>
    requires pending { IsPendingOf me own.now op.now }
    requires reply { IsReplyFor (clients_of own.now) reply.now }
    ensures checked { Gives result (judged key.now me own.now op.now reply.now) }
    ensures in_range { IfOk result (IsJudgedFor (clients_of own.now) op.now.register) }
{
    check_base(alloc, key, me, own, op, reply)?;
    let mut walk = walked(key, me, reply)?;
    walk.advance(key, me);
    answered(
        alloc,
        key,
        &reply.version.version,
        walk.version,
        &reply.read,
    )
}

#[tactic(auto, unfolding(crate::specs::Checks::broken_base))]
pub(crate) fn check_base(
    alloc: Global,
    key: &PreparedKey,
    me: u8,
    own: &Version,
    op: &Operation,
    reply: &Reply,
) -> Result<(), JudgeError>
    requires client { IsClient (clients_of own.now) me }
    requires sizes { clients_of own.now ≡ clients_of reply.now.version.version }
    ensures { Passes result (broken_base key.now me own.now op.now reply.now) }
{
    demand(is_part_for(op.kind, op.register, &reply.read), 3, 0)?;
    demand(is_known_right(alloc, key, reply.c, &reply.version)?, 4, 0)?;
    demand(is_own_kept(me, own, &reply.version.version), 5, 0)
}

fn is_part_for(kind: Kind, register: u8, read: &Option<ReadPart>) -> bool
    ensures { result ≡ is_part_for kind register read.now }
{
    match (kind, read) {
        (Kind::Write, None) => true,
        (Kind::Read, Some(part)) => part.register == register,
        _ => false,
    }
}

fn is_own_kept(me: u8, own: &Version, version: &Version) -> bool
    requires client { IsClient (clients_of own.now) me }
    requires sizes { clients_of own.now ≡ clients_of version.now }
    ensures { result ≡ is_own_kept me own.now version.now }
{
    own.is_at_most(version) && own.at(me) == version.at(me)
}
