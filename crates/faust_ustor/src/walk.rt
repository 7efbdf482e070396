ghost use Rattle.std.specs.Prelude.{◌≡◌, ◌≢◌, ◌+◌, ◌^◌, ◌<◌, length, is_none, IfOk};
ghost use Rattle.faust_types.specs.Clients.{IsClient};
ghost use Rattle.faust_types.specs.Versions.{clients_of, timestamp_at};
ghost use Rattle.faust_types.specs.Ranges.{IsReplyFor};
ghost use Rattle.faust_ustor.specs.InRange.{IsWalkFor};
ghost use Rattle.faust_ustor.specs.Checks.{advanced, begun, broken_tuple, walked, Gives, Passes};

use crate::refusal::JudgeError;
use crate::tags::{is_next_submitted, is_proven};
use crate::verdict::demand;
use faust_hash::PreparedKey;
use faust_types::{Digest, OutOfMemory, Reply, Tag, Tuple, Version};

/// How far the walk over the pending tuples of a reply came: the version of the operations so far, and the
/// digest of their chain.
#[derive(Debug, Drop)]
pub struct Walk {
    pub version: Version,
    pub digest: Option<Digest>,
}

impl Walk {
    /// The walk before the first tuple. It takes a copy of the version of c.
    pub fn begin(reply: &Reply) -> Result<Walk, OutOfMemory>
        requires { IsClient (clients_of reply.now.version.version) reply.now.c }
        ensures { IfOk result (λ walk. walk ≡ begun reply.now) }
    {
        let version = &reply.version.version;
        Ok(Walk {
            version: version.copy()?,
            digest: version.digest(reply.c),
        })
    }

    /// One more operation of client k, from 1 to n, whose timestamp is below 2^40 - 1. The key may remember the digest
    /// of its chain.
    pub fn advance(&mut self, key: &PreparedKey, k: u8)
        requires client { IsClient (clients_of self.old.version) k }
        requires room { timestamp_at self.old.version k + 1 < 2 ^ 40 }
        ensures { self.new ≡ advanced self.old k }
    {
        let digest = key.chain(self.digest.as_ref(), k);
        self.version.step(k, digest);
        self.digest = Some(digest);
    }

    // Checks 6, 7 and 8 of tuple q.
    #[tactic(auto, unfolding(crate::specs::Checks::broken_tuple))]
    fn check(
        &self,
        key: &PreparedKey,
        me: u8,
        proofs: &[Option<Tag>],
        q: u32,
        tuple: &Tuple,
    ) -> Result<(), JudgeError>
        requires client { IsClient (clients_of self.now.version) tuple.now.client }
        requires proofs { length proofs.now ≡ clients_of self.now.version }
        ensures verdict { Passes result (broken_tuple key.now me proofs.now q self.now tuple.now) }
        ensures no_memory { result ≢ Err JudgeError.OutOfMemory }
    {
        demand(tuple.client != me, 6, q)?;
        demand(is_proven(key, proofs, &self.version, tuple.client), 7, q)?;
        demand(is_next_submitted(key, &self.version, tuple), 8, q)
    }

    // Whether tuple q breaks none of the checks 6, 7 and 8.
    pub(crate) fn is_next(
        &self,
        key: &PreparedKey,
        me: u8,
        proofs: &[Option<Tag>],
        q: u32,
        tuple: &Tuple,
    ) -> bool
        requires client { IsClient (clients_of self.now.version) tuple.now.client }
        requires proofs { length proofs.now ≡ clients_of self.now.version }
        ensures { result ≡ is_none (broken_tuple key.now me proofs.now q self.now tuple.now) }
    {
        match self.check(key, me, proofs, q, tuple) {
            Ok(()) => true,
            Err(_) => false,
        }
    }
}

/// Walks over all pending tuples of a reply.
pub fn walked(key: &PreparedKey, me: u8, reply: &Reply) -> Result<Walk, JudgeError>
    requires client { IsClient (clients_of reply.now.version.version) me }
    requires reply { IsReplyFor (clients_of reply.now.version.version) reply.now }
    ensures walked { Gives result (walked key.now me reply.now.proofs 1 (begun reply.now) reply.now.pending) }
    ensures in_range { let version = reply.now.version.version in IfOk result (IsWalkFor (clients_of version) me (timestamp_at version me)) }
{
    let mut walk = Walk::begin(reply)?;
    for (before, tuple) in reply.pending.as_slice().iter().enumerate() {
        walk.check(key, me, reply.proofs.as_slice(), before as u32 + 1, tuple)?;
        walk.advance(key, tuple.client);
    }
    Ok(walk)
}
