//! What a client hashed in judging a reply that broke a check.
ghost use Rattle.std.specs.Prelude.{◌≡◌, IfOk, IfSome};
ghost use Rattle.faust_types.specs.Versions.{clients_of};
ghost use Rattle.faust_audit.specs.Watching.{IsCameFor, IsWatchedFor, hashed_breaking, hashed_waiting};

use crate::hashed_input::Hashed;
use crate::watched::Watched;
use faust_hash::PreparedKey;
use faust_types::{Bytes, Notice, OutOfMemory, Reply, Sequence};
use faust_ustor::hashed_under;
use std::alloc::Global;

/// What client `me` hashed at a reply, or none, up to and with the check that broke, or none.
pub fn hashed_at_break(
    alloc: Global,
    key: &PreparedKey,
    me: u8,
    watched: &Watched,
    reply: &Option<Reply>,
    notice: Option<Notice>,
) -> Result<Sequence<Hashed>, OutOfMemory>
    requires watched { IsWatchedFor (clients_of watched.now.own) me watched.now }
    requires reply { IfSome reply.now (IsCameFor (clients_of watched.now.own)) }
    ensures { IfOk result (λ hashed. hashed ≡ hashed_breaking key.now me watched.now reply.now notice) }
{
    match (reply, notice) {
        (Some(reply), Some(_)) => hashed_waiting(alloc, key, me, watched, reply),
        _ => Ok(Sequence::new(alloc)),
    }
}

fn hashed_waiting(
    alloc: Global,
    key: &PreparedKey,
    me: u8,
    watched: &Watched,
    reply: &Reply,
) -> Result<Sequence<Hashed>, OutOfMemory>
    requires watched { IsWatchedFor (clients_of watched.now.own) me watched.now }
    requires reply { IsCameFor (clients_of watched.now.own) reply.now }
    ensures { IfOk result (λ hashed. hashed ≡ hashed_waiting key.now me watched.now reply.now watched.now.waiting) }
{
    match &watched.waiting {
        Some(op) => {
            let inputs = hashed_under(alloc, key, me, &watched.own, op, reply)?;
            all_hashed(alloc, inputs)
        }
        None => Ok(Sequence::new(alloc)),
    }
}

fn all_hashed(alloc: Global, inputs: Sequence<Bytes>) -> Result<Sequence<Hashed>, OutOfMemory>
    ensures { IfOk result (λ hashed. hashed ≡ inputs) }
{
    let mut all = Sequence::new(alloc);
    for input in inputs.into_vec() {
        all.push(Hashed::of(input))?;
    }
    Ok(all)
}
