//! What a client hashes and which version it makes where a reply breaks no check.
ghost use Rattle.std.specs.Prelude.{◌≡◌, ◌+◌, ◌^◌, ◌<◌, ◌++◌, ◌∷◌, [], true, false, ◌&&◌, IfOk, OnOk, ℕ};
ghost use Rattle.faust_types.specs.Clients.{IsClient};
ghost use Rattle.faust_types.specs.Ranges.{IsReplyFor};
ghost use Rattle.faust_types.specs.Versions.{clients_of, timestamp_at};
ghost use Rattle.faust_hash.specs.Chain.{chain_input};
ghost use Rattle.faust_ustor.specs.Checks.{advanced, begun};
ghost use Rattle.faust_ustor.specs.Hashed.{chain_inputs, read_inputs};
ghost use Rattle.faust_ustor.specs.Passed.{followed};
ghost use Rattle.faust_audit.specs.Watching.{IsMoveFor, completion_seen, has_next, have_next};

use crate::book::Book;
use crate::hashed_input::Hashed;
use crate::watched::{Move, Seen};
use faust_types::{MAX_TIMESTAMP, OutOfMemory, ReadPart, Reply, Sequence};
use faust_ustor::Walk;
use std::alloc::Global;

/// What is seen of a reply that completes an operation of client `me`.
pub fn complete(alloc: Global, book: &mut Book, me: u8, reply: &Reply) -> Result<Seen, OutOfMemory>
    requires client { IsClient (clients_of reply.now.version.version) me }
    requires reply { IsReplyFor (clients_of reply.now.version.version) reply.now }
    ensures seen { IfOk result (λ seen. seen ≡ completion_seen me reply.now) }
    ensures moved { IfOk result (λ seen. IsMoveFor (clients_of reply.now.version.version) seen.moved) }
{
    let mut walk = Walk::begin(reply)?;
    let mut hashed = Sequence::new(alloc);
    if !follow_all(alloc, book, reply, &mut walk, &mut hashed)?
        || !follow(alloc, book, me, &mut walk, &mut hashed)?
    {
        return Ok(Seen::nothing(alloc));
    }
    put_read(alloc, book, &reply.read, &mut hashed)?;
    Ok(Seen {
        moved: Move::Completes(walk.version),
        hashed,
    })
}

// One operation of client k after the other, unless one has no next operation.
fn follow_all(
    alloc: Global,
    book: &mut Book,
    reply: &Reply,
    walk: &mut Walk,
    hashed: &mut Sequence<Hashed>,
) -> Result<bool, OutOfMemory>
    requires reply { IsReplyFor (clients_of reply.now.version.version) reply.now }
    requires begun { walk.old ≡ begun reply.now }
    ensures hashed { IfOk result (λ goes_on. goes_on ≡ true → hashed.new ≡ hashed.old ++ chain_inputs walk.old reply.now.pending) }
    ensures walked { IfOk result (λ goes_on. goes_on ≡ true → walk.new ≡ followed walk.old reply.now.pending) }
    ensures sized { IfOk result (λ goes_on. goes_on ≡ true → clients_of walk.new.version ≡ clients_of walk.old.version) }
    ensures room { IfOk result (λ goes_on. (me : ℕ) → have_next me walk.old reply.now.pending ≡ goes_on && has_next walk.new me) }
{
    for tuple in reply.pending.as_slice() {
        if !follow(alloc, book, tuple.client, walk, hashed)? {
            return Ok(false);
        }
    }
    Ok(true)
}

// One more operation of client k, unless it has none.
fn follow(
    alloc: Global,
    book: &mut Book,
    k: u8,
    walk: &mut Walk,
    hashed: &mut Sequence<Hashed>,
) -> Result<bool, OutOfMemory>
    requires { IsClient (clients_of walk.old.version) k }
    ensures room { IfOk result (λ goes_on. goes_on ≡ has_next walk.old k) }
    ensures hashed { IfOk result (λ goes_on. goes_on ≡ true → hashed.new ≡ hashed.old ++ chain_input walk.old.digest k ∷ []) }
    ensures walked { IfOk result (λ goes_on. goes_on ≡ true → walk.new ≡ advanced walk.old k) }
    ensures sized { IfOk result (λ goes_on. goes_on ≡ true → clients_of walk.new.version ≡ clients_of walk.old.version) }
{
    if walk.version.at(k) >= MAX_TIMESTAMP {
        return Ok(false);
    }
    hashed.push(walk_on(alloc, book, k, walk)?)?;
    Ok(true)
}

/// One more operation of client k, whose timestamp is below 2^40 - 1, and the input of its chain.
#[tactic(auto, unfolding(faust_hash::specs::Chain::link, faust_hash::specs::Chain::input_digest))]
pub fn walk_on(
    alloc: Global,
    book: &mut Book,
    k: u8,
    walk: &mut Walk,
) -> Result<Hashed, OutOfMemory>
    requires client { IsClient (clients_of walk.old.version) k }
    requires room { timestamp_at walk.old.version k + 1 < 2 ^ 40 }
    ensures hashed { IfOk result (λ hashed. hashed ≡ chain_input walk.old.digest k) }
    ensures walked { OnOk result (walk.new ≡ advanced walk.old k) }
    ensures sized { OnOk result (clients_of walk.new.version ≡ clients_of walk.old.version) }
{
    let hashed = book.link(alloc, walk.digest, k)?;
    let digest = *hashed.digest();
    walk.version.step(k, digest);
    walk.digest = Some(digest);
    Ok(hashed)
}

fn put_read(
    alloc: Global,
    book: &mut Book,
    read: &Option<ReadPart>,
    hashed: &mut Sequence<Hashed>,
) -> Result<(), OutOfMemory>
    ensures { OnOk result (hashed.new ≡ hashed.old ++ read_inputs read.now) }
{
    if let Some(part) = read
        && let Some(mem) = &part.mem
        && let Some(value) = &mem.value
    {
        hashed.push(book.value(alloc, value.as_slice())?)?;
    }
    Ok(())
}
