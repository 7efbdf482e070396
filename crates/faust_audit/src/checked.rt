//! The checked pairs of an entry.
ghost use Rattle.std.specs.Prelude.{◌≡◌, ◌+◌, ◌++◌, ◌∷◌, [], List, cond, length, None, IfOk, IfSome, OnOk};
ghost use Rattle.faust_types.specs.Clients.{IsClient};
ghost use Rattle.faust_types.specs.Ranges.{IsConfig, IsReplyFor, IsTupleFor};
ghost use Rattle.faust_types.specs.Versions.{clients_of};
ghost use Rattle.faust_types.specs.declared.message.Tuple.{Tuple};
ghost use Rattle.faust_ustor.specs.Checks.{begun, digest_of};
ghost use Rattle.faust_forks.specs.Pairs.{Pair, checked, known_pairs, mem_pairs, peer_pair, proof_pairs, read_pairs, submit_pair, tuple_pairs};
ghost use Rattle.faust_premises.specs.Premises.{pairs_of_input};
ghost use Rattle.faust_audit.specs.Watching.{IsCameFor, reply_came};

use crate::book::Book;
use crate::completion::walk_on;
use crate::reading::message_of;
use faust_record::Input;
use faust_tags::{commit_body, data_body, peer_body, proof_body, submit_body};
use faust_types::{
    Bytes, Config, Digest, Known, MAX_TIMESTAMP, Mem, OutOfMemory, PeerMessage, Proofs, ReadPart,
    Reply, Sequence, Tag, Tuple,
};
use faust_ustor::Walk;
use std::alloc::Global;
use std::marker::Model;

/// A body, and the tag that came for it.
#[derive(Debug, Drop)]
pub struct Checked {
    body: Bytes,
    tag: Tag,
}

impl Model for Checked {
    ghost use Rattle.faust_forks.specs.Pairs.{Pair};

    ghost Value = { Pair };

    ghost view = { λ c. record { body = c.body; tag = c.tag } };
}

impl Checked {
    fn new(body: Bytes, tag: Tag) -> Checked
        ensures { result ≡ record { body = body; tag = tag } }
    {
        Checked { body, tag }
    }

    /// Its body.
    pub fn body(&self) -> &Bytes
        ensures { result.now ≡ self.now.body }
    {
        &self.body
    }

    /// The tag that came for the body.
    pub fn tag(&self) -> &Tag
        ensures { result.now ≡ self.now.tag }
    {
        &self.tag
    }
}

/// The checked pairs of an input with which this REPLY comes, or none.
pub fn checked_of(
    alloc: Global,
    book: &mut Book,
    config: &Config,
    input: &Input,
    reply: &Option<Reply>,
) -> Result<Sequence<Checked>, OutOfMemory>
    requires config { IsConfig config.now }
    requires reply { reply.now ≡ reply_came config.now input.now }
    requires in_range { IfSome reply.now (IsCameFor config.now.clients) }
    ensures { IfOk result (λ pairs. pairs ≡ pairs_of_input config.now input.now) }
{
    match reply {
        Some(reply) => reply_pairs(alloc, book, reply),
        None => peer_pairs(alloc, config, input),
    }
}

fn peer_pairs(
    alloc: Global,
    config: &Config,
    input: &Input,
) -> Result<Sequence<Checked>, OutOfMemory>
    requires config { IsConfig config.now }
    requires no_reply { reply_came config.now input.now ≡ None }
    ensures { IfOk result (λ pairs. pairs ≡ pairs_of_input config.now input.now) }
{
    let mut out = Sequence::new(alloc);
    if let Some(message) = message_of(alloc, config, input)? {
        out.push(of_message(alloc, config, &message)?)?;
    }
    Ok(out)
}

fn of_message(alloc: Global, config: &Config, message: &PeerMessage) -> Result<Checked, OutOfMemory>
    ensures { IfOk result (λ pair. pair ≡ peer_pair message.now) }
{
    let body = peer_body(alloc, config.clients, message)?;
    Ok(Checked::new(body, message.tag))
}

fn reply_pairs(
    alloc: Global,
    book: &mut Book,
    reply: &Reply,
) -> Result<Sequence<Checked>, OutOfMemory>
    requires { IsReplyFor (clients_of reply.now.version.version) reply.now }
    ensures { IfOk result (λ pairs. pairs ≡ checked reply.now) }
{
    let mut out = Sequence::new(alloc);
    put_known(alloc, reply.c, &reply.version, &mut out)?;
    if put_tuples(alloc, book, reply, &mut out)? {
        put_read(alloc, book, &reply.read, &mut out)?;
    }
    Ok(out)
}

fn put_known(
    alloc: Global,
    k: u8,
    known: &Known,
    out: &mut Sequence<Checked>,
) -> Result<(), OutOfMemory>
    ensures { OnOk result (out.new ≡ out.old ++ known_pairs k known.now) }
{
    if !known.version.is_initial() {
        let body = commit_body(alloc, k, &known.version)?;
        out.push(Checked::new(body, known.tag))?;
    }
    Ok(())
}

// The pairs of the tuples, and whether what comes behind the tuples is checked too.
fn put_tuples(
    alloc: Global,
    book: &mut Book,
    reply: &Reply,
    out: &mut Sequence<Checked>,
) -> Result<bool, OutOfMemory>
    requires { IsReplyFor (clients_of reply.now.version.version) reply.now }
    ensures { IfOk result (λ ended. (behind : List Pair) → out.new ++ cond ended behind []
        ≡ out.old ++ tuple_pairs reply.now.proofs behind (begun reply.now) reply.now.pending) }
{
    let mut walk = Walk::begin(reply)?;
    for tuple in reply.pending.as_slice() {
        if !put_tuple(alloc, book, &reply.proofs, &mut walk, tuple, out)? {
            return Ok(false);
        }
    }
    Ok(true)
}

// The pairs of one tuple, and whether its client has a next operation: the walk goes on then.
fn put_tuple(
    alloc: Global,
    book: &mut Book,
    proofs: &Proofs,
    walk: &mut Walk,
    tuple: &Tuple,
    out: &mut Sequence<Checked>,
) -> Result<bool, OutOfMemory>
    requires tuple { IsTupleFor (clients_of walk.old.version) tuple.now }
    requires proofs { length proofs.now ≡ clients_of walk.old.version }
    ensures pairs { IfOk result (λ goes_on. (behind : List Pair) (rest : List Tuple) →
        out.new ++ cond goes_on (tuple_pairs proofs.now behind walk.new rest) []
        ≡ out.old ++ tuple_pairs proofs.now behind walk.old (tuple.now ∷ rest)) }
    ensures sized { OnOk result (clients_of walk.new.version ≡ clients_of walk.old.version) }
{
    let k = tuple.client;
    let proof = *proofs.at(usize::from(k) - 1);
    put_proof(alloc, k, walk.version.digest(k), proof, out)?;
    let t = walk.version.at(k);
    if t >= MAX_TIMESTAMP {
        return Ok(false);
    }
    out.push(of_tuple(alloc, walk, tuple)?)?;
    let _ = walk_on(alloc, book, k, walk)?;
    Ok(true)
}

fn put_proof(
    alloc: Global,
    k: u8,
    digest: Option<Digest>,
    proof: Option<Tag>,
    out: &mut Sequence<Checked>,
) -> Result<(), OutOfMemory>
    ensures { OnOk result (out.new ≡ out.old ++ proof_pairs k digest proof) }
{
    if let Some(digest) = digest
        && let Some(proof) = proof
    {
        let body = proof_body(alloc, k, &digest)?;
        out.push(Checked::new(body, proof))?;
    }
    Ok(())
}

fn of_tuple(alloc: Global, walk: &Walk, tuple: &Tuple) -> Result<Checked, OutOfMemory>
    requires { IsClient (clients_of walk.now.version) tuple.now.client }
    ensures { IfOk result (λ pair. pair ≡ submit_pair walk.now tuple.now) }
{
    let t = walk.version.at(tuple.client) + 1;
    let body = submit_body(alloc, tuple.client, tuple.kind, tuple.register, t)?;
    Ok(Checked::new(body, tuple.tag))
}

fn put_read(
    alloc: Global,
    book: &mut Book,
    read: &Option<ReadPart>,
    out: &mut Sequence<Checked>,
) -> Result<(), OutOfMemory>
    ensures { OnOk result (out.new ≡ out.old ++ read_pairs read.now) }
{
    if let Some(part) = read {
        put_known(alloc, part.register, &part.version, out)?;
        put_mem(alloc, book, part.register, &part.mem, out)?;
    }
    Ok(())
}

fn put_mem(
    alloc: Global,
    book: &mut Book,
    j: u8,
    mem: &Option<Mem>,
    out: &mut Sequence<Checked>,
) -> Result<(), OutOfMemory>
    ensures { OnOk result (out.new ≡ out.old ++ mem_pairs j mem.now) }
{
    if let Some(mem) = mem {
        out.push(of_mem(alloc, book, j, mem)?)?;
    }
    Ok(())
}

fn of_mem(alloc: Global, book: &mut Book, j: u8, mem: &Mem) -> Result<Checked, OutOfMemory>
    ensures { IfOk result (λ pair. mem_pairs j (Some mem.now) ≡ pair ∷ []) }
{
    let digest = digest_of(alloc, book, &mem.value)?;
    let body = data_body(alloc, j, mem.t, digest.as_ref())?;
    Ok(Checked::new(body, mem.tag))
}

#[tactic(auto, unfolding(faust_hash::specs::Chain::value_digest_of, faust_hash::specs::Chain::input_digest))]
fn digest_of(
    alloc: Global,
    book: &mut Book,
    value: &Option<Bytes>,
) -> Result<Option<Digest>, OutOfMemory>
    ensures { IfOk result (λ digest. digest ≡ digest_of value.now) }
{
    match value {
        None => Ok(None),
        Some(value) => Ok(Some(*book.value(alloc, value.as_slice())?.digest())),
    }
}
