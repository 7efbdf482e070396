ghost use Rattle.std.specs.Prelude.{◌≡◌, ◌++◌, is_none, IfOk, OnOk};
ghost use Rattle.faust_types.specs.Clients.{IsClient};
ghost use Rattle.faust_types.specs.Versions.{clients_of};
ghost use Rattle.faust_types.specs.Ranges.{IsReplyFor};
ghost use Rattle.faust_hash.specs.Chain.{chain_input, value_input};
ghost use Rattle.faust_ustor.specs.Checks.{broken_base};
ghost use Rattle.faust_ustor.specs.Hashed.{hashed, mem_inputs, part_inputs};
ghost use Rattle.faust_ustor.specs.InRange.{IsPendingOf};

use crate::judgement::check_base;
use crate::refusal::JudgeError;
use crate::tags::is_known_right;
use crate::walk::Walk;
use faust_hash::PreparedKey;
use faust_types::{Bytes, Digest, Mem, Operation, OutOfMemory, ReadPart, Reply, Sequence, Version};
use std::alloc::Global;

// The bytes that the hashed inputs of a chain and of a value begin with.
const CHAIN: u8 = 0x10;

const VALUE: u8 = 0x11;

/// What `judge` hashes on the same arguments besides the bodies of tags: the inputs of the digests of chains and
/// of the value, in their order, up to and with the first broken check.
pub fn hashed(
    alloc: Global,
    key: &[u8],
    me: u8,
    own: &Version,
    op: &Operation,
    reply: &Reply,
) -> Result<Sequence<Bytes>, OutOfMemory>
    requires pending { IsPendingOf me own.now op.now }
    requires reply { IsReplyFor (clients_of own.now) reply.now }
    ensures { IfOk result (λ inputs. inputs ≡ hashed key.now me own.now op.now reply.now) }
{
    hashed_under(alloc, &PreparedKey::new(key), me, own, op, reply)
}

/// The same with a key that was prepared before.
#[tactic(auto, unfolding(crate::specs::Hashed::hashed))]
pub fn hashed_under(
    alloc: Global,
    key: &PreparedKey,
    me: u8,
    own: &Version,
    op: &Operation,
    reply: &Reply,
) -> Result<Sequence<Bytes>, OutOfMemory>
    requires pending { IsPendingOf me own.now op.now }
    requires reply { IsReplyFor (clients_of own.now) reply.now }
    ensures { IfOk result (λ inputs. inputs ≡ hashed key.now me own.now op.now reply.now) }
{
    let mut inputs = Sequence::new(alloc);
    if !is_base_kept(alloc, key, me, own, op, reply)? {
        return Ok(inputs);
    }
    let mut walk = Walk::begin(reply)?;
    for (before, tuple) in reply.pending.as_slice().iter().enumerate() {
        if !walk.is_next(key, me, reply.proofs.as_slice(), before as u32 + 1, tuple) {
            return Ok(inputs);
        }
        inputs.push(chain_input(alloc, walk.digest, tuple.client)?)?;
        walk.advance(key, tuple.client);
    }
    inputs.push(chain_input(alloc, walk.digest, me)?)?;
    put_part(alloc, key, &reply.read, &mut inputs)?;
    Ok(inputs)
}

// Whether checks 3, 4 and 5 hold.
fn is_base_kept(
    alloc: Global,
    key: &PreparedKey,
    me: u8,
    own: &Version,
    op: &Operation,
    reply: &Reply,
) -> Result<bool, OutOfMemory>
    requires client { IsClient (clients_of own.now) me }
    requires sizes { clients_of own.now ≡ clients_of reply.now.version.version }
    ensures { IfOk result (λ kept. kept ≡ is_none (broken_base key.now me own.now op.now reply.now)) }
{
    match check_base(alloc, key, me, own, op, reply) {
        Ok(()) => Ok(true),
        Err(JudgeError::Check { .. }) => Ok(false),
        Err(JudgeError::OutOfMemory) => Err(OutOfMemory),
    }
}

// Puts what is hashed of the read part behind the inputs.
fn put_part(
    alloc: Global,
    key: &PreparedKey,
    read: &Option<ReadPart>,
    inputs: &mut Sequence<Bytes>,
) -> Result<(), OutOfMemory>
    ensures { OnOk result (inputs.new ≡ inputs.old ++ part_inputs key.now read.now) }
{
    if let Some(part) = read
        && is_known_right(alloc, key, part.register, &part.version)?
    {
        return put_mem(alloc, &part.mem, inputs);
    }
    Ok(())
}

fn put_mem(
    alloc: Global,
    mem: &Option<Mem>,
    inputs: &mut Sequence<Bytes>,
) -> Result<(), OutOfMemory>
    ensures { OnOk result (inputs.new ≡ inputs.old ++ mem_inputs mem.now) }
{
    if let Some(mem) = mem
        && let Some(value) = &mem.value
    {
        inputs.push(value_input(alloc, value.as_slice())?)?;
    }
    Ok(())
}

fn chain_input(alloc: Global, before: Option<Digest>, k: u8) -> Result<Bytes, OutOfMemory>
    ensures { IfOk result (λ input. input ≡ chain_input before k) }
{
    let mut input = Bytes::new(alloc);
    input.push(CHAIN)?;
    if let Some(digest) = before {
        input.append(&digest)?;
    }
    input.push(k)?;
    Ok(input)
}

fn value_input(alloc: Global, value: &[u8]) -> Result<Bytes, OutOfMemory>
    ensures { IfOk result (λ input. input ≡ value_input value.now) }
{
    let mut input = Bytes::new(alloc);
    input.push(VALUE)?;
    input.append(value)?;
    Ok(input)
}
