ghost use Rattle.std.specs.Prelude.{[]};
ghost use Rattle.faust_types.specs.Clients.{IsClientCount};
ghost use Rattle.faust_wire.specs.Reading.{Gives, next_items, next_tuple, next_pending, next_optional, next_mem, next_read_part, optionally};

use crate::error::WireError;
use crate::parts::{
    next_byte, next_flag, next_kind, next_number, next_optional, next_optional_value, next_tag,
    next_up_to,
};
use crate::version::next_signed;
use faust_types::{MAX_PENDING, Mem, Proofs, ReadPart, Tuple, Tuples};
use std::alloc::Global;

#[tactic(auto, unfolding(crate::specs::Reading::next_tuple))]
fn next_tuple(n: u8, bytes: &[u8]) -> Result<(Tuple, &[u8]), WireError>
    ensures { Gives (λ x. (x.0, x.1.now)) result (next_tuple n bytes.now) }
{
    let (client, rest) = next_up_to(n, bytes)?;
    let (kind, rest) = next_kind(rest)?;
    let (register, rest) = next_up_to(n, rest)?;
    let (tag, rest) = next_tag(rest)?;
    let tuple = Tuple {
        client,
        kind,
        register,
        tag,
    };
    Ok((tuple, rest))
}

fn next_tuples(alloc: Global, n: u8, count: u8, bytes: &[u8]) -> Result<(Tuples, &[u8]), WireError>
    ensures { Gives (λ x. (x.0, x.1.now)) result (next_items (next_tuple n) count [] bytes.now) }
{
    let mut tuples = Tuples::new(alloc);
    tuples.reserve(usize::from(count))?;
    let mut rest = bytes;
    for _ in 0..count {
        let (tuple, later) = next_tuple(n, rest)?;
        tuples.push(tuple)?;
        rest = later;
    }
    Ok((tuples, rest))
}

#[tactic(auto, unfolding(crate::specs::Reading::next_pending))]
pub(crate) fn next_pending(alloc: Global, n: u8, bytes: &[u8]) -> Result<(Tuples, &[u8]), WireError>
    ensures { Gives (λ x. (x.0, x.1.now)) result (next_pending n bytes.now) }
{
    let (count, rest) = next_byte(bytes)?;
    if usize::from(count) > MAX_PENDING {
        return Err(WireError::Malformed);
    }
    next_tuples(alloc, n, count, rest)
}

pub(crate) fn next_proofs(alloc: Global, n: u8, bytes: &[u8]) -> Result<(Proofs, &[u8]), WireError>
    ensures { Gives (λ x. (x.0, x.1.now)) result (next_items next_optional n [] bytes.now) }
{
    let mut proofs = Proofs::new(alloc);
    proofs.reserve(usize::from(n))?;
    let mut rest = bytes;
    for _ in 0..n {
        let (proof, later) = next_optional(rest)?;
        proofs.push(proof)?;
        rest = later;
    }
    Ok((proofs, rest))
}

#[tactic(auto, unfolding(crate::specs::Reading::next_mem))]
fn next_mem(alloc: Global, bytes: &[u8]) -> Result<(Mem, &[u8]), WireError>
    ensures { Gives (λ x. (x.0, x.1.now)) result (next_mem bytes.now) }
{
    let (t, rest) = next_number(bytes)?;
    let (value, rest) = next_optional_value(alloc, rest)?;
    let (tag, rest) = next_tag(rest)?;
    Ok((Mem { t, value, tag }, rest))
}

fn next_optional_mem(alloc: Global, bytes: &[u8]) -> Result<(Option<Mem>, &[u8]), WireError>
    ensures { Gives (λ x. (x.0, x.1.now)) result (optionally next_mem bytes.now) }
{
    let (there, rest) = next_flag(bytes)?;
    if !there {
        return Ok((None, rest));
    }
    let (mem, rest) = next_mem(alloc, rest)?;
    Ok((Some(mem), rest))
}

#[tactic(auto, unfolding(crate::specs::Reading::next_read_part))]
fn next_read_part(alloc: Global, n: u8, bytes: &[u8]) -> Result<(ReadPart, &[u8]), WireError>
    requires { IsClientCount n }
    ensures { Gives (λ x. (x.0, x.1.now)) result (next_read_part n bytes.now) }
{
    let (register, rest) = next_up_to(n, bytes)?;
    let (version, rest) = next_signed(alloc, n, register, rest)?;
    let (mem, rest) = next_optional_mem(alloc, rest)?;
    let part = ReadPart {
        register,
        version,
        mem,
    };
    Ok((part, rest))
}

pub(crate) fn next_optional_read_part(
    alloc: Global,
    n: u8,
    bytes: &[u8],
) -> Result<(Option<ReadPart>, &[u8]), WireError>
    requires { IsClientCount n }
    ensures { Gives (λ x. (x.0, x.1.now)) result (optionally (next_read_part n) bytes.now) }
{
    let (there, rest) = next_flag(bytes)?;
    if !there {
        return Ok((None, rest));
    }
    let (part, rest) = next_read_part(alloc, n, rest)?;
    Ok((Some(part), rest))
}
