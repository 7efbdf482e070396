ghost use Rattle.std.specs.Prelude.{◌^◌, ◌<◌, IfOk};
ghost use Rattle.faust_wire.specs.Reading.{Gives, next_byte, next_bytes, next_flag, next_up_to, next_kind, next_timestamp, next_number, next_tag, next_optional, next_value, optionally};

use crate::error::WireError;
use faust_types::spelling::{ABSENT, PRESENT, READ, WRITE};
use faust_types::{Bytes, Kind, MAX_TIMESTAMP, MAX_VALUE_LEN, Tag};
use std::alloc::Global;

pub(crate) fn next_byte(bytes: &[u8]) -> Result<(u8, &[u8]), WireError>
    ensures { Gives (λ x. (x.0, x.1.now)) result (next_byte bytes.now) }
{
    match bytes {
        [] => Err(WireError::Malformed),
        [byte, rest @ ..] => Ok((*byte, rest)),
    }
}

#[tactic(auto, unfolding(crate::specs::Reading::next_bytes))]
pub(crate) fn next_bytes(len: usize, bytes: &[u8]) -> Result<(&[u8], &[u8]), WireError>
    ensures { Gives (λ x. (x.0.now, x.1.now)) result (next_bytes len bytes.now) }
{
    if bytes.len() < len {
        return Err(WireError::Malformed);
    }
    Ok(bytes.split_at(len))
}

#[tactic(auto, unfolding(crate::specs::Reading::next_flag))]
pub(crate) fn next_flag(bytes: &[u8]) -> Result<(bool, &[u8]), WireError>
    ensures { Gives (λ x. (x.0, x.1.now)) result (next_flag bytes.now) }
{
    match bytes {
        [] => Err(WireError::Malformed),
        [ABSENT, rest @ ..] => Ok((false, rest)),
        [PRESENT, rest @ ..] => Ok((true, rest)),
        [_, ..] => Err(WireError::Malformed),
    }
}

#[tactic(auto, unfolding(crate::specs::Reading::next_up_to))]
pub(crate) fn next_up_to(most: u8, bytes: &[u8]) -> Result<(u8, &[u8]), WireError>
    ensures { Gives (λ x. (x.0, x.1.now)) result (next_up_to most bytes.now) }
{
    let (number, rest) = next_byte(bytes)?;
    if number == 0 || number > most {
        return Err(WireError::Malformed);
    }
    Ok((number, rest))
}

#[tactic(auto, unfolding(crate::specs::Reading::next_kind))]
pub(crate) fn next_kind(bytes: &[u8]) -> Result<(Kind, &[u8]), WireError>
    ensures { Gives (λ x. (x.0, x.1.now)) result (next_kind bytes.now) }
{
    let (kind, rest) = next_byte(bytes)?;
    match kind {
        WRITE => Ok((Kind::Write, rest)),
        READ => Ok((Kind::Read, rest)),
        _ => Err(WireError::Malformed),
    }
}

#[tactic(auto, unfolding(crate::specs::Reading::next_timestamp, crate::specs::Reading::next_bytes))]
pub(crate) fn next_timestamp(bytes: &[u8]) -> Result<(u64, &[u8]), WireError>
    ensures value { Gives (λ x. (x.0, x.1.now)) result (next_timestamp bytes.now) }
    ensures below { IfOk result (λ x. x.0 < 2 ^ 40) }
{
    let Some((front, rest)) = bytes.split_first_chunk::<8>() else {
        return Err(WireError::Malformed);
    };
    let t = u64::from_be_bytes(*front);
    if t > MAX_TIMESTAMP {
        return Err(WireError::Malformed);
    }
    Ok((t, rest))
}

#[tactic(auto, unfolding(crate::specs::Reading::next_number))]
pub(crate) fn next_number(bytes: &[u8]) -> Result<(u64, &[u8]), WireError>
    ensures { Gives (λ x. (x.0, x.1.now)) result (next_number bytes.now) }
{
    let (t, rest) = next_timestamp(bytes)?;
    if t == 0 {
        return Err(WireError::Malformed);
    }
    Ok((t, rest))
}

#[tactic(auto, unfolding(crate::specs::Reading::next_bytes))]
pub(crate) fn next_tag(bytes: &[u8]) -> Result<(Tag, &[u8]), WireError>
    ensures { Gives (λ x. (x.0, x.1.now)) result (next_tag bytes.now) }
{
    let Some((tag, rest)) = bytes.split_first_chunk::<32>() else {
        return Err(WireError::Malformed);
    };
    Ok((*tag, rest))
}

#[tactic(auto, unfolding(crate::specs::Reading::next_optional))]
pub(crate) fn next_optional(bytes: &[u8]) -> Result<(Option<Tag>, &[u8]), WireError>
    ensures { Gives (λ x. (x.0, x.1.now)) result (next_optional bytes.now) }
{
    let (there, rest) = next_flag(bytes)?;
    if !there {
        return Ok((None, rest));
    }
    let (tag, rest) = next_tag(rest)?;
    Ok((Some(tag), rest))
}

#[tactic(auto, unfolding(crate::specs::Reading::next_value, crate::specs::Reading::next_bytes))]
pub(crate) fn next_value(alloc: Global, bytes: &[u8]) -> Result<(Bytes, &[u8]), WireError>
    ensures { Gives (λ x. (x.0, x.1.now)) result (next_value bytes.now) }
{
    let Some((len, rest)) = bytes.split_first_chunk::<2>() else {
        return Err(WireError::Malformed);
    };
    let len = usize::from(u16::from_be_bytes(*len));
    if len > MAX_VALUE_LEN {
        return Err(WireError::Malformed);
    }
    let (value, rest) = next_bytes(len, rest)?;
    Ok((Bytes::from_slice(alloc, value)?.shared(), rest))
}

pub(crate) fn next_optional_value(
    alloc: Global,
    bytes: &[u8],
) -> Result<(Option<Bytes>, &[u8]), WireError>
    ensures { Gives (λ x. (x.0, x.1.now)) result (optionally next_value bytes.now) }
{
    let (there, rest) = next_flag(bytes)?;
    if !there {
        return Ok((None, rest));
    }
    let (value, rest) = next_value(alloc, rest)?;
    Ok((Some(value), rest))
}
