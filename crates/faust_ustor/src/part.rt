ghost use Rattle.std.specs.Prelude.{◌≡◌, IfOk, IfSome};
ghost use Rattle.faust_types.specs.Clients.{IsClient};
ghost use Rattle.faust_types.specs.Versions.{clients_of};
ghost use Rattle.faust_types.specs.Messages.{value_of};
ghost use Rattle.faust_types.specs.Ranges.{IsReadPartFor};
ghost use Rattle.faust_ustor.specs.Checks.{answered, broken_part, is_latest, is_recent, time_of, Gives, Passes};

use crate::judgement::Judged;
use crate::refusal::JudgeError;
use crate::tags::{is_known_right, is_mem_right};
use crate::verdict::demand;
use faust_hash::PreparedKey;
use faust_types::{Bytes, Mem, OutOfMemory, ReadPart, Version};
use std::alloc::Global;

/// What the reply tells besides the next version: for a write nothing, and for a read what its part has, if that
/// breaks none of the checks 9 to 12.
pub fn answered(
    alloc: Global,
    key: &PreparedKey,
    version: &Version,
    next: Version,
    read: &Option<ReadPart>,
) -> Result<Judged, JudgeError>
    requires sizes { clients_of version.now ≡ clients_of next }
    requires part { IfSome read.now (IsReadPartFor (clients_of next)) }
    ensures { Gives result (answered key.now version.now next read.now) }
{
    match read {
        None => Ok(Judged {
            next,
            value: None,
            asof: 0,
            heard: None,
        }),
        Some(part) => {
            check_part(alloc, key, version, &next, part)?;
            Ok(Judged {
                next,
                value: copy_of_value(key, &part.mem)?,
                asof: time_of(&part.mem),
                heard: Some(part.version.copy()?),
            })
        }
    }
}

#[tactic(auto, unfolding(crate::specs::Checks::broken_part))]
fn check_part(
    alloc: Global,
    key: &PreparedKey,
    version: &Version,
    next: &Version,
    part: &ReadPart,
) -> Result<(), JudgeError>
    requires sizes { clients_of version.now ≡ clients_of next.now }
    requires part { IsReadPartFor (clients_of next.now) part.now }
    ensures { Passes result (broken_part key.now version.now next.now part.now) }
{
    let j = part.register;
    demand(is_known_right(alloc, key, j, &part.version)?, 9, 0)?;
    demand(is_mem_right(key, j, &part.mem), 10, 0)?;
    demand(is_latest(next, j, &part.mem), 11, 0)?;
    demand(
        is_recent(version, j, &part.version.version, time_of(&part.mem)),
        12,
        0,
    )
}

fn is_latest(next: &Version, j: u8, mem: &Option<Mem>) -> bool
    requires { IsClient (clients_of next.now) j }
    ensures { result ≡ is_latest next.now j mem.now }
{
    time_of(mem) == next.at(j)
}

fn is_recent(version: &Version, j: u8, version_of_j: &Version, t: u64) -> bool
    requires client { IsClient (clients_of version.now) j }
    requires sizes { clients_of version_of_j.now ≡ clients_of version.now }
    ensures { result ≡ is_recent version.now j version_of_j.now t }
{
    let counted = version_of_j.at(j);
    version_of_j.is_at_most(version) && (counted == t || counted + 1 == t)
}

fn time_of(mem: &Option<Mem>) -> u64
    ensures { result ≡ time_of mem.now }
{
    match mem {
        None => 0,
        Some(mem) => mem.t,
    }
}

fn copy_of_value(key: &PreparedKey, mem: &Option<Mem>) -> Result<Option<Bytes>, OutOfMemory>
    ensures { IfOk result (λ value. value ≡ value_of mem.now) }
{
    if let Some(mem) = mem
        && let Some(value) = &mem.value
    {
        return Ok(Some(copy_once(key, value)?));
    }
    Ok(None)
}

// The value once more: in the memory of the key's book, if that has it.
fn copy_once(key: &PreparedKey, value: &Bytes) -> Result<Bytes, OutOfMemory>
    ensures { IfOk result (λ copy. copy ≡ value.now) }
{
    match key.shared_value(value.as_slice()) {
        Some(shared) => Ok(Bytes::from_shared(shared)),
        None => value.copy(),
    }
}
