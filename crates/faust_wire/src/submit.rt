ghost use Rattle.faust_types.specs.Clients.{IsClientCount};
ghost use Rattle.faust_wire.specs.Reading.{Gives, next_written, next_commit, next_riding, next_submit};

use crate::error::WireError;
use crate::numbers::FIRST_WIRE;
use crate::parts::{next_flag, next_kind, next_number, next_tag, next_up_to, next_value};
use crate::version::next_version;
use faust_types::{Bytes, Commit, Kind, Submit};
use std::alloc::Global;

fn next_written(
    alloc: Global,
    kind: Kind,
    bytes: &[u8],
) -> Result<(Option<Bytes>, &[u8]), WireError>
    ensures { Gives (λ x. (x.0, x.1.now)) result (next_written kind bytes.now) }
{
    match kind {
        Kind::Write => {
            let (value, rest) = next_value(alloc, bytes)?;
            Ok((Some(value), rest))
        }
        Kind::Read => Ok((None, bytes)),
    }
}

#[tactic(auto, unfolding(crate::specs::Reading::next_commit))]
pub(crate) fn next_commit(alloc: Global, n: u8, bytes: &[u8]) -> Result<(Commit, &[u8]), WireError>
    requires { IsClientCount n }
    ensures { Gives (λ x. (x.0, x.1.now)) result (next_commit n bytes.now) }
{
    let (version, rest) = next_version(alloc, n, bytes)?;
    let (commit_tag, rest) = next_tag(rest)?;
    let (proof_tag, rest) = next_tag(rest)?;
    if version.is_initial() {
        return Err(WireError::Malformed);
    }
    let commit = Commit {
        version,
        commit_tag,
        proof_tag,
    };
    Ok((commit, rest))
}

fn next_riding(
    alloc: Global,
    wire: u8,
    n: u8,
    bytes: &[u8],
) -> Result<(Option<Commit>, &[u8]), WireError>
    requires { IsClientCount n }
    ensures { Gives (λ x. (x.0, x.1.now)) result (next_riding wire n bytes.now) }
{
    if wire == FIRST_WIRE {
        return Ok((None, bytes));
    }
    let (there, rest) = next_flag(bytes)?;
    if !there {
        return Ok((None, rest));
    }
    let (commit, rest) = next_commit(alloc, n, rest)?;
    Ok((Some(commit), rest))
}

#[tactic(auto, unfolding(crate::specs::Reading::next_submit))]
pub(crate) fn next_submit(
    alloc: Global,
    wire: u8,
    n: u8,
    bytes: &[u8],
) -> Result<(Submit, &[u8]), WireError>
    requires { IsClientCount n }
    ensures { Gives (λ x. (x.0, x.1.now)) result (next_submit wire n bytes.now) }
{
    let (kind, rest) = next_kind(bytes)?;
    let (register, rest) = next_up_to(n, rest)?;
    let (t, rest) = next_number(rest)?;
    let (submit_tag, rest) = next_tag(rest)?;
    let (data_tag, rest) = next_tag(rest)?;
    let (value, rest) = next_written(alloc, kind, rest)?;
    let (commit, rest) = next_riding(alloc, wire, n, rest)?;
    let submit = Submit {
        kind,
        register,
        t,
        value,
        submit_tag,
        data_tag,
        commit,
    };
    Ok((submit, rest))
}
