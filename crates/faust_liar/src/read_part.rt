//! The read part of a reply on its way to a client, edited.
ghost use Rattle.std.specs.Prelude.{◌≡◌, IfOk, IfSome, IsNone, MatchResult};
ghost use Rattle.faust_types.specs.Clients.{IsClient};
ghost use Rattle.faust_types.specs.Ranges.{IsOperationNumber};
ghost use Rattle.faust_types.specs.Versions.{clients_of};
ghost use Rattle.faust_liar.specs.declared.error.LiarError.TheVariants.{Field as no_field};
ghost use Rattle.faust_liar.specs.Edits.{Makes, mem_at, mem_changed, mem_retagged, mem_with, retagged, retimed, version_changed};

use crate::error::LiarError;
use crate::flip::flipped;
use crate::versions::{retagged, retimed};
use faust_types::{Bytes, Known, Mem, OutOfMemory, ReadPart, Reply};

/// `V[k]` of the version of j becomes t.
pub fn jv(k: u8, t: u64, read: &Option<ReadPart>) -> Result<ReadPart, LiarError>
    requires client { IfSome read.now (λ part. IsClient (clients_of part.version.version) k) }
    requires number { IsOperationNumber t }
    ensures { Makes result (version_changed (retimed k t) read.now) }
{
    let part = part_in(read)?;
    Ok(with_version(part, retimed(k, t, &part.version)?)?)
}

/// A bit of the commit tag of j turns.
pub fn jtag(read: &Option<ReadPart>) -> Result<ReadPart, LiarError>
    ensures { Makes result (version_changed retagged read.now) }
{
    let part = part_in(read)?;
    Ok(with_version(part, retagged(&part.version)?)?)
}

/// The timestamp of the memory becomes t.
pub fn t(t: u64, read: &Option<ReadPart>) -> Result<ReadPart, LiarError>
    ensures { Makes result (mem_changed (mem_at t) read.now) }
{
    let part = part_in(read)?;
    let mut mem = mem_in(part)?.copy()?;
    mem.t = t;
    Ok(with_mem(part, mem)?)
}

/// The value of the memory becomes this one.
pub fn value(value: &Bytes, read: &Option<ReadPart>) -> Result<ReadPart, LiarError>
    ensures { Makes result (mem_changed (mem_with value.now) read.now) }
{
    let part = part_in(read)?;
    let held = mem_in(part)?;
    let mem = Mem {
        t: held.t,
        value: Some(value.copy()?),
        tag: held.tag,
    };
    Ok(with_mem(part, mem)?)
}

/// A bit of the data tag turns.
pub fn dtag(read: &Option<ReadPart>) -> Result<ReadPart, LiarError>
    ensures { Makes result (mem_changed mem_retagged read.now) }
{
    let part = part_in(read)?;
    let mut mem = mem_in(part)?.copy()?;
    mem.tag = flipped(mem.tag);
    Ok(with_mem(part, mem)?)
}

/// The read part of a reply.
pub fn part_in(read: &Option<ReadPart>) -> Result<&ReadPart, LiarError>
    ensures { MatchResult result (λ part. read.now ≡ Some part.now) (λ e. (e ≡ no_field) × IsNone read.now) }
{
    read.as_ref().ok_or(LiarError::Field)
}

/// The memory in a read part.
fn mem_in(part: &ReadPart) -> Result<&Mem, LiarError>
    ensures { MatchResult result (λ mem. part.now.mem ≡ Some mem.now) (λ e. (e ≡ no_field) × IsNone part.now.mem) }
{
    part.mem.as_ref().ok_or(LiarError::Field)
}

fn with_version(part: &ReadPart, version: Known) -> Result<ReadPart, OutOfMemory>
    ensures { IfOk result (λ edited. edited ≡ record part.now { version = version }) }
{
    let mem = match &part.mem {
        Some(mem) => Some(mem.copy()?),
        None => None,
    };
    Ok(ReadPart {
        register: part.register,
        version,
        mem,
    })
}

fn with_mem(part: &ReadPart, mem: Mem) -> Result<ReadPart, OutOfMemory>
    ensures { IfOk result (λ edited. edited ≡ record part.now { mem = Some mem }) }
{
    Ok(ReadPart {
        register: part.register,
        version: part.version.copy()?,
        mem: Some(mem),
    })
}
