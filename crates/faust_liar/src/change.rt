//! A reply on its way to a client, edited: the table of edits.
ghost use Rattle.std.specs.Prelude.{◌≡◌, IfOk, length, option_copied};
ghost use Rattle.faust_types.specs.Ranges.{IsReplyFor};
ghost use Rattle.faust_script.specs.InRange.{IsEditFor};
ghost use Rattle.faust_liar.specs.Edits.{Makes, edited_reply, lied_reply, made_by, without_read};

use crate::error::LiarError;
use crate::forging::forged;
use crate::pending::{added, dropped, proof_flipped, proof_removed, swapped, tag_flipped};
use crate::read_part::{dtag, jtag, jv, part_in, t, value};
use crate::versions::{made_by, redigested, retagged, retimed};
use faust_script::Edit;
use faust_types::{Known, OutOfMemory, Proofs, ReadPart, Reply, Tuple, Tuples};

/// What an edit makes of a reply; with a key it is forged.
pub fn lie(reply: &Reply, edit: &Edit, key: Option<&[u8]>) -> Result<Reply, LiarError>
    requires reply { IsReplyFor (length reply.now.proofs) reply.now }
    requires edit { IsEditFor (length reply.now.proofs) edit.now }
    ensures { Makes result (lied_reply (option_copied key.entry) edit.now reply.now) }
{
    match key {
        None => edited(reply, edit),
        Some(key) => forged(reply, edit, key),
    }
}

/// What an edit makes of a reply.
pub fn edited(reply: &Reply, edit: &Edit) -> Result<Reply, LiarError>
    requires reply { IsReplyFor (length reply.now.proofs) reply.now }
    requires edit { IsEditFor (length reply.now.proofs) edit.now }
    ensures { Makes result (edited_reply edit.now reply.now) }
{
    match edit {
        Edit::C(k) => Ok(with_client(reply, *k)?),
        Edit::V(k, t) => Ok(with_version(reply, retimed(*k, *t, &reply.version)?)?),
        Edit::M(k) => Ok(with_version(reply, redigested(*k, &reply.version)?)?),
        Edit::Ctag => Ok(with_version(reply, retagged(&reply.version)?)?),
        Edit::Add(k, kind, j) => {
            let tuple = Tuple {
                client: *k,
                kind: *kind,
                register: *j,
                tag: [0; 32],
            };
            Ok(with_pending(reply, added(tuple, &reply.pending)?)?)
        }
        Edit::DropTuple(q) => Ok(with_pending(reply, dropped(*q, &reply.pending)?)?),
        Edit::Swap(q) => Ok(with_pending(reply, swapped(*q, &reply.pending)?)?),
        Edit::Ltag(q) => Ok(with_pending(reply, tag_flipped(*q, &reply.pending)?)?),
        Edit::Proof(k) => Ok(with_proofs(reply, proof_flipped(*k, &reply.proofs)?)?),
        Edit::Noproof(k) => Ok(with_proofs(reply, proof_removed(*k, &reply.proofs)?)?),
        Edit::Jv(k, time) => Ok(with_read(reply, jv(*k, *time, &reply.read)?)?),
        Edit::Jtag => Ok(with_read(reply, jtag(&reply.read)?)?),
        Edit::T(time) => Ok(with_read(reply, t(*time, &reply.read)?)?),
        Edit::Value(bytes) => Ok(with_read(reply, value(bytes, &reply.read)?)?),
        Edit::Dtag => Ok(with_read(reply, dtag(&reply.read)?)?),
        Edit::Unread => without_read(reply),
    }
}

/// The reply with client k for c.
fn with_client(reply: &Reply, k: u8) -> Result<Reply, OutOfMemory>
    ensures { IfOk result (λ edited. edited ≡ record reply.now { c = k; version = made_by k reply.now.version }) }
{
    let read = copy_of_read(&reply.read)?;
    Ok(Reply {
        c: k,
        version: made_by(k, &reply.version)?,
        pending: reply.pending.copy()?,
        proofs: reply.proofs.copy()?,
        read,
    })
}

/// The reply with another version of c.
fn with_version(reply: &Reply, version: Known) -> Result<Reply, OutOfMemory>
    ensures { IfOk result (λ edited. edited ≡ record reply.now { version = version }) }
{
    let read = copy_of_read(&reply.read)?;
    Ok(Reply {
        c: reply.c,
        version,
        pending: reply.pending.copy()?,
        proofs: reply.proofs.copy()?,
        read,
    })
}

/// The reply with other tuples.
pub fn with_pending(reply: &Reply, pending: Tuples) -> Result<Reply, OutOfMemory>
    ensures { IfOk result (λ edited. edited ≡ record reply.now { pending = pending }) }
{
    let read = copy_of_read(&reply.read)?;
    Ok(Reply {
        c: reply.c,
        version: reply.version.copy()?,
        pending,
        proofs: reply.proofs.copy()?,
        read,
    })
}

/// The reply with other proofs.
fn with_proofs(reply: &Reply, proofs: Proofs) -> Result<Reply, OutOfMemory>
    ensures { IfOk result (λ edited. edited ≡ record reply.now { proofs = proofs }) }
{
    let read = copy_of_read(&reply.read)?;
    Ok(Reply {
        c: reply.c,
        version: reply.version.copy()?,
        pending: reply.pending.copy()?,
        proofs,
        read,
    })
}

/// The reply with another read part.
fn with_read(reply: &Reply, part: ReadPart) -> Result<Reply, OutOfMemory>
    ensures { IfOk result (λ edited. edited ≡ record reply.now { read = Some part }) }
{
    Ok(Reply {
        c: reply.c,
        version: reply.version.copy()?,
        pending: reply.pending.copy()?,
        proofs: reply.proofs.copy()?,
        read: Some(part),
    })
}

/// The reply without its read part.
fn without_read(reply: &Reply) -> Result<Reply, LiarError>
    ensures { Makes result (without_read reply.now reply.now.read) }
{
    let _part = part_in(&reply.read)?;
    Ok(Reply {
        c: reply.c,
        version: reply.version.copy()?,
        pending: reply.pending.copy()?,
        proofs: reply.proofs.copy()?,
        read: None,
    })
}

fn copy_of_read(read: &Option<ReadPart>) -> Result<Option<ReadPart>, OutOfMemory>
    ensures { IfOk result (λ copy. copy ≡ read.now) }
{
    match read {
        Some(part) => Ok(Some(part.copy()?)),
        None => Ok(None),
    }
}
