//! The tuples and the proofs of a reply on its way to a client, edited. `q` is the place of a tuple from 1 on.
ghost use Rattle.std.specs.Prelude.{◌≤◌, length};
ghost use Rattle.faust_types.specs.Clients.{IsClient};
ghost use Rattle.faust_liar.specs.Edits.{Makes, added, dropped, proof_flipped, proof_removed, swapped, tag_flipped};

use crate::error::LiarError;
use crate::flip::flipped;
use faust_types::{MAX_PENDING, Proofs, Sequence, Tuple, Tuples};

/// One more tuple.
pub fn added(tuple: Tuple, pending: &Tuples) -> Result<Tuples, LiarError>
    ensures { Makes result (added tuple pending.now) }
{
    if pending.len() >= MAX_PENDING {
        return Err(LiarError::Field);
    }
    let mut edited = pending.copy()?;
    edited.push(tuple)?;
    Ok(edited)
}

/// Tuple q is taken out.
pub fn dropped(q: usize, pending: &Tuples) -> Result<Tuples, LiarError>
    requires { 1 ≤ q }
    ensures { Makes result (dropped q pending.now) }
{
    if q > pending.len() {
        return Err(LiarError::Field);
    }
    let mut edited = pending.copy()?.into_vec();
    let _dropped = edited.remove(q - 1);
    Ok(Sequence::from_vec(edited))
}

/// Tuples q and q + 1 change places.
pub fn swapped(q: usize, pending: &Tuples) -> Result<Tuples, LiarError>
    requires { 1 ≤ q }
    ensures { Makes result (swapped q pending.now) }
{
    if q >= pending.len() {
        return Err(LiarError::Field);
    }
    let mut edited = pending.copy()?.into_vec();
    edited.swap(q - 1, q);
    Ok(Sequence::from_vec(edited))
}

/// A bit of tuple q's tag turns.
pub fn tag_flipped(q: usize, pending: &Tuples) -> Result<Tuples, LiarError>
    requires { 1 ≤ q }
    ensures { Makes result (tag_flipped q pending.now) }
{
    if q > pending.len() {
        return Err(LiarError::Field);
    }
    let mut tuple = *pending.at(q - 1);
    tuple.tag = flipped(tuple.tag);
    let mut edited = pending.copy()?;
    edited.set(q - 1, tuple);
    Ok(edited)
}

/// A bit of `P[k]` turns.
pub fn proof_flipped(k: u8, proofs: &Proofs) -> Result<Proofs, LiarError>
    requires { IsClient (length proofs.now) k }
    ensures { Makes result (proof_flipped k proofs.now) }
{
    let place = usize::from(k) - 1;
    let Some(proof) = *proofs.at(place) else {
        return Err(LiarError::Field);
    };
    let mut edited = proofs.copy()?;
    edited.set(place, Some(flipped(proof)));
    Ok(edited)
}

/// `P[k]` becomes absent.
pub fn proof_removed(k: u8, proofs: &Proofs) -> Result<Proofs, LiarError>
    requires { IsClient (length proofs.now) k }
    ensures { Makes result (proof_removed k proofs.now) }
{
    let place = usize::from(k) - 1;
    if proofs.at(place).is_none() {
        return Err(LiarError::Field);
    }
    let mut edited = proofs.copy()?;
    edited.set(place, None);
    Ok(edited)
}
