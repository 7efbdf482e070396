//! A version on its way to a client, edited.
ghost use Rattle.std.specs.Prelude.{◌≡◌, IfOk, Some};
ghost use Rattle.faust_types.specs.Clients.{IsClient};
ghost use Rattle.faust_types.specs.Ranges.{IsOperationNumber};
ghost use Rattle.faust_types.specs.Versions.{clients_of};
ghost use Rattle.faust_liar.specs.Edits.{Makes, made_by, redigested, retagged, retimed};

use crate::error::LiarError;
use crate::flip::flipped;
use faust_types::{Known, OutOfMemory};

/// The version as client k's: its maker is k, unless it is initial.
pub fn made_by(k: u8, known: &Known) -> Result<Known, OutOfMemory>
    ensures { IfOk result (λ made. made ≡ made_by k known.now) }
{
    let mut made = known.copy()?;
    if !made.version.is_initial() {
        made.maker = k;
    }
    Ok(made)
}

/// `V[k]` becomes t.
pub fn retimed(k: u8, t: u64, known: &Known) -> Result<Known, LiarError>
    requires client { IsClient (clients_of known.now.version) k }
    requires number { IsOperationNumber t }
    ensures { Makes result (retimed k t known.now) }
{
    let Some(digest) = known.version.digest(k) else {
        return Err(LiarError::Field);
    };
    let mut edited = known.copy()?;
    edited.version.set(k, t, digest);
    Ok(edited)
}

/// A bit of `M[k]` turns.
pub fn redigested(k: u8, known: &Known) -> Result<Known, LiarError>
    requires { IsClient (clients_of known.now.version) k }
    ensures { Makes result (redigested k known.now) }
{
    let Some(digest) = known.version.digest(k) else {
        return Err(LiarError::Field);
    };
    let mut edited = known.copy()?;
    edited.version.set(k, known.version.at(k), flipped(digest));
    Ok(edited)
}

/// A bit of the commit tag turns.
pub fn retagged(known: &Known) -> Result<Known, LiarError>
    ensures { Makes result (retagged known.now) }
{
    if known.version.is_initial() {
        return Err(LiarError::Field);
    }
    let mut edited = known.copy()?;
    edited.tag = flipped(edited.tag);
    Ok(edited)
}
