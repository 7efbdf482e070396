ghost use Rattle.std.specs.Prelude.{◌≡◌, if◌then◌else◌};
ghost use Rattle.faust_ustor.specs.declared.refusal.JudgeError.TheVariants as refusals;

use crate::refusal::JudgeError;

/// Passes where the condition holds. Else this check is broken at this place.
pub fn demand(holds: bool, check: u8, place: u32) -> Result<(), JudgeError>
    ensures { result ≡ (if holds then Ok tt else Err (refusals.Check check place)) }
{
    if holds {
        Ok(())
    } else {
        Err(JudgeError::Check { check, place })
    }
}
