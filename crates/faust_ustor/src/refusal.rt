ghost use Rattle.std.specs.Prelude.{◌≡◌};
ghost use Rattle.faust_ustor.specs.Checks.{broken, Passes};
ghost use Rattle.faust_ustor.specs.declared.refusal.JudgeError.TheVariants as refusals;

use faust_types::OutOfMemory;
use std::error::Error;
use std::fmt;

/// Why a reply was not taken: a check is broken, from 3 to 12, with the tuple that it names, counted from 1, for
/// checks 6 to 8 and place 0 for the others; or there was no memory left.
#[derive(Clone, Copy, Debug, PartialEq, Eq)]
pub enum JudgeError {
    Check { check: u8, place: u32 },
    OutOfMemory,
}

impl fmt::Display for JudgeError {
    fn fmt<W: fmt::Write>(&self, f: &mut fmt::Formatter<W>) -> fmt::Result {
        match self {
            JudgeError::Check { check, place } => {
                write!(f, "check {check} is broken at place {place}")
            }
            JudgeError::OutOfMemory => write!(f, "out of memory"),
        }
    }
}

impl Error for JudgeError {}

impl From<OutOfMemory> for JudgeError {
    ghost from_gives = { λ _ e. e ≡ refusals.OutOfMemory };

    fn from(_error: OutOfMemory) -> JudgeError {
        JudgeError::OutOfMemory
    }
}
