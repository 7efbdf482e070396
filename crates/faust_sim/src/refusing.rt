//! Refusals of a record and of the liar, as those of a line.
ghost use Rattle.std.specs.Prelude.{◌≡◌};
ghost use Rattle.faust_sim.specs.Playing.{lie_refused, play_refused, push_refused};

use crate::error::PlayError;
use faust_liar::LiarError;
use faust_record::PushError;
use faust_text::{Cause, LineError};

/// Why an entry can't be made. A value that is too long and a register that isn't there are none of a script.
pub fn push_refused(error: PushError) -> LineError
    ensures { result ≡ push_refused error }
{
    match error {
        PushError::TooLong => LineError::Refused(Cause::Value),
        PushError::NoRegister => LineError::Refused(Cause::Number),
        PushError::Failed(_) => LineError::Refused(Cause::Failed),
        PushError::Busy => LineError::Refused(Cause::Busy),
        PushError::Nothing => LineError::Refused(Cause::Nothing),
        PushError::OutOfMemory => LineError::OutOfMemory,
    }
}

/// Why the liar can't do what it is told.
pub fn lie_refused(error: LiarError) -> LineError
    ensures { result ≡ lie_refused error }
{
    match error {
        LiarError::Nothing => LineError::Refused(Cause::Nothing),
        LiarError::NoBranch => LineError::Refused(Cause::Branch),
        LiarError::Field => LineError::Refused(Cause::Field),
        LiarError::OutOfMemory => LineError::OutOfMemory,
    }
}

/// Why the script can't be played: its event on this line can't.
pub fn play_refused(line: u64, error: LineError) -> PlayError
    ensures { result ≡ play_refused line error }
{
    match error {
        LineError::Refused(cause) => PlayError::Cannot { line, cause },
        LineError::OutOfMemory => PlayError::OutOfMemory,
    }
}
