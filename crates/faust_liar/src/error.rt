ghost use Rattle.std.specs.Prelude.{◌≡◌};
ghost use Rattle.faust_liar.specs.declared.error.LiarError.TheVariants.{OutOfMemory as no_memory};

use faust_types::OutOfMemory;
use std::error::Error;
use std::fmt;

/// Why the liar refused, the first that holds. The state is as before.
#[derive(Clone, Copy, Debug, PartialEq, Eq)]
pub enum LiarError {
    /// The reply or message that was asked for isn't there.
    Nothing,
    /// A branch isn't there, or a new one hasn't the next number or would be the ninth.
    NoBranch,
    /// The edit can't be made, or may not be forged.
    Field,
    /// The allocator had no memory left.
    OutOfMemory,
}

impl fmt::Display for LiarError {
    fn fmt<W: fmt::Write>(&self, f: &mut fmt::Formatter<W>) -> fmt::Result {
        f.write_str(match self {
            LiarError::Nothing => "no such message or reply",
            LiarError::NoBranch => "no such branch",
            LiarError::Field => "the edit can't be made",
            LiarError::OutOfMemory => "out of memory",
        })
    }
}

impl Error for LiarError {}

impl From<OutOfMemory> for LiarError {
    ghost from_gives = { λ _ e. e ≡ no_memory };

    fn from(_error: OutOfMemory) -> LiarError {
        LiarError::OutOfMemory
    }
}
