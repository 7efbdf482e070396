ghost use Rattle.std.specs.Prelude.{◌≡◌};
ghost use Rattle.faust_sim.specs.declared.error.PlayError.TheVariants.{OutOfMemory as NoMemory};

use faust_text::Cause;
use faust_types::OutOfMemory;
use std::error::Error;
use std::fmt;

/// Why a script can't be played.
#[derive(Clone, Copy, Debug, PartialEq, Eq)]
pub enum PlayError {
    /// The first event that can't be played stands on this line, counted from 1, and why.
    Cannot { line: u64, cause: Cause },
    /// The allocator had no memory left.
    OutOfMemory,
}

impl fmt::Display for PlayError {
    fn fmt<W: fmt::Write>(&self, f: &mut fmt::Formatter<W>) -> fmt::Result {
        match self {
            PlayError::Cannot { line, cause } => write!(f, "line {line}: {}", cause.text()),
            PlayError::OutOfMemory => write!(f, "out of memory"),
        }
    }
}

impl Error for PlayError {}

impl From<OutOfMemory> for PlayError {
    ghost from_gives = { λ _ e. e ≡ NoMemory };

    fn from(_error: OutOfMemory) -> PlayError {
        PlayError::OutOfMemory
    }
}
