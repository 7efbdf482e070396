ghost use Rattle.std.specs.Prelude.{◌≡◌};
ghost use Rattle.faust_text.specs.declared.error.ValueError.TheVariants.{OutOfMemory as NoMemory};
ghost use Rattle.faust_text.specs.declared.error.LineError.TheVariants.{OutOfMemory as LineMemory};

use crate::cause::Cause;
use faust_types::OutOfMemory;
use std::error::Error;
use std::fmt;

/// Why a token gives no value.
#[derive(Clone, Copy, Debug, PartialEq, Eq)]
pub enum ValueError {
    /// The token breaks the spelling or the limit.
    Bad,
    /// The allocator had no memory left.
    OutOfMemory,
}

impl fmt::Display for ValueError {
    fn fmt<W: fmt::Write>(&self, f: &mut fmt::Formatter<W>) -> fmt::Result {
        match self {
            ValueError::Bad => f.write_str("no value"),
            ValueError::OutOfMemory => f.write_str("out of memory"),
        }
    }
}

impl Error for ValueError {}

impl From<OutOfMemory> for ValueError {
    ghost from_gives = { λ _ e. e ≡ NoMemory };

    fn from(_error: OutOfMemory) -> ValueError {
        ValueError::OutOfMemory
    }
}

/// Why a line can't be read.
#[derive(Clone, Copy, Debug, PartialEq, Eq)]
pub enum LineError {
    /// The line is refused.
    Refused(Cause),
    /// The allocator had no memory left.
    OutOfMemory,
}

impl fmt::Display for LineError {
    fn fmt<W: fmt::Write>(&self, f: &mut fmt::Formatter<W>) -> fmt::Result {
        match self {
            LineError::Refused(cause) => f.write_str(cause.text()),
            LineError::OutOfMemory => f.write_str("out of memory"),
        }
    }
}

impl Error for LineError {}

impl From<OutOfMemory> for LineError {
    ghost from_gives = { λ _ e. e ≡ LineMemory };

    fn from(_error: OutOfMemory) -> LineError {
        LineError::OutOfMemory
    }
}
