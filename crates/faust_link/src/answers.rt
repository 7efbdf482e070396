ghost use Rattle.std.specs.Prelude.{◌≡◌};
ghost use Rattle.faust_link.specs.declared.answers.LinkError.TheVariants as errors;

use faust_io::Failed;
use faust_types::OutOfMemory;
use std::error::Error;
use std::fmt;

/// What a link or a post gave.
#[derive(Clone, Copy, Debug, PartialEq, Eq)]
pub enum Got {
    /// A frame or a datagram stands in the buffer.
    Frame,
    /// The stream ended, between two frames. A post never answers so.
    Ended,
    /// No datagram stood there. A stream never answers so.
    Idle,
}

/// Why a link, a post or a net did nothing.
#[derive(Clone, Copy, Debug, PartialEq, Eq)]
pub enum LinkError {
    /// The outside failed; the count of faults rose.
    Failed,
    /// The allocator had no memory left. Nothing was sent or taken, and no count rose.
    OutOfMemory,
}

impl fmt::Display for LinkError {
    fn fmt<W: fmt::Write>(&self, f: &mut fmt::Formatter<W>) -> fmt::Result {
        f.write_str(match self {
            LinkError::Failed => "a link failed",
            LinkError::OutOfMemory => "out of memory",
        })
    }
}

impl Error for LinkError {}

impl From<Failed> for LinkError {
    ghost from_gives = { λ _ error. error ≡ errors.Failed };

    fn from(_failed: Failed) -> LinkError {
        LinkError::Failed
    }
}

impl From<OutOfMemory> for LinkError {
    ghost from_gives = { λ _ error. error ≡ errors.OutOfMemory };

    fn from(_error: OutOfMemory) -> LinkError {
        LinkError::OutOfMemory
    }
}
