ghost use Rattle.std.specs.Prelude.{◌≡◌};
ghost use Rattle.faust_io.specs.declared.failed.ReadError.TheVariants as errors;

use faust_types::OutOfMemory;
use std::error::Error;
use std::fmt;

/// A read or a write that the outside refused: it gave and took nothing, and the count of faults rose.
#[derive(Clone, Copy, Debug, PartialEq, Eq)]
pub struct Failed;

impl fmt::Display for Failed {
    fn fmt<W: fmt::Write>(&self, f: &mut fmt::Formatter<W>) -> fmt::Result {
        f.write_str("a read or a write failed")
    }
}

impl Error for Failed {}

/// Why a source wasn't read to its end.
#[derive(Clone, Copy, Debug, PartialEq, Eq)]
pub enum ReadError {
    /// More bytes than the limit stand in the source.
    TooLong,
    /// A read failed; the source's count of faults rose.
    Failed,
    /// The allocator had no memory left for the bytes.
    OutOfMemory,
}

impl fmt::Display for ReadError {
    fn fmt<W: fmt::Write>(&self, f: &mut fmt::Formatter<W>) -> fmt::Result {
        f.write_str(match self {
            ReadError::TooLong => "the input is over its limit",
            ReadError::Failed => "a read failed",
            ReadError::OutOfMemory => "out of memory",
        })
    }
}

impl Error for ReadError {}

/// Why jobs weren't run to their end.
#[derive(Clone, Copy, Debug, PartialEq, Eq)]
pub enum StartError {
    /// A start was refused; the spawner's count of faults rose.
    Failed,
    /// The allocator had no memory left. No job was started.
    OutOfMemory,
}

impl fmt::Display for StartError {
    fn fmt<W: fmt::Write>(&self, f: &mut fmt::Formatter<W>) -> fmt::Result {
        f.write_str(match self {
            StartError::Failed => "a start was refused",
            StartError::OutOfMemory => "out of memory",
        })
    }
}

impl Error for StartError {}

impl From<Failed> for ReadError {
    ghost from_gives = { λ _ error. error ≡ errors.Failed };

    fn from(_failed: Failed) -> ReadError {
        ReadError::Failed
    }
}

impl From<OutOfMemory> for ReadError {
    ghost from_gives = { λ _ error. error ≡ errors.OutOfMemory };

    fn from(_error: OutOfMemory) -> ReadError {
        ReadError::OutOfMemory
    }
}
