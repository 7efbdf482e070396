ghost use Rattle.std.specs.Prelude.{◌≡◌};
ghost use Rattle.faust_wire.specs.declared.error.WireError.TheVariants.{OutOfMemory as no_memory};

use faust_types::OutOfMemory;
use std::error::Error;
use std::fmt;

/// Why bytes gave no message.
#[derive(Clone, Copy, Debug, PartialEq, Eq)]
pub enum WireError {
    /// The bytes spell nothing that was asked for.
    Malformed,
    /// The allocator had no memory left.
    OutOfMemory,
}

impl fmt::Display for WireError {
    fn fmt<W: fmt::Write>(&self, f: &mut fmt::Formatter<W>) -> fmt::Result {
        f.write_str(match self {
            WireError::Malformed => "malformed",
            WireError::OutOfMemory => "out of memory",
        })
    }
}

impl Error for WireError {}

impl From<OutOfMemory> for WireError {
    ghost from_gives = { λ _ e. e ≡ no_memory };

    fn from(_error: OutOfMemory) -> WireError {
        WireError::OutOfMemory
    }
}
