ghost use Rattle.std.specs.Prelude.{◌≡◌};
ghost use Rattle.faust_server.specs.declared.refusal.ServerError.TheVariants as refusals;

use faust_types::OutOfMemory;
use std::error::Error;
use std::fmt;

/// A message came out of its client's turn: it has the number `got` where `expected` is due. That is the last
/// submitted number plus one where the client is committed, and the last submitted number where it isn't.
#[derive(Clone, Copy, Debug, PartialEq, Eq)]
pub struct OutOfTurn {
    pub expected: u64,
    pub got: u64,
}

/// Why a SUBMIT was refused: it came out of turn, as `OutOfTurn` has it, or there was no memory left. The state
/// is as before.
#[derive(Clone, Copy, Debug, PartialEq, Eq)]
pub enum ServerError {
    OutOfTurn { expected: u64, got: u64 },
    OutOfMemory,
}

impl fmt::Display for OutOfTurn {
    fn fmt<W: fmt::Write>(&self, f: &mut fmt::Formatter<W>) -> fmt::Result {
        let expected = self.expected;
        let got = self.got;
        write!(f, "out of turn: expected {expected}, got {got}")
    }
}

impl Error for OutOfTurn {}

impl fmt::Display for ServerError {
    fn fmt<W: fmt::Write>(&self, f: &mut fmt::Formatter<W>) -> fmt::Result {
        match self {
            ServerError::OutOfTurn { expected, got } => {
                write!(f, "out of turn: expected {expected}, got {got}")
            }
            ServerError::OutOfMemory => write!(f, "out of memory"),
        }
    }
}

impl Error for ServerError {}

impl From<OutOfTurn> for ServerError {
    ghost from_gives = { λ refused e. e ≡ refusals.OutOfTurn refused.expected refused.got };

    fn from(refused: OutOfTurn) -> ServerError {
        ServerError::OutOfTurn {
            expected: refused.expected,
            got: refused.got,
        }
    }
}

impl From<OutOfMemory> for ServerError {
    ghost from_gives = { λ _ e. e ≡ refusals.OutOfMemory };

    fn from(_error: OutOfMemory) -> ServerError {
        ServerError::OutOfMemory
    }
}
