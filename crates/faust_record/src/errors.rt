ghost use Rattle.std.specs.Prelude.{◌≡◌};
ghost use Rattle.faust_record.specs.declared.errors.Refusal.TheVariants as refusals;
ghost use Rattle.faust_record.specs.declared.errors.StepError.TheVariants as steps;
ghost use Rattle.faust_record.specs.declared.errors.PushError.TheVariants as pushes;
ghost use Rattle.faust_record.specs.declared.errors.MergeError.TheVariants as merges;

use faust_types::{Bytes, Notice, OutOfMemory};
use std::error::Error;
use std::fmt;

/// Why a journal takes no further entry: the first of these that holds. It has 200,000 entries; a written value has
/// more than 4,096 bytes; a register isn't that of one of the clients; a write or a read comes to a client that has
/// this notice, or that has an operation pending or 2^40 - 1 of them complete; there was no memory left.
#[derive(Clone, Copy, Debug, PartialEq, Eq)]
pub enum StepError {
    Full,
    TooLong,
    NoRegister,
    Failed(Notice),
    Busy,
    OutOfMemory,
}

/// Why a record takes no further entry: as `StepError` has it, or no sent message of the client is left to arrive.
#[derive(Clone, Copy, Debug, PartialEq, Eq)]
pub enum PushError {
    TooLong,
    NoRegister,
    Failed(Notice),
    Busy,
    Nothing,
    OutOfMemory,
}

/// Why journals and arrivals are no run. `Client`: the journal at this place, counted from 1, is the first that is of
/// another client, this one. `Frame`: each journal is of its place's client, and the `index`-th arrival of this client,
/// counted from 1, is the first that isn't of the next message that the client sent in an earlier entry, if any.
#[derive(Debug, Drop)]
pub enum MergeError {
    Client {
        place: u8,
        client: u8,
    },
    Frame {
        client: u8,
        index: u64,
        sent: Option<Bytes>,
        got: Bytes,
    },
    OutOfMemory,
}

/// Why a client takes no further input.
#[derive(Clone, Copy, Debug, PartialEq, Eq)]
pub enum Refusal {
    TooLong,
    NoRegister,
    Failed(Notice),
    Busy,
    OutOfMemory,
}

impl fmt::Display for StepError {
    fn fmt<W: fmt::Write>(&self, f: &mut fmt::Formatter<W>) -> fmt::Result {
        match self {
            StepError::Full => write!(f, "the journal is full"),
            StepError::TooLong => write!(f, "the value is too long"),
            StepError::NoRegister => write!(f, "there is no such register"),
            StepError::Failed(_) => write!(f, "the client holds a notice"),
            StepError::Busy => write!(f, "the client is busy"),
            StepError::OutOfMemory => write!(f, "out of memory"),
        }
    }
}

impl Error for StepError {}

impl fmt::Display for PushError {
    fn fmt<W: fmt::Write>(&self, f: &mut fmt::Formatter<W>) -> fmt::Result {
        match self {
            PushError::TooLong => write!(f, "the value is too long"),
            PushError::NoRegister => write!(f, "there is no such register"),
            PushError::Failed(_) => write!(f, "the client holds a notice"),
            PushError::Busy => write!(f, "the client is busy"),
            PushError::Nothing => write!(f, "no sent message is left"),
            PushError::OutOfMemory => write!(f, "out of memory"),
        }
    }
}

impl Error for PushError {}

impl fmt::Display for MergeError {
    fn fmt<W: fmt::Write>(&self, f: &mut fmt::Formatter<W>) -> fmt::Result {
        match self {
            MergeError::Client { place, client } => {
                write!(f, "the journal at place {place} is of client {client}")
            }
            MergeError::Frame { client, index, .. } => {
                write!(
                    f,
                    "arrival {index} of client {client} isn't its next message"
                )
            }
            MergeError::OutOfMemory => write!(f, "out of memory"),
        }
    }
}

impl Error for MergeError {}

impl From<OutOfMemory> for Refusal {
    ghost from_gives = { λ _ e. e ≡ refusals.OutOfMemory };

    fn from(_error: OutOfMemory) -> Refusal {
        Refusal::OutOfMemory
    }
}

impl From<OutOfMemory> for PushError {
    ghost from_gives = { λ _ e. e ≡ pushes.OutOfMemory };

    fn from(_error: OutOfMemory) -> PushError {
        PushError::OutOfMemory
    }
}

impl From<OutOfMemory> for MergeError {
    ghost from_gives = { λ _ e. e ≡ merges.OutOfMemory };

    fn from(_error: OutOfMemory) -> MergeError {
        MergeError::OutOfMemory
    }
}

impl From<Refusal> for StepError {
    ghost use Rattle.faust_record.specs.Refusals.{as_step_error};

    ghost from_gives = { λ refusal e. e ≡ as_step_error refusal };

    fn from(refusal: Refusal) -> StepError {
        match refusal {
            Refusal::TooLong => StepError::TooLong,
            Refusal::NoRegister => StepError::NoRegister,
            Refusal::Failed(notice) => StepError::Failed(notice),
            Refusal::Busy => StepError::Busy,
            Refusal::OutOfMemory => StepError::OutOfMemory,
        }
    }
}

impl From<Refusal> for PushError {
    ghost use Rattle.faust_record.specs.Refusals.{as_push_error};

    ghost from_gives = { λ refusal e. e ≡ as_push_error refusal };

    fn from(refusal: Refusal) -> PushError {
        match refusal {
            Refusal::TooLong => PushError::TooLong,
            Refusal::NoRegister => PushError::NoRegister,
            Refusal::Failed(notice) => PushError::Failed(notice),
            Refusal::Busy => PushError::Busy,
            Refusal::OutOfMemory => PushError::OutOfMemory,
        }
    }
}
