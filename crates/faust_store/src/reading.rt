ghost use Rattle.std.specs.Prelude.{◌≡◌, ◌+◌, ◌^◌, ◌<◌, length};
ghost use Rattle.faust_text.specs.Lines.{lines_of};
ghost use Rattle.faust_store.specs.InRange.{IsStage};
ghost use Rattle.faust_store.specs.Reading.{Reads, finished, lines_from, read, refused_at};
ghost use Rattle.faust_store.specs.Refusals.{IsAnswer};

use crate::error::StoreError;
use crate::stage::Stage;
use faust_record::RunRecord;
use faust_text::{Cause, LineError, line_at};
use std::alloc::Global;

/// The run whose record, of version 1 or 2, the bytes are, or the first line that is refused with its cause. It stops
/// there, and keeps no list of lines.
pub fn read_record(alloc: Global, input: &[u8]) -> Result<RunRecord, StoreError>
    ensures answer { IsAnswer input.now result }
    ensures exact { Reads result (read input.now) }
{
    run_of(alloc, input)
}

fn run_of(alloc: Global, input: &[u8]) -> Result<RunRecord, StoreError>
    ensures { Reads result (read input.now) }
{
    run_from(alloc, Stage::start(), 1, input)
}

/// What the lines of the input make, read from a stage on, the first of them with this number.
pub(crate) fn run_from(
    alloc: Global,
    start: Stage,
    first: u64,
    input: &[u8],
) -> Result<RunRecord, StoreError>
    requires stage { IsStage start }
    requires counted { first + length input.now < 2 ^ 63 + 2 }
    ensures { Reads result (lines_from start first (lines_of input.now)) }
{
    let mut stage = start;
    let mut from = 0;
    let mut number = first;
    while let Some(line) = line_at(input, from) {
        stage = match stage.next(alloc, input, line) {
            Ok(stage) => stage,
            Err(error) => return Err(refused(number, error)),
        };
        from = line.span.end + 1;
        number += 1;
    }
    finish(stage, number)
}

fn finish(stage: Stage, next_line: u64) -> Result<RunRecord, StoreError>
    ensures { Reads result (finished stage next_line) }
{
    match stage {
        Stage::Ended(run) => Ok(run),
        Stage::Head(_) | Stage::Entries(_, _) => Err(StoreError::BadRecord {
            line: next_line,
            cause: Cause::CutOff,
        }),
    }
}

pub(crate) fn refused(line: u64, error: LineError) -> StoreError
    ensures { result ≡ refused_at line error }
{
    match error {
        LineError::Refused(cause) => StoreError::BadRecord { line, cause },
        LineError::OutOfMemory => StoreError::OutOfMemory,
    }
}
