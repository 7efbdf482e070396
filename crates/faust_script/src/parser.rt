ghost use Rattle.std.specs.Prelude.{◌≡◌};
ghost use Rattle.faust_script.specs.Parsing.{Parses, finished, parsed, refused_at};
ghost use Rattle.faust_script.specs.Refusals.{IsAnswer};

use crate::error::ScriptError;
use crate::script::Script;
use crate::stage::Stage;
use faust_text::{Cause, LineError, line_at};
use std::alloc::Global;

/// The script that the bytes are, with all its values in range, or the first line that the grammar refuses with its
/// cause. It stops there, and takes time in proportion to the bytes.
pub fn parse(alloc: Global, input: &[u8]) -> Result<Script, ScriptError>
    ensures answer { IsAnswer input.now result }
    ensures exact { Parses result (parsed input.now) }
{
    script_of(alloc, input)
}

fn script_of(alloc: Global, input: &[u8]) -> Result<Script, ScriptError>
    ensures { Parses result (parsed input.now) }
{
    let mut stage = Stage::start();
    let mut from = 0;
    let mut number: u64 = 1;
    while let Some(line) = line_at(input, from) {
        stage = match stage.next(alloc, input, line) {
            Ok(stage) => stage,
            Err(error) => return Err(refused(number, error)),
        };
        from = line.span.end + 1;
        number += 1;
    }
    finish(stage, number)
}

fn finish(stage: Stage, next_line: u64) -> Result<Script, ScriptError>
    ensures { Parses result (finished stage next_line) }
{
    match stage {
        Stage::Ended(script) => Ok(script),
        Stage::Head(_) | Stage::Events(_) => Err(ScriptError::BadLine {
            line: next_line,
            cause: Cause::CutOff,
        }),
    }
}

fn refused(line: u64, error: LineError) -> ScriptError
    ensures { result ≡ refused_at line error }
{
    match error {
        LineError::Refused(cause) => ScriptError::BadLine { line, cause },
        LineError::OutOfMemory => ScriptError::OutOfMemory,
    }
}
