// From the source of an input to what a command answers to it. A script is read whole, and then accepted; a record is read
// as it comes.
ghost use Rattle.std.specs.Prelude.{◌≡◌, IfOk};
ghost use Rattle.faust_record.specs.Runs.{IsRun};
ghost use Rattle.faust_top.specs.Commands.{IsInRange, limit_of};
ghost use Rattle.faust_top.specs.Output.{AnswersInput, IsPrintable, ReadsInput, ReadsRecord};

use crate::accepting::Accepted;
use crate::output::{Output, accepted_output, answer, refused_output};
use crate::record_input::{RecordError, read_run};
use crate::words::{Command, MAX_RECORD_LEN};
use faust_io::{ReadError, Source, read_whole};
use faust_record::RunRecord;
use faust_types::{Bytes, OutOfMemory};
use std::alloc::Global;

/// What a command answers to the input that the source holds, or why it wasn't read to its end.
pub fn answer_to<S: Source>(
    alloc: Global,
    source: &mut S,
    command: Command,
) -> Result<Output, ReadError>
    requires { IsInRange command }
    ensures { AnswersInput command (S.left source.old) (S.left source.new) (S.faults source.old) (S.faults source.new) result }
{
    match command {
        Command::Audit | Command::Migrate => answer_to_record(alloc, source, command),
        Command::Script | Command::Record | Command::Json | Command::Sample { .. } => {
            answer_to_whole(alloc, source, command)
        }
    }
}

fn answer_to_whole<S: Source>(
    alloc: Global,
    source: &mut S,
    command: Command,
) -> Result<Output, ReadError>
    requires { IsInRange command }
    ensures { AnswersInput command (S.left source.old) (S.left source.new) (S.faults source.old) (S.faults source.new) result }
{
    let input = match read_input(alloc, source, command) {
        Ok(input) => input,
        Err(error) => return Err(error),
    };
    match answer(alloc, command, input) {
        Ok(output) => Ok(output),
        Err(OutOfMemory) => Err(ReadError::OutOfMemory),
    }
}

/// The input of a command: all bytes of the source where it reads any.
fn read_input<S: Source>(
    alloc: Global,
    source: &mut S,
    command: Command,
) -> Result<Bytes, ReadError>
    ensures { ReadsInput (limit_of command) (S.left source.old) (S.left source.new) (S.faults source.old) (S.faults source.new) result }
{
    match command.limit() {
        Some(limit) => read_whole(alloc, source, limit),
        None => Ok(Bytes::new(alloc)),
    }
}

fn answer_to_record<S: Source>(
    alloc: Global,
    source: &mut S,
    command: Command,
) -> Result<Output, ReadError>
    requires { ReadsRecord command }
    ensures { AnswersInput command (S.left source.old) (S.left source.new) (S.faults source.old) (S.faults source.new) result }
{
    let output = match read_run(alloc, source, MAX_RECORD_LEN) {
        Ok(run) => accepted_output(alloc, command, taken(run)),
        Err(RecordError::Refused { line, cause }) => refused_output(alloc, line, cause),
        Err(RecordError::Unread(error)) => return Err(error),
    };
    match output {
        Ok(output) => Ok(output),
        Err(OutOfMemory) => Err(ReadError::OutOfMemory),
    }
}

/// The run of a record, as what a command accepted. Its record is of format 2.
fn taken(run: RunRecord) -> Accepted
    ensures parts { result ≡ record { run = run; format = 2 } }
    ensures is_run { IsRun run.config run.entries }
{
    // (a record tells with its config that it is a run)
    let _config = run.config();
    Accepted { run, format: 2 }
}
