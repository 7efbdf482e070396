// From the input of a command to the run that it speaks of.
ghost use Rattle.std.specs.Prelude.{◌≡◌, IfOk};
ghost use Rattle.faust_record.specs.Runs.{IsRun};
ghost use Rattle.faust_script.specs.InRange.{IsScript};
ghost use Rattle.faust_script.specs.Parsing.{parsed};
ghost use Rattle.faust_script.specs.Generated.{IsSampleSize, generated};
ghost use Rattle.faust_store.specs.Reading.{read};
ghost use Rattle.faust_top.specs.Commands.{IsInRange};
ghost use Rattle.faust_top.specs.Accepting.{accepted, accepted_record, accepted_script, script_played};
ghost use Rattle.faust_top.specs.Output.{Accepts, IsPrintable};

use crate::words::Command;
use faust_record::RunRecord;
use faust_script::{Script, ScriptError, generate, parse};
use faust_sim::{PlayError, play};
use faust_store::{StoreError, read_record};
use faust_text::Cause;
use faust_types::OutOfMemory;
use std::alloc::Global;

/// The run that a command speaks of, and the format of its record: that of the script, and of a record that is read 2.
#[derive(Drop)]
pub struct Accepted {
    pub run: RunRecord,
    pub format: u8,
}

/// Why no run was accepted.
#[derive(Debug, Drop)]
pub enum AcceptError {
    /// A line of the input is refused.
    Refused { line: u64, cause: Cause },
    /// There was no memory.
    OutOfMemory,
}

impl Accepted {
    fn new(run: RunRecord, format: u8) -> Accepted
        ensures parts { result ≡ record { run = run; format = format } }
        ensures is_run { IsRun run.config run.entries }
    {
        // (a record tells with its config that it is a run)
        let _config = run.config();
        Accepted { run, format }
    }
}

/// The run of an input that isn't too long, or its line that is refused.
pub fn accept(alloc: Global, command: Command, input: &[u8]) -> Result<Accepted, AcceptError>
    requires { IsInRange command }
    ensures accepts { Accepts result (accepted command input.now) }
    ensures printable { IfOk result IsPrintable }
{
    match command {
        Command::Script | Command::Record | Command::Json => accept_script(alloc, input),
        Command::Audit | Command::Migrate => accept_record(alloc, input),
        Command::Sample { seed, clients, ops } => accept_generated(alloc, seed, clients, ops),
    }
}

fn accept_script(alloc: Global, input: &[u8]) -> Result<Accepted, AcceptError>
    ensures accepts { Accepts result (accepted_script (parsed input.now)) }
    ensures printable { IfOk result IsPrintable }
{
    match parse(alloc, input) {
        Ok(script) => accept_played(alloc, &script),
        Err(ScriptError::BadLine { line, cause }) => Err(AcceptError::Refused { line, cause }),
        Err(ScriptError::OutOfMemory) => Err(AcceptError::OutOfMemory),
    }
}

fn accept_played(alloc: Global, script: &Script) -> Result<Accepted, AcceptError>
    requires { IsScript script.now }
    ensures accepts { Accepts result (script_played script.now) }
    ensures printable { IfOk result IsPrintable }
{
    match play(alloc, script) {
        Ok(run) => Ok(Accepted::new(run, script.format)),
        Err(PlayError::Cannot { line, cause }) => Err(AcceptError::Refused { line, cause }),
        Err(PlayError::OutOfMemory) => Err(AcceptError::OutOfMemory),
    }
}

fn accept_record(alloc: Global, input: &[u8]) -> Result<Accepted, AcceptError>
    ensures accepts { Accepts result (accepted_record (read input.now)) }
    ensures printable { IfOk result IsPrintable }
{
    match read_record(alloc, input) {
        Ok(run) => Ok(Accepted::new(run, 2)),
        Err(StoreError::BadRecord { line, cause }) => Err(AcceptError::Refused { line, cause }),
        Err(StoreError::OutOfMemory) => Err(AcceptError::OutOfMemory),
    }
}

/// The run of a generated script. None is refused: each can be played.
fn accept_generated(
    alloc: Global,
    seed: u64,
    clients: u8,
    ops: u64,
) -> Result<Accepted, AcceptError>
    requires { IsSampleSize clients ops }
    ensures accepts { Accepts result (script_played (generated seed clients ops)) }
    ensures printable { IfOk result IsPrintable }
{
    match generate(alloc, seed, clients, ops) {
        Ok(script) => accept_played(alloc, &script),
        Err(OutOfMemory) => Err(AcceptError::OutOfMemory),
    }
}
