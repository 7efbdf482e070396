// What an input is answered with: what the command tells of its run, or the line that stands in place of it.
ghost use Rattle.std.specs.Prelude.{◌≡◌, ◌≤◌, IfOk, length};
ghost use Rattle.faust_top.specs.Accepting.{accepted};
ghost use Rattle.faust_top.specs.Commands.{IsInRange};
ghost use Rattle.faust_top.specs.Output.{Accepts, AreRuns, IsPrintable, output_of_accepted, output_of_judged, output_of_refusal};
ghost use Rattle.faust_top.specs.Texts.{text_of, verdict_for};
ghost use Rattle.faust_verdict.specs.Texts.{found_of};
ghost use Rattle.faust_audit.specs.Audited.{verdict_in};

use crate::accepting::{AcceptError, Accepted, accept};
use crate::lines::refusal_line;
use crate::words::Command;
use faust_audit::{Premises, premises};
use faust_record::{Findings, RunRecord};
use faust_report::{json, summary, text};
use faust_store::print_record;
use faust_text::Cause;
use faust_types::{Bytes, OutOfMemory, Status};
use faust_verdict::{collision_line, forged_line, found};
use std::alloc::Global;

/// A text, and the status that it is written at.
#[derive(Debug, Drop)]
pub struct Output {
    pub status: Status,
    pub text: Bytes,
}

/// What a command answers to an input that isn't too long. The input is let go once it is accepted, and the run once it is
/// judged.
pub fn answer(alloc: Global, command: Command, input: Bytes) -> Result<Output, OutOfMemory>
    requires { IsInRange command }
    ensures output { IfOk result (λ output. output ≡ output_of_accepted command (accepted command input)) }
    ensures are_runs { IfOk result (λ _. AreRuns command input) }
{
    match accept_whole(alloc, command, input) {
        Ok(taken) => accepted_output(alloc, command, taken),
        Err(AcceptError::Refused { line, cause }) => refused_output(alloc, line, cause),
        Err(AcceptError::OutOfMemory) => Err(OutOfMemory),
    }
}

fn accept_whole(alloc: Global, command: Command, input: Bytes) -> Result<Accepted, AcceptError>
    requires { IsInRange command }
    ensures accepts { Accepts result (accepted command input) }
    ensures printable { IfOk result IsPrintable }
{
    accept(alloc, command, input.as_slice())
}

/// The line that stands in place of what a command tells, where a line of its input is refused.
pub fn refused_output(alloc: Global, line: u64, cause: Cause) -> Result<Output, OutOfMemory>
    ensures { IfOk result (λ output. output ≡ output_of_refusal (record { line = line; cause = cause })) }
{
    let text = refusal_line(alloc, line, cause.text().as_bytes())?;
    Ok(Output {
        status: Status::Refused,
        text,
    })
}

/// What a command answers where it accepted a run.
pub fn accepted_output(
    alloc: Global,
    command: Command,
    taken: Accepted,
) -> Result<Output, OutOfMemory>
    requires { IsPrintable taken }
    ensures { IfOk result (λ output. output ≡ output_of_judged command taken (verdict_for command taken.run)) }
{
    let (status, text) = match verdict(alloc, command, &taken.run)? {
        Premises::Clean => (Status::Done, told(alloc, command, taken)?),
        Premises::Forged { entry, body } => {
            (Status::Premise, forged_line(alloc, entry, body.as_slice())?)
        }
        Premises::Collision { first, second } => (
            Status::Premise,
            collision_line(alloc, first.as_slice(), second.as_slice())?,
        ),
    };
    Ok(Output { status, text })
}

/// Whether the run is clean, as far as the command looks.
fn verdict(alloc: Global, command: Command, run: &RunRecord) -> Result<Premises, OutOfMemory>
    ensures { IfOk result (λ found. verdict_in found ≡ verdict_for command run.now) }
{
    match command {
        Command::Record | Command::Migrate => Ok(Premises::Clean),
        Command::Script | Command::Audit | Command::Json | Command::Sample { .. } => {
            premises(alloc, run)
        }
    }
}

/// What the command tells of the run.
fn told(alloc: Global, command: Command, taken: Accepted) -> Result<Bytes, OutOfMemory>
    requires { IsPrintable taken }
    ensures { IfOk result (λ text. text ≡ text_of command taken) }
{
    match command {
        Command::Script | Command::Audit => text(alloc, &found_of(alloc, taken.run)?),
        Command::Record => print_record(alloc, &taken.run, taken.format),
        Command::Json => json(alloc, &found_of(alloc, taken.run)?),
        Command::Migrate => print_record(alloc, &taken.run, 2),
        Command::Sample { seed, .. } => summary(alloc, &found_of(alloc, taken.run)?, seed),
    }
}

/// The findings of a run, which is let go.
fn found_of(alloc: Global, run: RunRecord) -> Result<Findings, OutOfMemory>
    requires { length run.entries ≤ 20000 }
    ensures { IfOk result (λ found. found ≡ found_of run) }
{
    found(alloc, &run)
}
