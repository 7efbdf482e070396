// What a live run comes to, from what was gathered of it.
ghost use Rattle.std.specs.Prelude.{◌≡◌, ◌^◌, ◌<◌, ◌++◌, codes, length, IfOk};
ghost use Rattle.faust_premises.specs.Premises.{premises_of};
ghost use Rattle.faust_record.specs.Runs.{IsRun};
ghost use Rattle.faust_receipts.specs.Lines.{first_differing_of};
ghost use Rattle.faust_outcome.specs.Deciding.{given, output_compared, output_judged};
ghost use Rattle.faust_outcome.specs.Gathering.{IsGathered};
ghost use Rattle.faust_outcome.specs.Outcomes.{AreRuns, IsPromisedOf, IsText, frame_text, journal_text, receipts_in, told_text};
ghost use Rattle.faust_outcome.specs.Words.{IsInRange};
ghost use Rattle.faust_outcome.specs.declared.status.LiveStatus.TheVariants.{LinkFault, Mismatch};

use crate::gathered::Gathered;
use crate::lines::{frame_line, journal_line};
use crate::numbers::short_text;
use crate::status::LiveStatus;
use crate::words::{Detail, LiveCommand};
use faust_audit::{Premises, premises};
use faust_receipts::{Receipts, differs, short};
use faust_record::{MergeError, RunRecord};
use faust_report::text;
use faust_types::{Bytes, OutOfMemory};
use faust_verdict::{collision_line, forged_line, found};
use std::alloc::Global;

/// A text, and the status that it is written at.
#[derive(Debug, Drop)]
pub struct Output {
    pub status: LiveStatus,
    pub text: Bytes,
}

/// What a live run comes to. A journal of another client goes before an arrival that wasn't sent next, this before a
/// receipt that differs, this before a user that is short, and this before a run that isn't clean; else the run is told
/// of. What was gathered is used up.
pub fn outcome(
    alloc: Global,
    command: &LiveCommand,
    gathered: Gathered,
) -> Result<Output, OutOfMemory>
    requires range { IsInRange command.now }
    requires gathered { IsGathered command.now gathered }
    ensures text { IfOk result (λ output. IsText command.now gathered output.status output.text) }
    ensures runs { IfOk result (λ _. AreRuns command.now gathered) }
    ensures promised { IfOk result (λ _. IsPromisedOf command.now gathered) }
{
    let config = command.config(alloc)?;
    let Gathered {
        journals,
        arrivals,
        receipts,
    } = gathered;
    match RunRecord::merge(alloc, config, journals, arrivals) {
        Ok(run) => of_run(alloc, command, &run, &receipts),
        Err(MergeError::Client { place, client }) => stranger(alloc, place, client),
        Err(
            MergeError::Frame {
                client,
                index,
                sent,
                got,
            },
        ) => frame(alloc, client, index, &sent, &got),
        Err(MergeError::OutOfMemory) => Err(OutOfMemory),
    }
}

/// Where the journal at a place is of another client.
fn stranger(alloc: Global, place: u8, client: u8) -> Result<Output, OutOfMemory>
    ensures { IfOk result (λ output. output ≡ given Mismatch (journal_text place client)) }
{
    Ok(Output {
        status: LiveStatus::Mismatch,
        text: journal_line(alloc, place, client)?,
    })
}

/// Where a message arrived that its client hadn't sent next.
fn frame(
    alloc: Global,
    client: u8,
    index: u64,
    sent: &Option<Bytes>,
    got: &Bytes,
) -> Result<Output, OutOfMemory>
    ensures { IfOk result (λ output. output ≡ given LinkFault (frame_text client index sent.now got.now)) }
{
    Ok(Output {
        status: LiveStatus::LinkFault,
        text: frame_line(alloc, client, index, sent, got)?,
    })
}

/// What the record comes to that was merged.
fn of_run(
    alloc: Global,
    command: &LiveCommand,
    run: &RunRecord,
    receipts: &Receipts,
) -> Result<Output, OutOfMemory>
    requires range { IsInRange command.now }
    requires as_many { length receipts.now ≡ run.now.config.clients }
    requires few_receipts { receipts_in receipts.now < 2 ^ 64 }
    requires few_entries { length run.now.entries < 2 ^ 27 }
    ensures output { IfOk result (λ output. output ≡
        output_compared command.now receipts.now run.now (first_differing_of run.now.entries 1 receipts.now)) }
    ensures is_run { IsRun run.now.config run.now.entries }
{
    // (a record tells with its config that it is a run)
    let _config = run.config();
    if let Some(line) = differs(alloc, run, receipts)? {
        return mismatch(line);
    }
    if let Some(line) = short(alloc, run, receipts, command.ops)? {
        return mismatch(line);
    }
    judged(alloc, command, run, receipts)
}

/// Where a receipt differs or a user is short: a line feed ends the line.
fn mismatch(line: Bytes) -> Result<Output, OutOfMemory>
    ensures { IfOk result (λ output. output ≡ given Mismatch (line ++ codes "\n")) }
{
    let mut text = line;
    text.push(b'\n')?;
    Ok(Output {
        status: LiveStatus::Mismatch,
        text,
    })
}

/// What a record comes to with which all receipts agree.
fn judged(
    alloc: Global,
    command: &LiveCommand,
    run: &RunRecord,
    receipts: &Receipts,
) -> Result<Output, OutOfMemory>
    requires range { IsInRange command.now }
    requires few_receipts { receipts_in receipts.now < 2 ^ 64 }
    requires few_entries { length run.now.entries < 2 ^ 27 }
    ensures { IfOk result (λ output. output ≡ output_judged command.now receipts.now run.now (premises_of run.now)) }
{
    let (status, text) = match premises(alloc, run)? {
        Premises::Clean => (LiveStatus::Done, told(alloc, command, run, receipts)?),
        Premises::Forged { entry, body } => {
            (
                LiveStatus::Premise,
                forged_line(alloc, entry, body.as_slice())?,
            )
        }
        Premises::Collision { first, second } => (
            LiveStatus::Premise,
            collision_line(alloc, first.as_slice(), second.as_slice())?,
        ),
    };
    Ok(Output { status, text })
}

/// What is told of a clean run.
fn told(
    alloc: Global,
    command: &LiveCommand,
    run: &RunRecord,
    receipts: &Receipts,
) -> Result<Bytes, OutOfMemory>
    requires range { IsInRange command.now }
    requires few_receipts { receipts_in receipts.now < 2 ^ 64 }
    requires few_entries { length run.now.entries < 2 ^ 27 }
    ensures { IfOk result (λ text. text ≡ told_text command.now receipts.now run.now) }
{
    let findings = found(alloc, run)?;
    match command.detail {
        Detail::Short => short_text(alloc, command, receipts, &findings),
        Detail::Full => text(alloc, &findings),
    }
}
