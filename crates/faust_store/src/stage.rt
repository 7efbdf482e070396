ghost use Rattle.std.specs.Prelude.{◌≡◌, ◌≤◌, length, IfOk};
ghost use Rattle.faust_types.specs.Ranges.{IsConfig};
ghost use Rattle.faust_text.specs.Fields.{Gives};
ghost use Rattle.faust_text.specs.Lines.{line_in};
ghost use Rattle.faust_text.specs.Tokens.{tokens_of};
ghost use Rattle.faust_record.specs.Runs.{first_run};
ghost use Rattle.faust_store.specs.InRange.{IsLineFor, IsStage};
ghost use Rattle.faust_store.specs.Reading.{entry_taken, numbered, stage_at, start, text_at};

use crate::entry_line::{EntryLine, end_number, is_number_of, read_entry, taken};
use faust_record::RunRecord;
use faust_text::{Cause, Head, HeadForm, HeadStep, Line, LineError, Title, whole_line};
use faust_types::{Config, MAX_CLIENTS, OutOfMemory};
use std::alloc::Global;

/// The most entries of a record's text.
pub const MAX_RECORD_ENTRIES: u64 = 20_000;

/// Records are of version 1 or 2, for at most 32 clients.
const RECORD_HEAD: HeadForm = HeadForm {
    title: Title::Record,
    formats: 2,
    clients: MAX_CLIENTS,
};

/// How much of a record was read.
#[derive(Drop)]
pub enum Stage {
    /// A part of the head.
    Head(Head),
    /// The head, of this version, and the entries of the run: an entry or the last line is due.
    Entries(u8, RunRecord),
    /// The whole record: nothing may follow.
    Ended(RunRecord),
}

impl Stage {
    /// Nothing was read: the first line of the head is due.
    pub fn start() -> Stage
        ensures { result ≡ start }
    {
        Stage::Head(Head::Title)
    }

    /// Reads the next line of the input. It is refused where it is too long, and else where it is cut off, and else
    /// as its text is.
    #[tactic(auto, unfolding(crate::specs::Reading::stage_at))]
    pub fn next(self, alloc: Global, input: &[u8], line: Line) -> Result<Stage, LineError>
        requires stage { IsStage self }
        requires start { line.span.start ≤ line.span.end }
        requires end { line.span.end ≤ length input.now }
        ensures gives { Gives (λ stage. stage) result (stage_at self (line_in input.now line)) }
        ensures stage { IfOk result IsStage }
    {
        match whole_line(input, line) {
            Ok(text) => self.read(alloc, text),
            Err(cause) => Err(LineError::Refused(cause)),
        }
    }

    /// Reads the text of the next line. A refused line has the cause of the first of these: nothing may follow the last
    /// line, there are at most 20,000 entries, a token may not stand there, the number isn't the next one, the entry
    /// can't be played, the message that arrives isn't that of the line.
    #[tactic(auto, using(crate::proofs::Ranges::head_goes_on, crate::proofs::Ranges::config_kept), unfolding(crate::specs::Reading::text_at))]
    pub fn read(self, alloc: Global, text: &[u8]) -> Result<Stage, LineError>
        requires { IsStage self }
        ensures gives { Gives (λ stage. stage) result (text_at self text.now) }
        ensures stage { IfOk result IsStage }
    {
        match self {
            Stage::Head(head) => match head.read(alloc, RECORD_HEAD, text)? {
                HeadStep::Next(head) => Ok(Stage::Head(head)),
                HeadStep::Whole { format, config } => Ok(first_entry_due(alloc, format, config)?),
            },
            Stage::Entries(version, run) => item(alloc, version, run, text),
            Stage::Ended(_) => Err(LineError::Refused(Cause::AfterEnd)),
        }
    }
}

fn first_entry_due(alloc: Global, version: u8, config: Config) -> Result<Stage, OutOfMemory>
    requires { IsConfig config }
    ensures { IfOk result (λ stage. stage ≡ Stage.Entries version (first_run config)) }
{
    Ok(Stage::Entries(version, RunRecord::new(alloc, config)?))
}

#[tactic(auto, unfolding(crate::specs::Reading::text_at))]
fn item(alloc: Global, version: u8, run: RunRecord, text: &[u8]) -> Result<Stage, LineError>
    ensures { Gives (λ stage. stage) result (text_at (Stage.Entries version run) text.now) }
{
    match end_number(text) {
        None => next_entry(alloc, version, run, text),
        Some(number) if is_number_of(number, run.len()) => Ok(Stage::Ended(run)),
        Some(_) => Err(LineError::Refused(Cause::Order)),
    }
}

#[tactic(auto, using(crate::proofs::Ranges::entry_in_range))]
fn next_entry(alloc: Global, version: u8, run: RunRecord, text: &[u8]) -> Result<Stage, LineError>
    ensures { Gives (λ stage. stage) result (entry_taken version run (tokens_of text.now)) }
{
    if run.len() >= MAX_RECORD_ENTRIES {
        return Err(LineError::Refused(Cause::Events));
    }
    let (number, line) = read_entry(alloc, text, version, run.config().clients)?;
    numbered_entry(version, run, number, line)
}

fn numbered_entry(
    version: u8,
    run: RunRecord,
    number: &[u8],
    line: EntryLine,
) -> Result<Stage, LineError>
    requires { IsLineFor run.config.clients line }
    ensures { Gives (λ stage. stage) result (numbered version run number.now line) }
{
    if !is_number_of(number, run.len()) {
        return Err(LineError::Refused(Cause::Order));
    }
    let run = taken(run, line)?;
    Ok(Stage::Entries(version, run))
}
