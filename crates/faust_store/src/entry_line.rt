// The line of an entry: its number, and what it says; and how a run takes it.
ghost use Rattle.std.specs.Prelude.{◌≡◌, option_copied};
ghost use Rattle.faust_types.specs.Clients.{IsClient};
ghost use Rattle.faust_text.specs.Fields.{Gives, fields_at};
ghost use Rattle.faust_text.specs.Tokens.{tokens_of};
ghost use Rattle.faust_record.specs.Refusals.{IsPushInput, push_of};
ghost use Rattle.faust_store.specs.Forms.{arrival_by, begun_by, bytes_form, end_number, entry_at, line_at, line_by};
ghost use Rattle.faust_store.specs.InRange.{IsLineFor};
ghost use Rattle.faust_store.specs.Kept.{last_arrival, push_refused};
ghost use Rattle.faust_store.specs.Reading.{arriving_as, is_due, is_number_of, pushed, taken};

use crate::sharing::kept_once;
use crate::word::EntryWord;
use faust_record::{Input, PushError, PushInput, RunRecord};
use faust_text::{Cause, Cursor, LineError, is_number, number};
use faust_types::{Bytes, Kind, MAX_TIMESTAMP};
use std::alloc::Global;

/// What the line of an entry says.
#[derive(Debug, Drop)]
pub enum EntryLine {
    /// This comes to the client, or its next message arrives.
    Comes { client: u8, input: PushInput },
    /// The next message of the client arrives, and is this one, as version 2 says it.
    Arrives { client: u8, message: Bytes },
}

/// The number of an entry's line, by its digits, and what the line says, for so many clients and under version 1 or 2
/// of the text. A refused line has the cause of its first token that may not stand there.
#[tactic(auto, unfolding(crate::specs::Forms::entry_at))]
pub fn read_entry<'a>(
    alloc: Global,
    line: &'a [u8],
    version: u8,
    clients: u8,
) -> Result<(&'a [u8], EntryLine), LineError>
    ensures { Gives (λ given. (given.0.now, given.1)) result (entry_at version clients (tokens_of line.now)) }
{
    let mut cursor = Cursor::new(line);
    let number = cursor.any_number()?;
    let said = line_behind(alloc, &mut cursor, version, clients)?;
    Ok((number, said))
}

#[tactic(auto, unfolding(crate::specs::Forms::line_at))]
fn line_behind(
    alloc: Global,
    cursor: &mut Cursor,
    version: u8,
    clients: u8,
) -> Result<EntryLine, LineError>
    ensures { Gives (λ line. line) result (line_at version clients cursor.old) }
{
    match cursor.token() {
        None => Err(LineError::Refused(Cause::Word)),
        Some(token) => match EntryWord::of(token) {
            None => Err(LineError::Refused(Cause::Word)),
            Some(word) => worded(alloc, cursor, version, clients, word),
        },
    }
}

#[tactic(auto, unfolding(crate::specs::Forms::line_by))]
fn worded(
    alloc: Global,
    cursor: &mut Cursor,
    version: u8,
    clients: u8,
    word: EntryWord,
) -> Result<EntryLine, LineError>
    ensures { Gives (λ line. line) result (line_by version clients word cursor.old) }
{
    match word {
        EntryWord::Begin => beginning(alloc, cursor, version, clients),
        EntryWord::Arrive => arrival(alloc, cursor, version, clients),
        EntryWord::Reply => {
            let (client, bytes) = client_and_bytes(alloc, cursor, clients)?;
            Ok(comes(client, PushInput::Reply(bytes)))
        }
        EntryWord::Peer => {
            let (client, bytes) = client_and_bytes(alloc, cursor, clients)?;
            Ok(comes(client, PushInput::Peer(bytes)))
        }
        EntryWord::Tick => tick(cursor, version, clients),
    }
}

fn comes(client: u8, input: PushInput) -> EntryLine
    ensures { result ≡ EntryLine.Comes client input }
{
    EntryLine::Comes { client, input }
}

fn client_and_bytes(
    alloc: Global,
    cursor: &mut Cursor,
    clients: u8,
) -> Result<(u8, Bytes), LineError>
    ensures { Gives (λ x. (x.0, (x.1, tt))) result (fields_at (bytes_form clients) cursor.old) }
{
    let client = cursor.client(clients)?;
    let bytes = cursor.bytes(alloc)?;
    cursor.end()?;
    Ok((client, bytes))
}

#[tactic(auto, unfolding(crate::specs::Forms::line_by))]
fn beginning(
    alloc: Global,
    cursor: &mut Cursor,
    version: u8,
    clients: u8,
) -> Result<EntryLine, LineError>
    ensures { Gives (λ line. line) result (line_by version clients EntryWord.Begin cursor.old) }
{
    let client = cursor.client(clients)?;
    let kind = cursor.kind()?;
    begun(alloc, cursor, clients, client, kind)
}

#[tactic(auto, unfolding(crate::specs::Forms::begun_by))]
fn begun(
    alloc: Global,
    cursor: &mut Cursor,
    clients: u8,
    client: u8,
    kind: Kind,
) -> Result<EntryLine, LineError>
    ensures { Gives (λ line. line) result (begun_by clients client kind cursor.old) }
{
    match kind {
        Kind::Write => {
            let value = cursor.value(alloc)?;
            cursor.end()?;
            Ok(comes(client, PushInput::Write(value)))
        }
        Kind::Read => {
            let register = cursor.client(clients)?;
            cursor.end()?;
            Ok(comes(client, PushInput::Read(register)))
        }
    }
}

fn arrival(
    alloc: Global,
    cursor: &mut Cursor,
    version: u8,
    clients: u8,
) -> Result<EntryLine, LineError>
    ensures { Gives (λ line. line) result (arrival_by version clients cursor.old) }
{
    if version == 1 {
        let client = cursor.client(clients)?;
        cursor.end()?;
        Ok(comes(client, PushInput::Arrive))
    } else {
        let (client, message) = client_and_bytes(alloc, cursor, clients)?;
        Ok(EntryLine::Arrives { client, message })
    }
}

#[tactic(auto, unfolding(crate::specs::Forms::line_by))]
fn tick(cursor: &mut Cursor, version: u8, clients: u8) -> Result<EntryLine, LineError>
    ensures { Gives (λ line. line) result (line_by version clients EntryWord.Tick cursor.old) }
{
    let client = cursor.client(clients)?;
    let moment = cursor.number(0, MAX_TIMESTAMP)?;
    cursor.end()?;
    Ok(comes(client, PushInput::Tick(moment)))
}

/// The number of an end line, by its digits: none where the line is no end line.
#[tactic(auto, unfolding(crate::specs::Forms::end_number))]
pub fn end_number<'a>(line: &'a [u8]) -> Option<&'a [u8]>
    ensures { option_copied result ≡ end_number (tokens_of line.now) }
{
    let mut cursor = Cursor::new(line);
    let name = cursor.token()?;
    let token = cursor.token()?;
    if cursor.token().is_some() {
        return None;
    }
    if name == b"end".as_slice() && is_number(token) {
        Some(token)
    } else {
        None
    }
}

/// Whether a token is this number, by its digits.
pub fn is_number_of(token: &[u8], count: u64) -> bool
    ensures { result ≡ is_number_of count token.now }
{
    match number(token) {
        Some(found) => found == count,
        None => false,
    }
}

/// The run with the entry that a line says, or why it isn't taken: it can't be played, or the message that arrives
/// isn't that of the line.
#[tactic(auto, unfolding(crate::specs::Reading::taken))]
pub fn taken(run: RunRecord, line: EntryLine) -> Result<RunRecord, LineError>
    requires { IsLineFor run.config.clients line }
    ensures { Gives (λ next. next) result (taken run line) }
{
    match line {
        EntryLine::Comes { client, input } => {
            let input = kept_once(&run, input);
            pushed(run, client, input)
        }
        EntryLine::Arrives { client, message } => arrived(run, client, message.as_slice()),
    }
}

fn pushed(run: RunRecord, client: u8, input: PushInput) -> Result<RunRecord, LineError>
    requires client { IsClient run.config.clients client }
    requires input { IsPushInput input }
    ensures { Gives (λ next. next) result (pushed (push_of run client input)) }
{
    let mut run = run;
    match run.push(client, input) {
        Ok(()) => Ok(run),
        Err(error) => Err(push_refused(error)),
    }
}

#[tactic(auto, using(crate::proofs::Taking::message_taken, crate::proofs::Taking::message_refused))]
fn arrived(run: RunRecord, client: u8, message: &[u8]) -> Result<RunRecord, LineError>
    requires { IsClient run.config.clients client }
    ensures { Gives (λ next. next) result (arriving_as run client message.now) }
{
    let run = pushed(run, client, PushInput::Arrive)?;
    if is_last_arrival(&run, message) {
        Ok(run)
    } else {
        Err(LineError::Refused(Cause::Frame))
    }
}

fn is_last_arrival(run: &RunRecord, message: &[u8]) -> bool
    ensures { result ≡ is_due message.now (last_arrival run.now.entries) }
{
    match last_arrival(run) {
        Some(due) => due.as_slice() == message,
        None => false,
    }
}

/// The message that arrived in the last entry.
fn last_arrival(run: &RunRecord) -> Option<&Bytes>
    ensures { option_copied result ≡ last_arrival run.now.entries }
{
    let last = run.len().checked_sub(1)?;
    match &run.entry(last)?.input {
        Input::Arrive(message) => Some(message),
        _ => None,
    }
}

fn push_refused(error: PushError) -> LineError
    ensures { result ≡ push_refused error }
{
    match error {
        PushError::TooLong => LineError::Refused(Cause::Value),
        PushError::NoRegister => LineError::Refused(Cause::Number),
        PushError::Failed(_) => LineError::Refused(Cause::Failed),
        PushError::Busy => LineError::Refused(Cause::Busy),
        PushError::Nothing => LineError::Refused(Cause::Nothing),
        PushError::OutOfMemory => LineError::OutOfMemory,
    }
}
