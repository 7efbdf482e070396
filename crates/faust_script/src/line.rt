// The lines of events: one function a shape of line, over the tokens behind the word.
ghost use Rattle.std.specs.Prelude.{[], ◌∷◌};
ghost use Rattle.faust_text.specs.Fields.{Gives, bytes, fields_at, number, value};
ghost use Rattle.faust_text.specs.Tokens.{tokens_of};
ghost use Rattle.faust_script.specs.Forms.{branch, client, client_and_edit_at, edit_at, edit_by, event_at, event_by, place, timestamp};

use crate::edit::Edit;
use crate::event::Event;
use crate::word::{EditWord, EventWord};
use faust_text::{Cause, Cursor, LineError};
use faust_types::{Bytes, MAX_TIMESTAMP};
use std::alloc::Global;

/// The greatest place of a message, a reply or a tuple.
const MAX_PLACE: u64 = 20_000;

/// The greatest branch.
const MAX_BRANCH: u64 = 7;

/// The event that a line is, in a script for so many clients. A refused line has the cause of its first token that
/// may not stand there.
#[tactic(auto, unfolding(crate::specs::Forms::event_at))]
pub fn read_event(alloc: Global, line: &[u8], clients: u8) -> Result<Event, LineError>
    ensures { Gives (λ event. event) result (event_at clients (tokens_of line.now)) }
{
    let mut cursor = Cursor::new(line);
    match cursor.token() {
        None => Err(LineError::Refused(Cause::Word)),
        Some(token) => match EventWord::of(token) {
            None => Err(LineError::Refused(Cause::Word)),
            Some(word) => event_by(alloc, &mut cursor, clients, word),
        },
    }
}

#[tactic(auto, unfolding(crate::specs::Forms::event_by))]
fn event_by(
    alloc: Global,
    cursor: &mut Cursor,
    clients: u8,
    word: EventWord,
) -> Result<Event, LineError>
    ensures { Gives (λ event. event) result (event_by clients word cursor.old) }
{
    match word {
        EventWord::Write => write(alloc, cursor, clients),
        EventWord::Read => read(cursor, clients),
        EventWord::Arrive => {
            let client = one_client(cursor, clients)?;
            Ok(Event::Arrive { client })
        }
        EventWord::Reply => {
            let client = one_client(cursor, clients)?;
            Ok(Event::Reply { client })
        }
        EventWord::Tick => tick(cursor, clients),
        EventWord::Peer => peer(cursor, clients),
        EventWord::Post => post(alloc, cursor, clients),
        EventWord::Branch => {
            let (from, to) = two_branches(cursor)?;
            Ok(Event::Branch { from, to })
        }
        EventWord::Route => route(cursor, clients),
        EventWord::Echo => echo(cursor, clients),
        EventWord::Again => again(cursor, clients),
        EventWord::Edit => edited(alloc, cursor, clients),
        EventWord::Forge => forged(alloc, cursor, clients),
        EventWord::Raw => raw(alloc, cursor, clients),
    }
}

fn one_client(cursor: &mut Cursor, clients: u8) -> Result<u8, LineError>
    ensures { Gives (λ i. (i, tt)) result (fields_at (client clients ∷ []) cursor.old) }
{
    let client = cursor.client(clients)?;
    cursor.end()?;
    Ok(client)
}

fn client_and_number(
    cursor: &mut Cursor,
    clients: u8,
    low: u64,
    high: u64,
) -> Result<(u8, u64), LineError>
    ensures { Gives (λ x. (x.0, (x.1, tt))) result (fields_at (client clients ∷ number low high ∷ []) cursor.old) }
{
    let client = cursor.client(clients)?;
    let number = cursor.number(low, high)?;
    cursor.end()?;
    Ok((client, number))
}

fn client_and_bytes(
    alloc: Global,
    cursor: &mut Cursor,
    clients: u8,
) -> Result<(u8, Bytes), LineError>
    ensures { Gives (λ x. (x.0, (x.1, tt))) result (fields_at (client clients ∷ bytes ∷ []) cursor.old) }
{
    let client = cursor.client(clients)?;
    let bytes = cursor.bytes(alloc)?;
    cursor.end()?;
    Ok((client, bytes))
}

#[tactic(auto, unfolding(crate::specs::Forms::event_by))]
fn write(alloc: Global, cursor: &mut Cursor, clients: u8) -> Result<Event, LineError>
    ensures { Gives (λ event. event) result (event_by clients EventWord.Write cursor.old) }
{
    let client = cursor.client(clients)?;
    let value = cursor.value(alloc)?;
    cursor.end()?;
    Ok(Event::Write { client, value })
}

#[tactic(auto, unfolding(crate::specs::Forms::event_by))]
fn read(cursor: &mut Cursor, clients: u8) -> Result<Event, LineError>
    ensures { Gives (λ event. event) result (event_by clients EventWord.Read cursor.old) }
{
    let client = cursor.client(clients)?;
    let register = cursor.client(clients)?;
    cursor.end()?;
    Ok(Event::Read { client, register })
}

#[tactic(auto, unfolding(crate::specs::Forms::event_by))]
fn tick(cursor: &mut Cursor, clients: u8) -> Result<Event, LineError>
    ensures { Gives (λ event. event) result (event_by clients EventWord.Tick cursor.old) }
{
    let (client, moment) = client_and_number(cursor, clients, 0, MAX_TIMESTAMP)?;
    Ok(Event::Tick { client, moment })
}

#[tactic(auto, unfolding(crate::specs::Forms::event_by))]
fn peer(cursor: &mut Cursor, clients: u8) -> Result<Event, LineError>
    ensures { Gives (λ event. event) result (event_by clients EventWord.Peer cursor.old) }
{
    let sender = cursor.client(clients)?;
    let receiver = cursor.client(clients)?;
    let k = cursor.number(1, MAX_PLACE)?;
    cursor.end()?;
    Ok(Event::Peer {
        sender,
        receiver,
        k: k as usize,
    })
}

#[tactic(auto, unfolding(crate::specs::Forms::event_by))]
fn post(alloc: Global, cursor: &mut Cursor, clients: u8) -> Result<Event, LineError>
    ensures { Gives (λ event. event) result (event_by clients EventWord.Post cursor.old) }
{
    let (receiver, bytes) = client_and_bytes(alloc, cursor, clients)?;
    Ok(Event::Post { receiver, bytes })
}

fn two_branches(cursor: &mut Cursor) -> Result<(usize, usize), LineError>
    ensures { Gives (λ x. (x.0, (x.1, tt))) result (fields_at (branch ∷ branch ∷ []) cursor.old) }
{
    let first = cursor.number(0, MAX_BRANCH)?;
    let second = cursor.number(0, MAX_BRANCH)?;
    cursor.end()?;
    Ok((first as usize, second as usize))
}

#[tactic(auto, unfolding(crate::specs::Forms::event_by))]
fn route(cursor: &mut Cursor, clients: u8) -> Result<Event, LineError>
    ensures { Gives (λ event. event) result (event_by clients EventWord.Route cursor.old) }
{
    let (client, to) = client_and_number(cursor, clients, 0, MAX_BRANCH)?;
    Ok(Event::Route {
        client,
        to: to as usize,
    })
}

#[tactic(auto, unfolding(crate::specs::Forms::event_by))]
fn echo(cursor: &mut Cursor, clients: u8) -> Result<Event, LineError>
    ensures { Gives (λ event. event) result (event_by clients EventWord.Echo cursor.old) }
{
    let client = cursor.client(clients)?;
    let k = cursor.number(1, MAX_PLACE)?;
    let to = cursor.number(0, MAX_BRANCH)?;
    cursor.end()?;
    Ok(Event::Echo {
        client,
        k: k as usize,
        to: to as usize,
    })
}

#[tactic(auto, unfolding(crate::specs::Forms::event_by))]
fn again(cursor: &mut Cursor, clients: u8) -> Result<Event, LineError>
    ensures { Gives (λ event. event) result (event_by clients EventWord.Again cursor.old) }
{
    let (client, k) = client_and_number(cursor, clients, 1, MAX_PLACE)?;
    Ok(Event::Again {
        client,
        k: k as usize,
    })
}

#[tactic(auto, unfolding(crate::specs::Forms::event_by))]
fn raw(alloc: Global, cursor: &mut Cursor, clients: u8) -> Result<Event, LineError>
    ensures { Gives (λ event. event) result (event_by clients EventWord.Raw cursor.old) }
{
    let (client, bytes) = client_and_bytes(alloc, cursor, clients)?;
    Ok(Event::Raw { client, bytes })
}

#[tactic(auto, unfolding(crate::specs::Forms::event_by))]
fn edited(alloc: Global, cursor: &mut Cursor, clients: u8) -> Result<Event, LineError>
    ensures { Gives (λ event. event) result (event_by clients EventWord.Edit cursor.old) }
{
    let (client, edit) = client_and_edit(alloc, cursor, clients)?;
    Ok(Event::Edited { client, edit })
}

#[tactic(auto, unfolding(crate::specs::Forms::event_by))]
fn forged(alloc: Global, cursor: &mut Cursor, clients: u8) -> Result<Event, LineError>
    ensures { Gives (λ event. event) result (event_by clients EventWord.Forge cursor.old) }
{
    let (client, edit) = client_and_edit(alloc, cursor, clients)?;
    Ok(Event::Forged { client, edit })
}

fn client_and_edit(alloc: Global, cursor: &mut Cursor, clients: u8) -> Result<(u8, Edit), LineError>
    ensures { Gives (λ x. x) result (client_and_edit_at clients cursor.old) }
{
    let client = cursor.client(clients)?;
    let edit = read_edit(alloc, cursor, clients)?;
    Ok((client, edit))
}

#[tactic(auto, unfolding(crate::specs::Forms::edit_at))]
fn read_edit(alloc: Global, cursor: &mut Cursor, clients: u8) -> Result<Edit, LineError>
    ensures { Gives (λ edit. edit) result (edit_at clients cursor.old) }
{
    match cursor.token() {
        None => Err(LineError::Refused(Cause::Word)),
        Some(token) => match EditWord::of(token) {
            None => Err(LineError::Refused(Cause::Word)),
            Some(word) => edit_by(alloc, cursor, clients, word),
        },
    }
}

#[tactic(auto, unfolding(crate::specs::Forms::edit_by))]
fn edit_by(
    alloc: Global,
    cursor: &mut Cursor,
    clients: u8,
    word: EditWord,
) -> Result<Edit, LineError>
    ensures { Gives (λ edit. edit) result (edit_by clients word cursor.old) }
{
    match word {
        EditWord::C => Ok(Edit::C(one_client(cursor, clients)?)),
        EditWord::V => v(cursor, clients),
        EditWord::M => Ok(Edit::M(one_client(cursor, clients)?)),
        EditWord::Ctag => {
            cursor.end()?;
            Ok(Edit::Ctag)
        }
        EditWord::Add => add(cursor, clients),
        EditWord::DropTuple => Ok(Edit::DropTuple(one_place(cursor)?)),
        EditWord::Swap => Ok(Edit::Swap(one_place(cursor)?)),
        EditWord::Ltag => Ok(Edit::Ltag(one_place(cursor)?)),
        EditWord::Proof => Ok(Edit::Proof(one_client(cursor, clients)?)),
        EditWord::Noproof => Ok(Edit::Noproof(one_client(cursor, clients)?)),
        EditWord::Jv => jv(cursor, clients),
        EditWord::Jtag => {
            cursor.end()?;
            Ok(Edit::Jtag)
        }
        EditWord::T => Ok(Edit::T(one_timestamp(cursor)?)),
        EditWord::Value => Ok(Edit::Value(one_value(alloc, cursor)?)),
        EditWord::Dtag => {
            cursor.end()?;
            Ok(Edit::Dtag)
        }
        EditWord::Unread => {
            cursor.end()?;
            Ok(Edit::Unread)
        }
    }
}

#[tactic(auto, unfolding(crate::specs::Forms::edit_by))]
fn v(cursor: &mut Cursor, clients: u8) -> Result<Edit, LineError>
    ensures { Gives (λ edit. edit) result (edit_by clients EditWord.V cursor.old) }
{
    let (client, t) = client_and_number(cursor, clients, 1, MAX_TIMESTAMP)?;
    Ok(Edit::V(client, t))
}

#[tactic(auto, unfolding(crate::specs::Forms::edit_by))]
fn jv(cursor: &mut Cursor, clients: u8) -> Result<Edit, LineError>
    ensures { Gives (λ edit. edit) result (edit_by clients EditWord.Jv cursor.old) }
{
    let (client, t) = client_and_number(cursor, clients, 1, MAX_TIMESTAMP)?;
    Ok(Edit::Jv(client, t))
}

fn one_place(cursor: &mut Cursor) -> Result<usize, LineError>
    ensures { Gives (λ q. (q, tt)) result (fields_at (place ∷ []) cursor.old) }
{
    let place = cursor.number(1, MAX_PLACE)?;
    cursor.end()?;
    Ok(place as usize)
}

fn one_timestamp(cursor: &mut Cursor) -> Result<u64, LineError>
    ensures { Gives (λ t. (t, tt)) result (fields_at (timestamp ∷ []) cursor.old) }
{
    let t = cursor.number(1, MAX_TIMESTAMP)?;
    cursor.end()?;
    Ok(t)
}

fn one_value(alloc: Global, cursor: &mut Cursor) -> Result<Bytes, LineError>
    ensures { Gives (λ v. (v, tt)) result (fields_at (value ∷ []) cursor.old) }
{
    let value = cursor.value(alloc)?;
    cursor.end()?;
    Ok(value)
}

#[tactic(auto, unfolding(crate::specs::Forms::edit_by))]
fn add(cursor: &mut Cursor, clients: u8) -> Result<Edit, LineError>
    ensures { Gives (λ edit. edit) result (edit_by clients EditWord.Add cursor.old) }
{
    let client = cursor.client(clients)?;
    let kind = cursor.kind()?;
    let register = cursor.client(clients)?;
    cursor.end()?;
    Ok(Edit::Add(client, kind, register))
}
