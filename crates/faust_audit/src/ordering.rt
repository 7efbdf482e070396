ghost use Rattle.std.specs.Prelude.{◌≡◌, ◌++◌, ℕ, List, length, option_to_list, IfOk, OnOk};
ghost use Rattle.faust_types.specs.Clients.{IsClient};
ghost use Rattle.faust_types.specs.Ranges.{IsConfig};
ghost use Rattle.faust_record.specs.declared.entry.Entry.{Entry};
ghost use Rattle.faust_audit.specs.Completing.{AreCompleted};
ghost use Rattle.faust_audit.specs.Findings.{name_in_order, order_of, ordered_at, submit_in};

use crate::completing::Completed;
use faust_record::{Entry, Input, RunRecord};
use faust_types::{Bytes, Config, Kind, Message, Names, OpName, OutOfMemory, Submit};
use faust_wire::{WireError, decode};
use std::alloc::Global;

/// The operations that completed, and the writes whose SUBMIT arrived, in the order in which their SUBMITs arrived.
pub fn order(alloc: Global, rec: &RunRecord) -> Result<Names, OutOfMemory>
    ensures { IfOk result (λ names. names ≡ order_of rec.now.config rec.now.entries) }
{
    let config = rec.config();
    let completed = Completed::of(alloc, rec)?;
    let mut names = Names::new(alloc);
    for q in 0..rec.len() {
        let entry = rec.entry_at(q);
        let name = ordered_at(alloc, config, &completed, entry)?;
        put_name(&mut names, name)?;
    }
    Ok(names)
}

/// Puts a name at the end, if there is one.
fn put_name(names: &mut Names, name: Option<OpName>) -> Result<(), OutOfMemory>
    ensures { OnOk result (names.new ≡ names.old ++ option_to_list name) }
{
    match name {
        None => Ok(()),
        Some(name) => names.push(name),
    }
}

/// The name that the order has for an entry.
fn ordered_at(
    alloc: Global,
    config: &Config,
    completed: &Completed,
    entry: &Entry,
) -> Result<Option<OpName>, OutOfMemory>
    requires config { IsConfig config.now }
    requires client { IsClient config.now.clients entry.now.client }
    requires completed { length completed.now ≡ config.now.clients }
    ensures { (entries : List Entry) → AreCompleted config.now.clients entries completed.now →
        IfOk result (λ name. name ≡ ordered_at config.now entries entry.now) }
{
    match &entry.input {
        Input::Arrive(message) => match submit_in(alloc, config, message)? {
            None => Ok(None),
            Some(submit) => Ok(name_in_order(completed, entry.client, &submit)),
        },
        Input::Write(_) | Input::Read(_) | Input::Reply(_) | Input::Peer(_) | Input::Tick(_) => Ok(
            None,
        ),
    }
}

/// The SUBMIT that bytes spell, if they spell one.
fn submit_in(alloc: Global, config: &Config, bytes: &Bytes) -> Result<Option<Submit>, OutOfMemory>
    requires { IsConfig config.now }
    ensures { IfOk result (λ submit. submit ≡ submit_in config.now bytes.now) }
{
    match decode(alloc, config.wire, config.clients, bytes.as_slice()) {
        Ok(Message::Submit(submit)) => Ok(Some(submit)),
        Ok(Message::Reply(_) | Message::Commit(_) | Message::Peer(_) | Message::Hello(_)) => Ok(
            None,
        ),
        Err(WireError::Malformed) => Ok(None),
        Err(WireError::OutOfMemory) => Err(OutOfMemory),
    }
}

/// The name of the operation of a SUBMIT of this client, where the order has it.
fn name_in_order(completed: &Completed, client: u8, submit: &Submit) -> Option<OpName>
    requires { IsClient (length completed.now) client }
    ensures { (n : ℕ) (entries : List Entry) → IsClient n client → AreCompleted n entries completed.now →
        result ≡ name_in_order entries client submit.now }
{
    let name = OpName {
        client,
        t: submit.t,
    };
    if submit.kind == Kind::Write || completed.has(name) {
        Some(name)
    } else {
        None
    }
}
