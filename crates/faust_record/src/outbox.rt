ghost use Rattle.std.specs.Prelude.{◌≡◌, ◌+◌, ◌^◌, ◌<◌, ℕ, length, slice_index, option_copied, IfOk, OnOk, OnSome};
ghost use Rattle.faust_record.specs.Refusals.{IsInput};
ghost use Rattle.faust_record.specs.Merging.{is_due};

use crate::acting::act;
use crate::entry::{Entry, Input};
use crate::errors::{MergeError, Refusal};
use faust_agent::Agent;
use faust_types::{Bytes, OutOfMemory, Sequence};
use std::alloc::Global;

/// What a client sent to the server: the places of the entries that sent it, in order, and how many of these
/// messages arrived.
#[derive(Debug, Drop)]
pub struct Outbox {
    pub sent: Sequence<usize>,
    pub arrived: usize,
}

impl Outbox {
    ghost use Rattle.faust_record.specs.Kept.{empty_outbox, message_at, sent_after, ActsIn, AreWithin};
    ghost use Rattle.faust_record.specs.Placing.{Delivers};

    /// Nothing was sent. It takes no memory.
    pub fn new(alloc: Global) -> Outbox
        ensures { result ≡ empty_outbox }
    {
        Outbox {
            sent: Sequence::new(alloc),
            arrived: 0,
        }
    }

    /// Puts the entry of an input at the end, as `act`, and its place here if it sends something. Room for that is made
    /// first.
    pub fn act(
        &mut self,
        entries: &mut Sequence<Entry>,
        agent: &mut Agent,
        input: Input,
    ) -> Result<(), Refusal>
        requires { IsInput input }
        ensures { ActsIn result entries.old entries.new agent.old agent.new self.old self.new input }
    {
        let place = entries.len();
        let before = self.sent.len();
        self.sent.push(place)?;
        match act(entries, agent, place as u64, input) {
            Ok(sends) => {
                if !sends {
                    self.sent.truncate(before);
                }
                Ok(())
            }
            Err(refusal) => {
                self.sent.truncate(before);
                Err(refusal)
            }
        }
    }

    /// Puts the place of an entry here, if it sent something.
    pub fn note(&mut self, entry: &Entry, place: usize) -> Result<(), OutOfMemory>
        ensures { OnOk result (self.new ≡ sent_after self.old place entry.now.outcome.to_server) }
    {
        if entry.outcome.to_server().is_some() {
            self.sent.push(place)?;
        }
        Ok(())
    }

    /// The next message to arrive.
    pub fn next_message<'a>(&self, entries: &'a Sequence<Entry>) -> Option<&'a Bytes>
        requires { AreWithin (length entries.now) self.now.sent }
        ensures message { option_copied result ≡ message_at entries.now self.now }
        ensures room { OnSome result (self.now.arrived + 1 < 2 ^ 64) }
    {
        if self.arrived >= self.sent.len() {
            return None;
        }
        let place = *self.sent.at(self.arrived);
        entries.at(place).outcome.to_server()
    }

    /// The next message arrives.
    pub fn take_next(&mut self)
        requires { self.old.arrived + 1 < 2 ^ 64 }
        ensures { self.new ≡ record self.old { arrived = self.old.arrived + 1 } }
    {
        self.arrived += 1;
    }

    /// Lets a message of the client arrive, if it is the next one.
    pub fn deliver(
        &mut self,
        entries: &Sequence<Entry>,
        client: u8,
        message: &Bytes,
    ) -> Result<(), MergeError>
        requires places { AreWithin (length entries.now) self.old.sent }
        requires few { self.old.arrived + 1 < 2 ^ 64 }
        ensures { Delivers result client (message_at entries.now self.old) self.old self.new message.now }
    {
        let index = self.arrived as u64 + 1;
        let due = self.next_message(entries);
        if is_due(due, message) {
            self.take_next();
            return Ok(());
        }
        Err(MergeError::Frame {
            client,
            index,
            sent: copy_of(due)?,
            got: message.copy()?,
        })
    }
}

fn is_due(due: Option<&Bytes>, message: &Bytes) -> bool
    ensures { result ≡ is_due (option_copied due.entry) message.now }
{
    match due {
        None => false,
        Some(sent) => sent.as_slice() == message.as_slice(),
    }
}

fn copy_of(due: Option<&Bytes>) -> Result<Option<Bytes>, OutOfMemory>
    ensures { IfOk result (λ copy. copy ≡ option_copied due.entry) }
{
    match due {
        None => Ok(None),
        Some(sent) => Ok(Some(sent.copy()?)),
    }
}
