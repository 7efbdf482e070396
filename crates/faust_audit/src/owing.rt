ghost use Rattle.std.specs.Prelude.{◌≡◌, ◌++◌, ◌∷◌, [], length, drop, slice_get, replicate, IfOk, OnOk};
ghost use Rattle.faust_types.specs.Clients.{IsClient, IsClientCount};
ghost use Rattle.faust_types.specs.Ranges.{IsCommitFor, IsConfig, IsReplyFor, IsSubmitFor};
ghost use Rattle.faust_wire.specs.Grammar.{reply_bytes};
ghost use Rattle.faust_wire.specs.Reading.{message_of};
ghost use Rattle.faust_server.specs.Rows.{committed, submitted};
ghost use Rattle.faust_audit.specs.Owing.{IsDebtFor, debt_after, debt_handed, debt_owing, debt_served, debt_settled, debt_told, first_debt, is_next, misses, next_due};

use faust_record::{Entry, Input};
use faust_server::{Server, ServerError};
use faust_types::{Bytes, Commit, Config, Message, OutOfMemory, Reply, Submit};
use faust_wire::{WireError, decode, encode};
use std::alloc::Global;
use std::collections::VecDeque;
use std::marker::Model;

/// Spelled replies that are still due to one client, in order.
#[derive(Debug, Drop)]
struct Due {
    replies: VecDeque<Bytes>,
}

impl Model for Due {
    ghost use Rattle.std.specs.Prelude.{ℕ, List};

    ghost Value = { List (List ℕ) };

    ghost view = { λ d. d.replies.items };
}

impl Due {
    fn new(alloc: Global) -> Due
        ensures { result ≡ [] }
    {
        Due {
            replies: VecDeque::new(alloc),
        }
    }

    /// Puts one more reply behind those that are due.
    fn put(&mut self, reply: Bytes) -> Result<(), OutOfMemory>
        ensures { OnOk result (self.new ≡ self.old ++ reply ∷ []) }
    {
        self.replies.push_back(reply)?;
        Ok(())
    }

    /// Takes the next one out: none exactly where none is due.
    fn take(&mut self) -> Option<Bytes>
        ensures next { result ≡ slice_get self.old 0 }
        ensures left { self.new ≡ drop 1 self.old }
    {
        self.replies.pop_front()
    }
}

/// The honest server along a run, and the replies that are still due to each client.
#[derive(Debug, Drop)]
pub struct Owing {
    server: Server,
    due: Vec<Due>,
}

impl Model for Owing {
    ghost use Rattle.faust_audit.specs.Owing.{Debt};

    ghost Value = { Debt };

    ghost view = { λ o. record { server = o.server; due = o.due.items } };
}

impl Owing {
    /// The server of n clients that no message reached.
    pub fn new(alloc: Global, n: u8) -> Result<Owing, OutOfMemory>
        requires { IsClientCount n }
        ensures { IfOk result (λ owing. owing ≡ first_debt n) }
    {
        Ok(Owing {
            server: Server::new(alloc, n)?,
            due: nothing_due(alloc, n)?,
        })
    }

    /// Takes one more entry, and says whether its reply isn't the one that is due.
    pub fn follow(
        &mut self,
        alloc: Global,
        config: &Config,
        entry: &Entry,
    ) -> Result<bool, OutOfMemory>
        requires config { IsConfig config.now }
        requires client { IsClient config.now.clients entry.now.client }
        requires kept { IsDebtFor config.now.clients self.old }
        ensures answer { IfOk result (λ is_missed. is_missed ≡ misses self.old entry.now) }
        ensures after { OnOk result (self.new ≡ debt_after config.now self.old entry.now) }
        ensures kept { OnOk result (IsDebtFor config.now.clients self.new) }
    {
        match &entry.input {
            Input::Reply(bytes) => Ok(!self.hand(entry.client, bytes)),
            Input::Arrive(message) => {
                self.arrive(alloc, config, entry.client, message)?;
                Ok(false)
            }
            Input::Write(_) | Input::Read(_) | Input::Peer(_) | Input::Tick(_) => Ok(false),
        }
    }

    /// Hands a reply to client i, and says whether it is the one that is due.
    fn hand(&mut self, i: u8, bytes: &Bytes) -> bool
        requires { IsClient (length self.old.due) i }
        ensures answer { result ≡ is_next bytes.now (next_due self.old i) }
        ensures after { self.new ≡ debt_handed self.old i }
    {
        let due = self.due[usize::from(i) - 1].take();
        is_next(bytes, due)
    }

    /// A message of client i arrives.
    fn arrive(
        &mut self,
        alloc: Global,
        config: &Config,
        i: u8,
        message: &Bytes,
    ) -> Result<(), OutOfMemory>
        requires config { IsConfig config.now }
        requires client { IsClient config.now.clients i }
        requires kept { IsDebtFor config.now.clients self.old }
        ensures after { OnOk result
            (self.new ≡ debt_told config.now.wire self.old i (message_of config.now.wire config.now.clients message.now)) }
        ensures kept { OnOk result (IsDebtFor config.now.clients self.new) }
    {
        match decode(alloc, config.wire, config.clients, message.as_slice()) {
            Ok(Message::Submit(m)) => self.submit(alloc, config, i, m),
            Ok(Message::Commit(m)) => {
                self.commit(i, m);
                Ok(())
            }
            Ok(Message::Reply(_) | Message::Peer(_) | Message::Hello(_)) => Ok(()),
            Err(WireError::Malformed) => Ok(()),
            Err(WireError::OutOfMemory) => Err(OutOfMemory),
        }
    }

    fn submit(
        &mut self,
        alloc: Global,
        config: &Config,
        i: u8,
        m: Submit,
    ) -> Result<(), OutOfMemory>
        requires config { IsConfig config.now }
        requires client { IsClient config.now.clients i }
        requires message { IsSubmitFor config.now.clients m }
        requires kept { IsDebtFor config.now.clients self.old }
        ensures after { OnOk result (self.new ≡ debt_served config.now.wire self.old i (submitted self.old.server i m)) }
        ensures kept { OnOk result (IsDebtFor config.now.clients self.new) }
    {
        match self.server.submit(i, m) {
            Ok(reply) => {
                let bytes = spelled(alloc, config, reply)?;
                self.owe(i, bytes)
            }
            Err(ServerError::OutOfTurn { .. }) => Ok(()),
            Err(ServerError::OutOfMemory) => Err(OutOfMemory),
        }
    }

    /// One more spelled reply is due to client i.
    fn owe(&mut self, i: u8, reply: Bytes) -> Result<(), OutOfMemory>
        requires { IsClient (length self.old.due) i }
        ensures after { OnOk result (self.new ≡ debt_owing self.old i reply) }
        ensures kept { OnOk result (length self.new.due ≡ length self.old.due) }
    {
        self.due[usize::from(i) - 1].put(reply)
    }

    fn commit(&mut self, i: u8, m: Commit)
        requires client { IsClient (length self.old.due) i }
        requires message { IsCommitFor (length self.old.due) m }
        requires kept { IsDebtFor (length self.old.due) self.old }
        ensures after { self.new ≡ debt_settled self.old (committed self.old.server i m) }
        ensures kept { IsDebtFor (length self.old.due) self.new }
    {
        let _ = self.server.commit(i, m);
    }
}

fn nothing_due(alloc: Global, n: u8) -> Result<Vec<Due>, OutOfMemory>
    ensures { IfOk result (λ list. list.items ≡ replicate n []) }
{
    let mut due = Vec::with_capacity(alloc, usize::from(n))?;
    for _ in 0..n {
        due.push(Due::new(alloc))?;
    }
    Ok(due)
}

fn spelled(alloc: Global, config: &Config, reply: Reply) -> Result<Bytes, OutOfMemory>
    requires config { IsConfig config.now }
    requires reply { IsReplyFor config.now.clients reply }
    ensures { IfOk result (λ bytes. bytes ≡ reply_bytes config.now.wire reply) }
{
    encode(alloc, config.wire, config.clients, &Message::Reply(reply))
}

fn is_next(bytes: &Bytes, due: Option<Bytes>) -> bool
    ensures { result ≡ is_next bytes.now due }
{
    match due {
        None => false,
        Some(due) => bytes.as_slice() == due.as_slice(),
    }
}
