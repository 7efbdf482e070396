ghost use Rattle.std.specs.Prelude.{◌≡◌, Some, length, replicate, IfOk, OnOk, OnErr, option_copied};
ghost use Rattle.faust_types.specs.Clients.{IsClientCount, IsClient};
ghost use Rattle.faust_types.specs.Ranges.{IsWire};
ghost use Rattle.faust_script.specs.InRange.{IsEditFor};
ghost use Rattle.faust_wire.specs.Grammar.{spelling};
ghost use Rattle.faust_liar.specs.InRange.{IsAnswer, IsArrival, IsFor, IsLiarState};
ghost use Rattle.faust_liar.specs.Lies.{Does, Hands, again_due, arrived, branched, echoed, edited_due, first_lies, first_session, next_due, next_of, one_taken, routed, session_at, session_count};

use crate::branch::handle;
use crate::change::lie;
use crate::error::LiarError;
use crate::kept_message::Kept;
use crate::session::Session;
use faust_script::Edit;
use faust_server::Server;
use faust_types::{Bytes, Message, OutOfMemory};
use faust_wire::encode;
use std::alloc::Global;
use std::marker::Model;

/// The most branches.
pub const MAX_BRANCHES: usize = 8;

/// A server of n clients that lies: its branches, and a session for each client.
#[derive(Debug, Drop)]
pub struct Liar {
    wire: u8,
    branches: Vec<Server>,
    sessions: Vec<Session>,
}

impl Model for Liar {
    ghost use Rattle.faust_liar.specs.Lies.{LiarState};
    ghost use Rattle.faust_liar.specs.InRange.{IsLiarState};

    ghost Value = { LiarState };

    ghost view = { λ l. record { wire = l.wire; branches = l.branches.items; sessions = l.sessions.items } };

    ghost invariant = { λ l. IsLiarState (record { wire = l.wire; branches = l.branches.items; sessions = l.sessions.items }) };
}

impl Liar {
    /// The liar under this version of the wire, 1 or 2, for n clients, with branch 0, on which every client is.
    pub fn new(alloc: Global, wire: u8, n: u8) -> Result<Liar, OutOfMemory>
        requires wire { IsWire wire }
        requires count { IsClientCount n }
        ensures { IfOk result (λ liar. liar ≡ first_lies wire n) }
    {
        let mut branches = Vec::new(alloc);
        branches.push(Server::new(alloc, n)?)?;
        Ok(Liar {
            wire,
            branches,
            sessions: first_sessions(alloc, n)?,
        })
    }

    /// For how many clients the liar is.
    pub fn clients(&self) -> u8
        ensures count { result ≡ session_count self.now }
        ensures kept { IsLiarState self.now }
    {
        self.sessions.len() as u8
    }

    /// The message of client i arrives, in its bytes: the spelling of a SUBMIT or a COMMIT; where a COMMIT rides on a
    /// SUBMIT, it is that of the operation before. The client's branch handles it, and a reply goes into the client's
    /// queue.
    pub fn arrive(&mut self, i: u8, message: Bytes) -> Result<(), OutOfMemory>
        requires client { IsClient (session_count self.old) i }
        requires message { IsArrival self.old.wire (session_count self.old) i message }
        ensures ok { OnOk result (self.new ≡ arrived self.old i message) }
        ensures err { OnErr result (self.new ≡ self.old) }
        ensures frame { IsFor self.old.wire (session_count self.old) self.new }
    {
        let kept = Kept::of_bytes(self.wire, self.clients(), message);
        let place = usize::from(i) - 1;
        let route = self.sessions[place].route();
        self.sessions[place].receive(&mut self.branches[route], i, kept)
    }

    /// Branch `to`, the next number, becomes a copy of branch `from`.
    pub fn branch(&mut self, from: usize, to: usize) -> Result<(), LiarError>
        ensures due { Does result self.old self.new (branched self.old from to) }
        ensures frame { IsFor self.old.wire (session_count self.old) self.new }
    {
        let count = self.branches.len();
        if from >= count || to != count || to >= MAX_BRANCHES {
            return Err(LiarError::NoBranch);
        }
        let copy = self.branches[from].copy()?;
        match self.branches.push(copy) {
            Ok(()) => Ok(()),
            Err(_) => Err(LiarError::OutOfMemory),
        }
    }

    /// What arrives of client i from then on is handled by branch `to`. It takes no memory.
    pub fn route(&mut self, i: u8, to: usize) -> Result<(), LiarError>
        requires { IsClient (session_count self.old) i }
        ensures due { Does result self.old self.new (routed self.old i to) }
        ensures frame { IsFor self.old.wire (session_count self.old) self.new }
    {
        if to >= self.branches.len() {
            return Err(LiarError::NoBranch);
        }
        self.sessions[usize::from(i) - 1].follow(to);
        Ok(())
    }

    /// The k-th message of client i that arrived, counted from 1, is handled by branch `to` as well. A reply is thrown
    /// away.
    pub fn echo(&mut self, i: u8, k: usize, to: usize) -> Result<(), LiarError>
        requires { IsClient (session_count self.old) i }
        ensures due { Does result self.old self.new (echoed self.old i k to) }
        ensures frame { IsFor self.old.wire (session_count self.old) self.new }
    {
        let session = &self.sessions[usize::from(i) - 1];
        let Some(kept) = session.arrived(k) else {
            return Err(LiarError::Nothing);
        };
        if to >= self.branches.len() {
            return Err(LiarError::NoBranch);
        }
        let message = kept.message()?;
        let _reply = handle(&mut self.branches[to], i, &message)?;
        Ok(())
    }

    /// Takes the next reply out of client i's queue, and gives its bytes.
    pub fn next(&mut self, i: u8) -> Result<Bytes, LiarError>
        requires { IsClient (session_count self.old) i }
        ensures due { Hands result self.old self.new (next_due self.old i) }
        ensures frame { IsFor self.old.wire (session_count self.old) self.new }
    {
        let Some(reply) = self.sessions[usize::from(i) - 1].next() else {
            return Err(LiarError::Nothing);
        };
        let kept = self.kept(reply)?;
        let bytes = kept.bytes(self.wire, self.clients())?;
        self.take_one(i, kept)?;
        Ok(bytes)
    }

    /// The bytes of the k-th reply, counted from 1, that was put into client i's queue so far. The queue stays.
    pub fn again(&mut self, i: u8, k: usize) -> Result<Bytes, LiarError>
        requires { IsClient (session_count self.old) i }
        ensures due { Hands result self.old self.new (again_due self.old i k) }
        ensures frame { IsFor self.old.wire (session_count self.old) self.new }
    {
        self.sessions[usize::from(i) - 1].again(self.wire, self.clients(), k)
    }

    /// Takes the next reply out of client i's queue, and gives the bytes of what the edit makes of it. With a key the
    /// edit is forged: the tag over the edited part is made anew.
    pub fn edited(&mut self, i: u8, edit: &Edit, key: Option<&[u8]>) -> Result<Bytes, LiarError>
        requires client { IsClient (session_count self.old) i }
        requires edit { IsEditFor (session_count self.old) edit.now }
        ensures due { Hands result self.old self.new (edited_due self.old i edit.now (option_copied key.entry)) }
        ensures frame { IsFor self.old.wire (session_count self.old) self.new }
    {
        let Some(next) = self.sessions[usize::from(i) - 1].next() else {
            return Err(LiarError::Nothing);
        };
        let Message::Reply(reply) = next else {
            return Err(LiarError::Field);
        };
        let lied = lie(reply, edit, key)?;
        let kept = self.kept(next)?;
        let bytes = self.spelled(&Message::Reply(lied))?;
        self.take_one(i, kept)?;
        Ok(bytes)
    }

    fn spelled(&self, reply: &Message) -> Result<Bytes, OutOfMemory>
        requires { IsAnswer (session_count self.now) reply.now }
        ensures { IfOk result (λ bytes. bytes ≡ spelling self.now.wire reply.now) }
    {
        encode(*self.branches.allocator(), self.wire, self.clients(), reply)
    }

    fn kept(&self, reply: &Message) -> Result<Kept, OutOfMemory>
        requires { IsAnswer (session_count self.now) reply.now }
        ensures { IfOk result (λ kept. kept ≡ reply.now) }
    {
        Kept::of(*self.branches.allocator(), self.wire, self.clients(), reply)
    }

    fn take_one(&mut self, i: u8, reply: Kept) -> Result<(), OutOfMemory>
        requires client { IsClient (session_count self.old) i }
        requires next { next_of (session_at self.old i) ≡ Some reply }
        ensures ok { OnOk result (self.new ≡ one_taken self.old i) }
        ensures err { OnErr result (self.new ≡ self.old) }
    {
        self.sessions[usize::from(i) - 1].take_one(reply)
    }
}

fn first_sessions(alloc: Global, n: u8) -> Result<Vec<Session>, OutOfMemory>
    ensures { IfOk result (λ list. list.items ≡ replicate n first_session) }
{
    let mut sessions = Vec::with_capacity(alloc, usize::from(n))?;
    for _ in 0..n {
        sessions.push(Session::new(alloc))?;
    }
    Ok(sessions)
}
