ghost use Rattle.std.specs.Prelude.{◌≡◌, ◌+◌, ◌++◌, IfSome, OnOk, OnErr, Some, option_copied, option_map};
ghost use Rattle.faust_types.specs.Clients.{IsClient};
ghost use Rattle.faust_types.specs.Ranges.{IsWire};
ghost use Rattle.faust_wire.specs.Grammar.{spelling};
ghost use Rattle.faust_server.specs.Rows.{client_count};
ghost use Rattle.faust_server.specs.States.{IsState};
ghost use Rattle.faust_liar.specs.Branches.{handled};
ghost use Rattle.faust_liar.specs.InRange.{IsAnswer, IsForServer};
ghost use Rattle.faust_liar.specs.Lies.{first_session, next_of, nth, queued, received};
ghost use Rattle.faust_liar.specs.Sessions.{Repeats};

use crate::branch::handle;
use crate::error::LiarError;
use crate::kept_message::Kept;
use faust_server::Server;
use faust_types::{Bytes, Message, OutOfMemory, Sequence};
use faust_wire::encode;
use std::alloc::Global;
use std::collections::VecDeque;
use std::marker::Model;

/// What the liar keeps of a client: the branch that handles its messages, the messages that arrived, and the replies
/// that were put into its queue: as their bytes those that were taken out, and as messages those that wait.
#[derive(Debug, Drop)]
pub struct Session {
    pub route: usize,
    pub arrived: Sequence<Kept>,
    pub handed: Sequence<Kept>,
    pub waiting: VecDeque<Message>,
}

impl Model for Session {
    ghost use Rattle.std.specs.Prelude.{◌++◌, length};
    ghost use Rattle.faust_liar.specs.Sessions.{SessionState};

    ghost Value = { SessionState };

    ghost view = { λ s. record { route = s.route; arrived = s.arrived; replies = s.handed ++ s.waiting.items; taken = length s.handed } };
}

impl Session {
    /// The session of a client that sent nothing, on branch 0.
    pub fn new(alloc: Global) -> Session
        ensures { result ≡ first_session }
    {
        Session {
            route: 0,
            arrived: Sequence::new(alloc),
            handed: Sequence::new(alloc),
            waiting: VecDeque::new(alloc),
        }
    }

    /// The branch that handles what arrives.
    pub fn route(&self) -> usize
        ensures { result ≡ self.now.route }
    {
        self.route
    }

    /// What arrives from now on is handled by this branch.
    pub fn follow(&mut self, route: usize)
        ensures { self.new ≡ record self.old { route = route } }
    {
        self.route = route;
    }

    /// The k-th message that arrived, counted from 1.
    pub fn arrived(&self, k: usize) -> Option<&Kept>
        ensures { option_copied result ≡ nth k self.now.arrived }
    {
        let place = k.checked_sub(1)?;
        self.arrived.as_slice().get(place)
    }

    /// The next reply in the queue.
    pub fn next(&self) -> Option<&Message>
        ensures { option_copied result ≡ next_of self.now }
    {
        self.waiting.front()
    }

    /// The spelling of the k-th reply that was put into the queue so far, counted from 1.
    pub fn again(&self, wire: u8, n: u8, k: usize) -> Result<Bytes, LiarError>
        requires wire { IsWire wire }
        requires in_range { IfSome (nth k self.now.replies) (IsAnswer n) }
        ensures { Repeats result (option_map (spelling wire) (nth k self.now.replies)) }
    {
        let Some(place) = k.checked_sub(1) else {
            return Err(LiarError::Nothing);
        };
        if let Some(reply) = self.handed.as_slice().get(place) {
            return Ok(reply.bytes(wire, n)?);
        }
        match self.waiting.get(place - self.handed.len()) {
            Some(reply) => Ok(encode(self.handed.allocator(), wire, n, reply)?),
            None => Err(LiarError::Nothing),
        }
    }

    /// Takes the next reply out of the queue. From then on it is kept as its bytes.
    pub fn take_one(&mut self, reply: Kept) -> Result<(), OutOfMemory>
        requires { next_of self.old ≡ Some reply }
        ensures ok { OnOk result (self.new ≡ record self.old { taken = self.old.taken + 1 }) }
        ensures err { OnErr result (self.new ≡ self.old) }
    {
        self.handed.push(reply)?;
        let _waited = self.waiting.pop_front();
        Ok(())
    }

    /// A message of client i arrives at its branch. A place for it is made before the branch moves.
    pub fn receive(&mut self, branch: &mut Server, i: u8, message: Kept) -> Result<(), OutOfMemory>
        requires state { IsState branch.old }
        requires client { IsClient (client_count branch.old) i }
        requires message { IsForServer (client_count branch.old) i message }
        ensures session { OnOk result (self.new ≡ received self.old message (handled branch.old i message).reply) }
        ensures branch { OnOk result (branch.new ≡ (handled branch.old i message).state) }
        ensures session_kept { OnErr result (self.new ≡ self.old) }
        ensures branch_kept { OnErr result (branch.new ≡ branch.old) }
        ensures count { client_count branch.new ≡ client_count branch.old }
    {
        let read = message.message()?;
        let place = self.arrived.len();
        self.arrived.push(message)?;
        match answer(&mut self.waiting, branch, i, &read) {
            Ok(()) => Ok(()),
            Err(error) => {
                self.arrived.truncate(place);
                Err(error)
            }
        }
    }
}

/// What a message makes of the replies that wait. Room for one is made before the branch moves.
fn answer(
    waiting: &mut VecDeque<Message>,
    branch: &mut Server,
    i: u8,
    message: &Message,
) -> Result<(), OutOfMemory>
    requires state { IsState branch.old }
    requires client { IsClient (client_count branch.old) i }
    requires message { IsForServer (client_count branch.old) i message.now }
    ensures replies { OnOk result (waiting.new.items ≡ waiting.old.items ++ queued (handled branch.old i message.now).reply) }
    ensures branch { OnOk result (branch.new ≡ (handled branch.old i message.now).state) }
    ensures replies_kept { OnErr result (waiting.new.items ≡ waiting.old.items) }
    ensures branch_kept { OnErr result (branch.new ≡ branch.old) }
    ensures count { client_count branch.new ≡ client_count branch.old }
{
    waiting.reserve(1)?;
    match handle(branch, i, message)? {
        Some(reply) => {
            waiting.push_back_reserved(Message::Reply(reply));
            Ok(())
        }
        None => Ok(()),
    }
}
