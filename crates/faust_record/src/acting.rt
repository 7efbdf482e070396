//! One input at one client: whether the client refuses it, and the entry that it makes.
ghost use Rattle.std.specs.Prelude.{◌≡◌, None};
ghost use Rattle.faust_types.specs.Bytes.{AreBytes};
ghost use Rattle.faust_record.specs.Refusals.{IsInput, begin_refused, refusal_at};
ghost use Rattle.faust_record.specs.Acting.{Acts, AreInputBytes, Happens};

use crate::entry::{Entry, Input};
use crate::errors::Refusal;
use crate::given::Room;
use faust_agent::Agent;
use faust_types::{MAX_VALUE_LEN, OutOfMemory, Outcome, Sequence};
use std::alloc::Global;

/// Puts the entry of an input at the end, unless the client refuses it, and tells whether it sends something to the
/// server. Room for it is made before the client moves.
pub fn act(
    entries: &mut Sequence<Entry>,
    agent: &mut Agent,
    number: u64,
    input: Input,
) -> Result<bool, Refusal>
    requires { IsInput input }
    ensures { Acts result entries.old entries.new agent.old agent.new number input }
{
    if let Some(refusal) = refusal(agent, &input) {
        return Err(refusal);
    }
    let alloc = entries.allocator();
    let place = entries.len();
    let room = Room::new(alloc)?;
    entries.push(Entry::blank())?;
    match happen(alloc, agent, &input) {
        Ok(outcome) => {
            let sends = outcome.to_server.is_some();
            let entry = Entry {
                number,
                client: agent.me(),
                input,
                outcome: room.filled(outcome),
            };
            entries.set(place, entry);
            Ok(sends)
        }
        Err(OutOfMemory) => {
            entries.truncate(place);
            Err(Refusal::OutOfMemory)
        }
    }
}

fn refusal(agent: &Agent, input: &Input) -> Option<Refusal>
    ensures { result ≡ refusal_at agent.now.config agent.now.me agent.now.client input.now }
{
    match input {
        Input::Write(value) => {
            if value.len() > MAX_VALUE_LEN {
                return Some(Refusal::TooLong);
            }
            begin_refusal(agent)
        }
        Input::Read(register) => {
            if *register < 1 || *register > agent.clients() {
                return Some(Refusal::NoRegister);
            }
            begin_refusal(agent)
        }
        Input::Reply(_) | Input::Peer(_) | Input::Tick(_) | Input::Arrive(_) => None,
    }
}

fn begin_refusal(agent: &Agent) -> Option<Refusal>
    ensures { result ≡ begin_refused agent.now.me agent.now.client }
{
    match agent.notice() {
        Some(notice) => Some(Refusal::Failed(notice)),
        None => {
            if agent.is_idle() {
                None
            } else {
                Some(Refusal::Busy)
            }
        }
    }
}

#[tactic(auto, unfolding(crate::specs::Entries::outcome_at, crate::specs::Entries::state_at))]
fn happen(alloc: Global, agent: &mut Agent, input: &Input) -> Result<Outcome, OutOfMemory>
    requires { refusal_at agent.old.config agent.old.me agent.old.client input.now ≡ None }
    ensures happens { Happens result agent.old agent.new input.now }
    ensures bytes { AreInputBytes input.now }
{
    heed(input);
    match input {
        Input::Write(value) => agent.begin_write(value.as_slice()),
        Input::Read(register) => agent.begin_read(*register),
        Input::Reply(bytes) => agent.on_reply(bytes.as_slice()),
        Input::Peer(bytes) => agent.on_peer(bytes.as_slice()),
        Input::Tick(moment) => agent.on_tick(*moment),
        Input::Arrive(_) => Ok(Outcome::nothing(alloc)),
    }
}

// What comes as bytes is bytes.
fn heed(input: &Input)
    ensures { AreInputBytes input.now }
{
    match input {
        Input::Write(bytes) | Input::Reply(bytes) | Input::Peer(bytes) => are_bytes(
            bytes.as_slice(),
        ),
        Input::Read(_) | Input::Tick(_) | Input::Arrive(_) => {}
    }
}

fn are_bytes(bytes: &[u8])
    ensures { AreBytes bytes.now }
{
    let _bytes = bytes;
}
