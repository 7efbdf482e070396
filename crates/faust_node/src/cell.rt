// What stands behind a client's lock.
ghost use Rattle.std.specs.Prelude.{◌≡◌, ◌≢◌, ◌<◌, None, Some, true, length, IfOk};
ghost use Rattle.faust_types.specs.Clients.{IsClient};
ghost use Rattle.faust_types.specs.Ranges.{IsConfig};
ghost use Rattle.faust_types.specs.declared.arrival.Closing.TheVariants as closings;
ghost use Rattle.faust_agent.specs.State.{is_idle};
ghost use Rattle.faust_ticket.specs.Holders.{first_seat};
ghost use Rattle.faust_record.specs.Runs.{arriving};
ghost use Rattle.faust_record.specs.Refusals.{IsInput};
ghost use Rattle.faust_node.specs.Cells.{IsCell, closed_after, closed_by, first_cell, held_by, refusal_of, stop_of};
ghost use Rattle.faust_node.specs.Steps.{Begins, CellSteps, IsAsked, IsOutside, MayBegin, Takes, asked_for, begin_refused, step_refused};

use crate::error::NodeError;
use crate::session::Session;
use faust_agent::Agent;
use faust_record::{Input, Journal, MAX_ENTRIES, StepError};
use faust_ticket::Seat;
use faust_types::{Closing, Config, Kind, MAX_VALUE_LEN, OpName, Operation, OutOfMemory};
use std::alloc::Global;
use std::marker::Model;

/// One client's journal, the seat that draws the numbers of its entries, and the cause that closed the cell, if it is
/// closed. The journal is of a run with the config that T names, and its numbers are those that the seat drew; in a cell
/// that is closed with `Memory` one more may be drawn.
#[derive(Drop)]
pub struct NodeCell<T: Session> {
    journal: Journal,
    seat: Seat<T>,
    closed: Option<Closing>,
}

impl<T: Session> Model for NodeCell<T> {
    ghost use Rattle.faust_node.specs.Cells.{Cell, IsCell};

    ghost Value = { Cell };

    ghost view = { λ c. record { log = c.journal; seat = c.seat; closed = c.closed } };

    ghost invariant = { λ c. IsCell T.config (record { log = c.journal; seat = c.seat; closed = c.closed }) };
}

impl<T: Session> NodeCell<T> {
    /// An open cell of client `me`, from 1 to n, with an empty journal. T names this config.
    pub fn new(
        alloc: Global,
        config: &Config,
        me: u8,
        seat: Seat<T>,
    ) -> Result<NodeCell<T>, OutOfMemory>
        requires config { IsConfig config.now }
        requires named { T.config ≡ config.now }
        requires client { IsClient config.now.clients me }
        requires seat { seat ≡ first_seat }
        ensures { IfOk result (λ cell. cell ≡ first_cell config.now me) }
    {
        let journal = Journal::new(alloc, config, me)?;
        Ok(NodeCell {
            journal,
            seat,
            closed: None,
        })
    }

    /// Draws one number, and makes one step of the journal with it. Every refusal but want of memory comes before the
    /// draw. The cell isn't closed with `Memory`, and the input is none that arrives at the server.
    pub fn step(&mut self, input: Input) -> Result<(), StepError>
        requires own { arriving input ≡ None }
        requires input { IsInput input }
        requires not_starved { self.old.closed ≢ Some closings.Memory }
        ensures { CellSteps result self.old self.new input }
    {
        if let Some(refusal) = refusal(&self.journal, &input) {
            return Err(refusal);
        }
        let number = self.seat.draw();
        match self.journal.step(number, input) {
            Ok(()) => Ok(()),
            Err(_) => {
                self.closed = Some(Closing::Memory);
                Err(StepError::OutOfMemory)
            }
        }
    }

    /// Begins what a user asks for, and answers the operation that the client waits for then.
    pub fn begin(&mut self, input: Input) -> Result<Operation, OutOfMemory>
        requires asked { IsAsked T.config.clients input }
        requires may { MayBegin self.old }
        ensures { Begins result self.old self.new input }
    {
        let op = next_operation(self.journal.agent(), self.journal.client(), &input);
        match self.step(input) {
            Ok(()) => Ok(op),
            Err(_) => Err(OutOfMemory),
        }
    }

    /// Takes a reply, a message of another client, or a moment: a message has at most 16,384 bytes, a moment is at most
    /// 2^40 - 1. Where it doesn't, it answers why nothing more is to be handed in, and is closed.
    pub fn take(&mut self, input: Input) -> Option<Closing>
        requires { IsOutside input }
        ensures { Takes result self.old self.new input }
    {
        if let Some(cause) = self.stop() {
            return Some(cause);
        }
        match self.step(input) {
            Ok(()) => None,
            Err(error) => match error {
                StepError::OutOfMemory => Some(Closing::Memory),
                _ => {
                    self.close(Closing::Full);
                    Some(Closing::Full)
                }
            },
        }
    }

    /// Why the client begins nothing: its notice, else the cause that closed the cell, else that the journal is full.
    pub fn refusal(&self) -> Option<NodeError>
        ensures { result ≡ refusal_of self.now }
    {
        if let Some(notice) = self.journal.agent().notice() {
            return Some(NodeError::Failed(notice));
        }
        if let Some(cause) = self.closed {
            return Some(NodeError::Closed(cause));
        }
        if self.journal.len() >= MAX_ENTRIES as u64 {
            return Some(NodeError::Full);
        }
        None
    }

    /// Why a loop that serves the cell stops, if the cell is closed: the notice of its client, else that it was asked to.
    pub fn stop(&self) -> Option<Closing>
        ensures { result ≡ stop_of self.now }
    {
        self.closed?;
        match self.journal.agent().notice() {
            Some(notice) => Some(Closing::Failed(notice)),
            None => Some(Closing::Asked),
        }
    }

    /// Whether the client may begin an operation, as far as the client itself knows.
    pub fn is_idle(&self) -> bool
        ensures { result ≡ is_idle self.now.log.me (held_by self.now.log) }
    {
        self.journal.agent().is_idle()
    }

    /// Closes the cell with a cause, unless it is closed already. `Memory` takes the place of an earlier cause.
    pub fn close(&mut self, cause: Closing)
        ensures { self.new ≡ closed_by self.old cause }
    {
        self.closed = Some(lasting(self.closed, cause));
    }

    /// Its journal.
    pub fn journal(&self) -> &Journal
        ensures journal { result.now ≡ self.now.log }
        ensures kept { IsCell T.config self.now }
    {
        &self.journal
    }

    /// The cause that closed it, if it is closed.
    pub fn closed(&self) -> Option<Closing>
        ensures { result ≡ self.now.closed }
    {
        self.closed
    }

    /// Its journal, its seat, and the cause that closed it. What a cell keeps goes with them.
    pub fn into_parts(self) -> (Journal, Seat<T>, Option<Closing>)
        ensures parts { self ≡ record { log = result.0; seat = result.1; closed = result.2 } }
        ensures kept { IsCell T.config (record { log = result.0; seat = result.1; closed = result.2 }) }
    {
        let NodeCell {
            journal,
            seat,
            closed,
        } = self;
        (journal, seat, closed)
    }
}

// The cause that stays: the first one, but for `Memory`.
fn lasting(closed: Option<Closing>, cause: Closing) -> Closing
    ensures { Some result ≡ closed_after closed cause }
{
    match closed {
        Some(first) if cause != Closing::Memory => first,
        _ => cause,
    }
}

// Why the journal takes no step with this input, but for want of memory.
fn refusal(journal: &Journal, input: &Input) -> Option<StepError>
    ensures { result ≡ step_refused journal.now input.now }
{
    if journal.len() >= MAX_ENTRIES as u64 {
        return Some(StepError::Full);
    }
    let agent = journal.agent();
    match input {
        Input::Write(value) => {
            if value.len() > MAX_VALUE_LEN {
                return Some(StepError::TooLong);
            }
            begin_refusal(agent)
        }
        Input::Read(register) => {
            if *register < 1 || *register > agent.clients() {
                return Some(StepError::NoRegister);
            }
            begin_refusal(agent)
        }
        Input::Reply(_) | Input::Peer(_) | Input::Tick(_) | Input::Arrive(_) => None,
    }
}

fn begin_refusal(agent: &Agent) -> Option<StepError>
    ensures { result ≡ begin_refused agent.now.me agent.now.client }
{
    match agent.notice() {
        Some(notice) => Some(StepError::Failed(notice)),
        None => {
            if agent.is_idle() {
                None
            } else {
                Some(StepError::Busy)
            }
        }
    }
}

// The operation that an idle client, of this number, begins where a user asks for this.
fn next_operation(agent: &Agent, me: u8, input: &Input) -> Operation
    requires me { me ≡ agent.now.me }
    requires client { IsClient agent.now.config.clients me }
    requires idle { is_idle agent.now.me agent.now.client ≡ true }
    ensures { result ≡ asked_for agent.now.me agent.now.client input.now }
{
    let (kind, register) = match input {
        Input::Read(register) => (Kind::Read, *register),
        _ => (Kind::Write, me),
    };
    let t = agent.cut(me) + 1;
    Operation {
        name: OpName { client: me, t },
        kind,
        register,
        dummy: false,
    }
}
