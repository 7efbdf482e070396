ghost use Rattle.std.specs.Prelude.{◌≡◌, ◌<◌, None, length, option_copied, slice_get, slice_index_or, IfOk};
ghost use Rattle.faust_types.specs.Clients.{IsClient};
ghost use Rattle.faust_types.specs.Ranges.{IsConfig};
ghost use Rattle.faust_record.specs.declared.entry.Entry.{Entry};
ghost use Rattle.faust_record.specs.Entries.{member_after};
ghost use Rattle.faust_record.specs.Runs.{IsRun, arriving, entries_of, first_run};
ghost use Rattle.faust_record.specs.Refusals.{IsInput, IsPushInput, Pushes, acted, arrived, push_of};

use crate::entry::{Entry, Input};
use crate::errors::PushError;
use crate::first::{first_agents, first_outboxes};
use crate::given::Given;
use crate::outbox::Outbox;
use faust_agent::Agent;
use faust_types::{Bytes, Config, OutOfMemory, Sequence};
use std::alloc::Global;
use std::marker::Model;

/// What is pushed to a record, as `Input`: which message arrives isn't said, since it is the next one.
#[derive(Debug, Drop)]
pub enum PushInput {
    Write(Bytes),
    Read(u8),
    Reply(Bytes),
    Peer(Bytes),
    Tick(u64),
    Arrive,
}

/// A whole run: its config, and its entries numbered from 0. Each client's entries are those of its table, and each
/// `Arrive` holds the next message that its client sent to the server in an earlier entry.
#[derive(Drop)]
pub struct RunRecord {
    config: Config,
    agents: Vec<Agent>,
    outboxes: Vec<Outbox>,
    entries: Sequence<Entry>,
}

impl Model for RunRecord {
    ghost use Rattle.faust_record.specs.Runs.{Run};

    ghost Value = { Run };

    ghost use Rattle.faust_record.specs.Kept.{run_of, IsKeptRun};

    ghost view = { run_of };

    ghost invariant = { IsKeptRun };
}

impl RunRecord {
    ghost use Rattle.faust_record.specs.Kept.{AreParts};

    /// A run with this config, without entries.
    pub fn new(alloc: Global, config: Config) -> Result<RunRecord, OutOfMemory>
        requires { IsConfig config }
        ensures { IfOk result (λ run. run ≡ first_run config) }
    {
        let agents = first_agents(alloc, &config)?;
        let outboxes = first_outboxes(alloc, config.clients)?;
        Ok(RunRecord {
            config,
            agents,
            outboxes,
            entries: Sequence::new(alloc),
        })
    }

    /// Takes one more entry, of a client from 1 to n. Bytes have at most 16,384 bytes, and a moment is at most
    /// 2^40 - 1.
    pub fn push(&mut self, client: u8, input: PushInput) -> Result<(), PushError>
        requires client { IsClient self.old.config.clients client }
        requires input { IsPushInput input }
        ensures { Pushes result self.old self.new (push_of self.old client input) }
    {
        match input {
            PushInput::Write(value) => self.act(client, Input::Write(value)),
            PushInput::Read(register) => self.act(client, Input::Read(register)),
            PushInput::Reply(bytes) => self.act(client, Input::Reply(bytes)),
            PushInput::Peer(bytes) => self.act(client, Input::Peer(bytes)),
            PushInput::Tick(moment) => self.act(client, Input::Tick(moment)),
            PushInput::Arrive => self.arrive(client),
        }
    }

    fn act(&mut self, client: u8, input: Input) -> Result<(), PushError>
        requires client { IsClient self.old.config.clients client }
        requires own { arriving input ≡ None }
        requires input { IsInput input }
        ensures { Pushes result self.old self.new (acted self.old client input) }
    {
        let k = usize::from(client) - 1;
        let agent = &mut self.agents[k];
        let outbox = &mut self.outboxes[k];
        outbox.act(&mut self.entries, agent, input)?;
        Ok(())
    }

    fn arrive(&mut self, client: u8) -> Result<(), PushError>
        requires { IsClient self.old.config.clients client }
        ensures { Pushes result self.old self.new (arrived self.old client) }
    {
        let k = usize::from(client) - 1;
        let Some(message) = self.outboxes[k].next_message(&self.entries) else {
            return Err(PushError::Nothing);
        };
        let message = message.copy()?;
        let entry = Entry {
            number: self.entries.len() as u64,
            client,
            input: Input::Arrive(message),
            outcome: Given::nothing(),
        };
        self.entries.push(entry)?;
        self.outboxes[k].take_next();
        Ok(())
    }

    /// Its config.
    pub fn config(&self) -> &Config
        ensures config { result.now ≡ self.now.config }
        ensures kept { IsRun self.now.config self.now.entries }
    {
        &self.config
    }

    /// The agent of client i, from 1 to n, after all entries.
    pub fn agent(&self, i: u8) -> &Agent
        requires { IsClient self.now.config.clients i }
        ensures { result.now ≡ member_after self.now.config i (entries_of i self.now.entries) }
    {
        &self.agents[usize::from(i) - 1]
    }

    /// How many entries it has.
    pub fn len(&self) -> u64
        ensures { result ≡ length self.now.entries }
    {
        self.entries.len() as u64
    }

    /// Entry q: none exactly where there is none.
    pub fn entry(&self, q: u64) -> Option<&Entry>
        ensures { option_copied result ≡ slice_get self.now.entries q }
    {
        self.entries.as_slice().get(q as usize)
    }

    /// Entry q, which is there.
    pub fn entry_at(&self, q: u64) -> &Entry
        requires { q < length self.now.entries }
        ensures { (d : Entry) → result.now ≡ slice_index_or self.now.entries q d }
    {
        match self.entry(q) {
            Some(entry) => entry,
            None => unreachable!(),
        }
    }

    /// The record of these parts.
    pub(crate) fn from_parts(
        config: Config,
        agents: Vec<Agent>,
        outboxes: Vec<Outbox>,
        entries: Sequence<Entry>,
    ) -> RunRecord
        requires { AreParts config agents.items outboxes.items entries }
        ensures { result ≡ record { config = config; entries = entries } }
    {
        RunRecord {
            config,
            agents,
            outboxes,
            entries,
        }
    }
}
