ghost use Rattle.std.specs.Prelude.{◌≡◌, ◌-◌, ◌<◌, ◌↔◌, None, length, option_copied, slice_get, IfOk};
ghost use Rattle.faust_types.specs.Clients.{IsClient};
ghost use Rattle.faust_types.specs.Ranges.{IsConfig};
ghost use Rattle.faust_record.specs.Runs.{arriving};
ghost use Rattle.faust_record.specs.Journals.{IsJournal, IsNumberBehind, first_log, last_of, member_of};
ghost use Rattle.faust_record.specs.Refusals.{IsInput, Steps, step_of};

use crate::acting::act;
use crate::entry::{Entry, Input};
use crate::errors::StepError;
use faust_agent::Agent;
use faust_types::{Config, OutOfMemory, Sequence};
use std::alloc::Global;
use std::marker::Model;

/// The most entries of a journal.
pub const MAX_ENTRIES: usize = 200_000;

/// One client's entries with its agent, which is the replay of them. Their numbers rise, there are at most 200,000,
/// and none is an arrival.
#[derive(Drop)]
pub struct Journal {
    agent: Agent,
    entries: Sequence<Entry>,
}

/// Journals, that of client i at place i.
pub type Journals = Sequence<Journal>;

impl Model for Journal {
    ghost use Rattle.faust_record.specs.Journals.{Log};

    ghost Value = { Log };

    ghost use Rattle.faust_record.specs.Kept.{log_of, IsKeptJournal};

    ghost view = { log_of };

    ghost invariant = { IsKeptJournal };
}

impl Journal {
    /// The journal of client `me`, from 1 to n, of a run with this config, without entries.
    pub fn new(alloc: Global, config: &Config, me: u8) -> Result<Journal, OutOfMemory>
        requires config { IsConfig config.now }
        requires client { IsClient config.now.clients me }
        ensures { IfOk result (λ journal. journal ≡ first_log config.now me) }
    {
        let agent = Agent::new(alloc, config, me)?;
        Ok(Journal {
            agent,
            entries: Sequence::new(alloc),
        })
    }

    /// Takes one more entry, with a number that is greater than the last one. The input is no arrival; bytes have at
    /// most 16,384 bytes, and a moment is at most 2^40 - 1.
    pub fn step(&mut self, number: u64, input: Input) -> Result<(), StepError>
        requires number { IsNumberBehind self.old.entries number }
        requires own { arriving input ≡ None }
        requires input { IsInput input }
        ensures { Steps result self.old self.new (step_of self.old number input) }
    {
        if self.entries.len() >= MAX_ENTRIES {
            return Err(StepError::Full);
        }
        let _sends = act(&mut self.entries, &mut self.agent, number, input)?;
        Ok(())
    }

    /// The last entry: none exactly where there is none.
    pub fn last(&self) -> Option<&Entry>
        ensures { option_copied result ≡ last_of self.now.entries }
    {
        self.entries.as_slice().last()
    }

    /// Whose journal it is.
    pub fn client(&self) -> u8
        ensures client { result ≡ self.now.me }
        ensures kept { IsJournal self.now }
    {
        self.agent.me()
    }

    /// Its agent, after all entries.
    pub fn agent(&self) -> &Agent
        ensures { result.now ≡ member_of self.now }
    {
        &self.agent
    }

    /// How many entries it has, at most 200,000.
    pub fn len(&self) -> u64
        ensures { result ≡ length self.now.entries }
    {
        self.entries.len() as u64
    }

    /// Its entry at a place, counted from 0: none exactly where there is none.
    pub fn entry(&self, at: u64) -> Option<&Entry>
        ensures { option_copied result ≡ slice_get self.now.entries at }
    {
        self.entries.as_slice().get(at as usize)
    }

    /// Its agent and its entries.
    pub(crate) fn into_parts(self) -> (Agent, Sequence<Entry>)
        ensures agent { result.0 ≡ member_of self }
        ensures entries { result.1 ≡ self.entries }
    {
        let Journal { agent, entries } = self;
        (agent, entries)
    }
}
