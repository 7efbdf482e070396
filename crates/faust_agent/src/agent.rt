ghost use Rattle.std.specs.Prelude.{◌≡◌, ◌≤◌, false, true, length, IfOk};
ghost use Rattle.faust_types.specs.Clients.{IsClient};
ghost use Rattle.faust_types.specs.Ranges.{IsConfig};
ghost use Rattle.faust_agent.specs.State.{cut_at, first_member, greatest, is_idle};
ghost use Rattle.faust_agent.specs.Deeds.{asked, peer_in, read_of, replied, reply_in, ticked, told, write_of};
ghost use Rattle.faust_agent.specs.Outcomes.{Steps, deed_at};
ghost use Rattle.faust_agent.specs.InRange.{IsDeedFor, IsMember};

use crate::client::Client;
use crate::deed::{Deed, Order};
use crate::identity::Identity;
use faust_hash::PreparedKey;
use faust_types::{Bytes, Config, Kind, Known, Notice, OutOfMemory, Outcome};
use std::alloc::Global;
use std::marker::Model;

/// A client of a run: its number, what all clients share, and what it holds. Each call that changes it is one event,
/// and gives the outcome of that event. Where memory runs out, it is as before.
#[derive(Drop)]
pub struct Agent {
    identity: Identity,
    client: Client,
}

impl Model for Agent {
    ghost use Rattle.faust_agent.specs.State.{Member};
    ghost use Rattle.faust_agent.specs.InRange.{IsClientOf};

    ghost Value = { Member };

    ghost view = { λ a. record { config = a.identity.config; me = a.identity.me; client = a.client } };

    ghost invariant = { λ a. IsClientOf a.identity.config a.identity.me a.client };
}

impl Agent {
    /// Client `me`, from 1 to n, of a run with this config, before any event.
    pub fn new(alloc: Global, config: &Config, me: u8) -> Result<Agent, OutOfMemory>
        requires config { IsConfig config.now }
        requires client { IsClient config.now.clients me }
        ensures { IfOk result (λ agent. agent ≡ first_member config.now me) }
    {
        let key = PreparedKey::new(config.key.as_slice());
        Agent::with_key(alloc, config, me, &key)
    }

    /// The same with the run's key made ready before. Clients whose keys have one book look up what another of them
    /// computed, which changes no answer.
    pub fn with_key(
        alloc: Global,
        config: &Config,
        me: u8,
        key: &PreparedKey,
    ) -> Result<Agent, OutOfMemory>
        requires config { IsConfig config.now }
        requires client { IsClient config.now.clients me }
        requires prepared { key.now ≡ config.now.key }
        ensures { IfOk result (λ agent. agent ≡ first_member config.now me) }
    {
        let identity = Identity::new(config, me, key.copy())?;
        let client = Client::new(alloc, config.clients, me)?;
        Ok(Agent { identity, client })
    }

    /// The user of an idle client begins to write a value of at most 4,096 bytes into its register.
    #[tactic(auto, unfolding(crate::specs::Table::deed_of))]
    pub fn begin_write(&mut self, value: &[u8]) -> Result<Outcome, OutOfMemory>
        requires idle { is_idle self.old.me self.old.client ≡ true }
        requires value { length value.now ≤ 4096 }
        ensures { Steps result self.old self.new (deed_at self.old (asked (write_of self.old.me value.now))) }
    {
        let value = Bytes::from_slice(self.client.allocator(), value)?;
        let order = Order {
            kind: Kind::Write,
            register: self.identity.me,
            value: Some(value),
            dummy: false,
        };
        self.perform(Deed::Begins(order))
    }

    /// The user of an idle client begins to read the register of a client from 1 to n.
    #[tactic(auto, unfolding(crate::specs::Table::deed_of))]
    pub fn begin_read(&mut self, register: u8) -> Result<Outcome, OutOfMemory>
        requires idle { is_idle self.old.me self.old.client ≡ true }
        requires register { IsClient self.old.config.clients register }
        ensures { Steps result self.old self.new (deed_at self.old (asked (read_of register false))) }
    {
        let order = Order {
            kind: Kind::Read,
            register,
            value: None,
            dummy: false,
        };
        self.perform(Deed::Begins(order))
    }

    /// Any bytes come as a reply of the server. A broken check is in the outcome, and the client begins nothing more.
    pub fn on_reply(&mut self, bytes: &[u8]) -> Result<Outcome, OutOfMemory>
        ensures { Steps result self.old self.new (deed_at self.old (replied (reply_in self.old.config bytes.now))) }
    {
        let alloc = self.client.allocator();
        let deed = self.client.at_reply(alloc, &self.identity, bytes)?;
        self.perform(deed)
    }

    /// Any bytes come as a message of another client. What is no such message to this one, rightly tagged, is dropped.
    pub fn on_peer(&mut self, bytes: &[u8]) -> Result<Outcome, OutOfMemory>
        ensures { Steps result self.old self.new (deed_at self.old (told (peer_in self.old.config bytes.now))) }
    {
        let alloc = self.client.allocator();
        let deed = self.client.at_peer(alloc, &self.identity, bytes)?;
        self.perform(deed)
    }

    /// A moment is handed in: probes, a dummy read, and a held COMMIT may be due. One before the last is dropped.
    #[tactic(auto, unfolding(crate::specs::Table::deed_of))]
    pub fn on_tick(&mut self, moment: u64) -> Result<Outcome, OutOfMemory>
        ensures { Steps result self.old self.new (deed_at self.old (ticked moment)) }
    {
        let deed = self.client.at_tick(moment);
        self.perform(deed)
    }

    fn perform(&mut self, deed: Deed) -> Result<Outcome, OutOfMemory>
        requires { IsDeedFor self.old.config self.old.me self.old.client deed }
        ensures { Steps result self.old self.new deed }
    {
        let alloc = self.client.allocator();
        self.client.perform(alloc, &self.identity, deed)
    }

    /// For how many clients the run is.
    pub fn clients(&self) -> u8
        ensures count { result ≡ self.now.config.clients }
        ensures kept { IsMember self.now }
    {
        self.identity.clients()
    }

    /// Its number.
    pub fn me(&self) -> u8
        ensures { result ≡ self.now.me }
    {
        self.identity.me
    }

    /// Whether an operation may begin: none is pending, no check is broken, and the own timestamp is below
    /// 2^40 - 1.
    pub fn is_idle(&self) -> bool
        ensures test { result ≡ is_idle self.now.me self.now.client }
        ensures kept { IsMember self.now }
    {
        self.client
            .is_idle(self.identity.clients(), self.identity.me)
    }

    /// The cut's entry for client j: how many of the own operations it is known to have in common.
    pub fn cut(&self, j: u8) -> u64
        requires { IsClient self.now.config.clients j }
        ensures { result ≡ cut_at self.now.me self.now.client j }
    {
        self.client
            .cut_at(self.identity.clients(), self.identity.me, j)
    }

    /// The greatest known version.
    pub fn greatest(&self) -> &Known
        ensures { result.now ≡ greatest self.now.config.clients self.now.client }
    {
        self.client.greatest(self.identity.clients())
    }

    /// The notice of a broken check, if there is one.
    pub fn notice(&self) -> Option<Notice>
        ensures { result ≡ self.now.client.notice }
    {
        self.client.notice
    }
}
