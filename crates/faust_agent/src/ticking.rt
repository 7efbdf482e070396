//! What follows where a moment comes: probes, then a dummy read or the release of a held COMMIT.
ghost use Rattle.std.specs.Prelude.{◌≡◌, true, length, IfOk, IfSome};
ghost use Rattle.faust_types.specs.Clients.{IsClient};
ghost use Rattle.faust_types.specs.Ranges.{IsCommitFor};
ghost use Rattle.faust_agent.specs.State.{is_idle};
ghost use Rattle.faust_agent.specs.Table.{begun_by, begun_or_released, committed_alone, dummy_of, held_after, is_dummy_due, is_probe_due, news_up_to, timers_after};
ghost use Rattle.faust_agent.specs.Outcomes.{Acts, Does, IsProbing, begun_at, commit_released, dummy_begun, spelled_sent};
ghost use Rattle.faust_agent.specs.InRange.{HoldsEach, IsClientOf};
ghost use Rattle.faust_agent.specs.declared.deed.Deed.TheVariants as deeds;

use crate::client::{Client, Timers, other_register_after};
use crate::deed::Order;
use crate::identity::Identity;
use faust_types::{Bytes, Clients, Kind, Numbers, Operation, OutOfMemory, Outcome, Peer, Posts};
use faust_wire::encode_commit;
use std::alloc::Global;

// What goes to the server where the pending operation begins or a COMMIT is released by a tick, and the dummy read
// that began.
#[derive(Drop)]
struct Begun {
    to_server: Option<Bytes>,
    began: Option<Operation>,
}

// The clients that a tick probes, the messages to them, and the news after it.
#[derive(Drop)]
struct Probing {
    probed: Clients,
    posts: Posts,
    news: Numbers,
}

impl Client {
    /// Tick at a moment that isn't before the last one.
    pub fn tick(
        &mut self,
        alloc: Global,
        id: &Identity,
        moment: u64,
    ) -> Result<Outcome, OutOfMemory>
        requires { IsClientOf id.now.config id.now.me self.old }
        ensures { Acts result id.now.config id.now.me self.old self.new (deeds.Ticks moment) }
    {
        let Probing {
            probed,
            posts,
            news,
        } = self.probing(alloc, id, moment)?;
        let timers = self.timers_after(id, moment, news);
        let Begun { to_server, began } = self.begin_or_release(alloc, id, moment)?;
        self.timers = timers;
        let mut outcome = Outcome::nothing(alloc);
        outcome.to_server = to_server;
        outcome.to_peers = posts;
        outcome.probed = probed;
        outcome.began = began;
        Ok(outcome)
    }

    fn probing(&self, alloc: Global, id: &Identity, moment: u64) -> Result<Probing, OutOfMemory>
        requires { length self.now.timers.news ≡ id.now.config.clients }
        ensures { IfOk result (IsProbing id.now.config id.now.me self.now moment id.now.config.clients) }
    {
        let mut probed = Clients::new(alloc);
        let mut posts = Posts::new(alloc);
        let mut news = self.timers.news.copy()?;
        for before in 0..id.clients() {
            let j = before + 1;
            if self.is_probe_due(id, moment, j) {
                probed.push(j)?;
                posts.push(id.post(alloc, j, Peer::Probe)?)?;
                news.set(usize::from(before), moment);
            }
        }
        Ok(Probing {
            probed,
            posts,
            news,
        })
    }

    fn is_probe_due(&self, id: &Identity, moment: u64, j: u8) -> bool
        requires news { length self.now.timers.news ≡ id.now.config.clients }
        requires client { IsClient id.now.config.clients j }
        ensures { result ≡ is_probe_due id.now.config id.now.me self.now moment j }
    {
        let news = *self.timers.news.at(usize::from(j) - 1);
        j != id.me && id.config.delta <= moment.saturating_sub(news)
    }

    fn is_dummy_due(&self, id: &Identity, moment: u64) -> bool
        requires { HoldsEach id.now.config.clients self.now.heard }
        ensures { result ≡ is_dummy_due id.now.config id.now.me self.now moment }
    {
        self.is_idle(id.clients(), id.me)
            && id.config.dummy <= moment.saturating_sub(self.timers.dummy_at)
    }

    fn timers_after(&self, id: &Identity, moment: u64, news: Numbers) -> Timers
        requires kept { IsClientOf id.now.config id.now.me self.now }
        requires news { news ≡ news_up_to id.now.config id.now.me self.now moment id.now.config.clients }
        ensures { result ≡ timers_after id.now.config id.now.me self.now moment }
    {
        let (dummy_at, next_dummy) = if self.is_dummy_due(id, moment) {
            let next = other_register_after(id.clients(), id.me, self.timers.next_dummy);
            (moment, next)
        } else {
            (self.timers.dummy_at, self.timers.next_dummy)
        };
        Timers {
            news,
            now: moment,
            dummy_at,
            next_dummy,
        }
    }

    // The dummy read, or the release of the held COMMIT.
    fn begin_or_release(
        &mut self,
        alloc: Global,
        id: &Identity,
        moment: u64,
    ) -> Result<Begun, OutOfMemory>
        requires { IsClientOf id.now.config id.now.me self.old }
        ensures { let due = begun_at id.now.config id.now.me self.old moment in
            Does result self.old self.new (begun_or_released id.now.config id.now.me self.old moment) due }
    {
        if self.is_dummy_due(id, moment) {
            return self.begin_dummy(alloc, id);
        }
        self.release(alloc, id)
    }

    fn begin_dummy(&mut self, alloc: Global, id: &Identity) -> Result<Begun, OutOfMemory>
        requires kept { IsClientOf id.now.config id.now.me self.old }
        requires idle { is_idle id.now.me self.old ≡ true }
        ensures { let due = dummy_begun id.now.config id.now.me self.old in
            Does result self.old self.new (begun_by id.now.me self.old (dummy_of self.old)) due }
    {
        let order = Order {
            kind: Kind::Read,
            register: self.timers.next_dummy,
            value: None,
            dummy: true,
        };
        let op = self.operation(id.clients(), id.me, &order);
        let bytes = self.begin(alloc, id, order)?;
        Ok(Begun {
            to_server: Some(bytes),
            began: Some(op),
        })
    }

    fn release(&mut self, alloc: Global, id: &Identity) -> Result<Begun, OutOfMemory>
        requires { IfSome self.old.held (IsCommitFor id.now.config.clients) }
        ensures { let due = commit_released id.now.config self.old in
            Does result self.old self.new (record self.old { held = held_after self.old }) due }
    {
        let mut to_server = None;
        if self.waiting.is_none() {
            to_server = self.spelled_commit(alloc, id)?;
            self.held = None;
        }
        Ok(Begun {
            to_server,
            began: None,
        })
    }

    fn spelled_commit(&self, alloc: Global, id: &Identity) -> Result<Option<Bytes>, OutOfMemory>
        requires { IfSome self.now.held (IsCommitFor id.now.config.clients) }
        ensures { IfOk result (λ bytes. bytes ≡ spelled_sent id.now.config.wire (committed_alone self.now.held)) }
    {
        match &self.held {
            None => Ok(None),
            Some(commit) => {
                let bytes = encode_commit(
                    alloc,
                    id.config.wire,
                    &commit.version,
                    &commit.commit_tag,
                    &commit.proof_tag,
                )?;
                Ok(Some(bytes))
            }
        }
    }
}
