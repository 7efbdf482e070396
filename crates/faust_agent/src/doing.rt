//! What follows of what a client does: it holds another state, and gives messages, an answer, a cut, a notice.
//! All that may fail comes before the first change.
ghost use Rattle.std.specs.Prelude.{◌≡◌, false, true, length, IfOk, IfSome, map};
ghost use Rattle.faust_types.specs.Clients.{IsClient, IsClientCount};
ghost use Rattle.faust_types.specs.Versions.{clients_of, is_initial};
ghost use Rattle.faust_types.specs.Ranges.{IsCheck, IsCommitFor, IsPeerFor};
ghost use Rattle.faust_types.specs.declared.message.Known.{Known};
ghost use Rattle.faust_types.specs.declared.operation.Notice.{Notice};
ghost use Rattle.faust_types.specs.declared.message.Peer.TheVariants as peers;
ghost use Rattle.faust_wire.specs.Grammar.{submit_bytes};
ghost use Rattle.faust_agent.specs.State.{is_idle};
ghost use Rattle.faust_agent.specs.Table.{after, announced, begun_by, begun_or_released, commit_held, commit_sent, committed_alone, dummy_of, heard_by, held_after, is_dummy_due, is_probe_due, last_after, message_to, news_up_to, operation_of, others_up_to, own_tag, probe_answer, submit_of, timers_after, with_news, with_read, with_slot};
ghost use Rattle.faust_agent.specs.Outcomes.{Acts, Does, IsProbing, begun_at, commit_released, dummy_begun, outcome_of, spelled_post, spelled_sent};
ghost use Rattle.faust_agent.specs.InRange.{HoldsEach, IsBegunFor, IsClientOf, IsCompletionOf, IsDeedFor, IsOther};
ghost use Rattle.faust_agent.specs.declared.deed.Deed.TheVariants as deeds;

use crate::client::{Client, is_less};
use crate::deed::{Completion, Deed, Order};
use crate::identity::Identity;
use faust_hash::value_digest;
use faust_types::{
    Answer, Bytes, Clients, Commit, Cut, Digest, Kind, Known, Message, Notice, Numbers, OpName,
    Operation, OutOfMemory, Outcome, Peer, Post, Posts, Submit, Tag, Version,
};
use faust_ustor::Judged;
use faust_wire::{encode, encode_commit};
use std::alloc::Global;

impl Client {
    /// Does what it decided to do at an event.
    #[tactic(auto, unfolding(crate::specs::Outcomes::outcome_of))]
    pub fn perform(
        &mut self,
        alloc: Global,
        id: &Identity,
        deed: Deed,
    ) -> Result<Outcome, OutOfMemory>
        requires kept { IsClientOf id.now.config id.now.me self.old }
        requires deed { IsDeedFor id.now.config id.now.me self.old deed }
        ensures { let due = outcome_of id.now.config id.now.me self.old deed in
            Does result self.old self.new (after id.now.config id.now.me self.old deed) due }
    {
        let n = id.clients();
        let before = self.cut(alloc, n, id.me)?;
        let mut cut = before.copy()?;
        let mut outcome = self.act(alloc, id, deed)?;
        self.put_cut(n, id.me, &mut cut);
        outcome.cut = announced(&before, cut);
        Ok(outcome)
    }

    // All but the cut.
    fn act(&mut self, alloc: Global, id: &Identity, deed: Deed) -> Result<Outcome, OutOfMemory>
        requires kept { IsClientOf id.now.config id.now.me self.old }
        requires deed { IsDeedFor id.now.config id.now.me self.old deed }
        ensures { Acts result id.now.config id.now.me self.old self.new deed }
    {
        match deed {
            Deed::Ignores => Ok(Outcome::nothing(alloc)),
            Deed::Begins(order) => self.begin_alone(alloc, id, order),
            Deed::Completes(done) => self.complete(alloc, id, done),
            Deed::Breaks(notice) => self.break_off(alloc, id, notice),
            Deed::Answers(j) => self.answer(alloc, id, j),
            Deed::Hears(j, known) => {
                self.hear(id.clients(), j, known);
                Ok(Outcome::nothing(alloc))
            }
            Deed::Ticks(moment) => self.tick(alloc, id, moment),
        }
    }

    /// Begin, and the bytes of its SUBMIT.
    pub fn begin(
        &mut self,
        alloc: Global,
        id: &Identity,
        order: Order,
    ) -> Result<Bytes, OutOfMemory>
        requires kept { IsClientOf id.now.config id.now.me self.old }
        requires begun { IsBegunFor id.now.config id.now.me self.old order }
        ensures { let due = submit_bytes id.now.config.wire (submit_of id.now.config id.now.me self.old order) in
            Does result self.old self.new (begun_by id.now.me self.old order) due }
    {
        let n = id.clients();
        let op = self.operation(n, id.me, &order);
        let t = op.name.t;
        let last = last_after(self.last, &order.value);
        let submit = Submit {
            kind: order.kind,
            register: order.register,
            t,
            value: order.value,
            submit_tag: id.submit_tag(order.kind, order.register, t),
            data_tag: id.data_tag(t, last.as_ref()),
            commit: copy_of_commit(&self.held)?,
        };
        let bytes = encode(alloc, id.config.wire, n, &Message::Submit(submit))?;
        self.last = last;
        self.waiting = Some(op);
        self.held = None;
        Ok(bytes)
    }

    /// The operation that begins.
    pub fn operation(&self, n: u8, me: u8, order: &Order) -> Operation
        requires versions { HoldsEach n self.now.heard }
        requires client { IsClient n me }
        requires idle { is_idle me self.now ≡ true }
        ensures { result ≡ operation_of me self.now order.now }
    {
        Operation {
            name: OpName {
                client: me,
                t: self.completed_count(n, me) + 1,
            },
            kind: order.kind,
            register: order.register,
            dummy: order.dummy,
        }
    }

    fn begin_alone(
        &mut self,
        alloc: Global,
        id: &Identity,
        order: Order,
    ) -> Result<Outcome, OutOfMemory>
        requires kept { IsClientOf id.now.config id.now.me self.old }
        requires begun { IsBegunFor id.now.config id.now.me self.old order }
        ensures { Acts result id.now.config id.now.me self.old self.new (deeds.Begins order) }
    {
        let bytes = self.begin(alloc, id, order)?;
        let mut outcome = Outcome::nothing(alloc);
        outcome.to_server = Some(bytes);
        Ok(outcome)
    }

    // Reply, where no check is broken.
    fn complete(
        &mut self,
        alloc: Global,
        id: &Identity,
        done: Completion,
    ) -> Result<Outcome, OutOfMemory>
        requires kept { IsClientOf id.now.config id.now.me self.old }
        requires done { IsCompletionOf id.now.config id.now.me self.old done }
        ensures { Acts result id.now.config id.now.me self.old self.new (deeds.Completes done) }
    {
        let n = id.clients();
        let Completion { op, judged } = done;
        let Judged {
            next,
            value,
            asof,
            heard,
        } = judged;
        let tag = id.commit_tag(alloc, &next)?;
        let to_server = self.commit(alloc, id, &next, tag)?;
        self.move_on(n, id.me, next, tag);
        self.hear_read(n, id.me, op.register, heard);
        let mut outcome = Outcome::nothing(alloc);
        outcome.to_server = to_server;
        outcome.answer = Some(Answer { op, value, asof });
        Ok(outcome)
    }

    // COMMIT goes to the server, or is held.
    fn commit(
        &mut self,
        alloc: Global,
        id: &Identity,
        next: &Version,
        commit_tag: Tag,
    ) -> Result<Option<Bytes>, OutOfMemory>
        requires sized { clients_of next.now ≡ id.now.config.clients }
        requires made { is_initial next.now ≡ false }
        requires tag { commit_tag ≡ own_tag id.now.config id.now.me next.now }
        ensures { let due = spelled_sent id.now.config.wire (commit_sent id.now.config id.now.me next.now) in
            Does result self.old self.new (record self.old { held = commit_held id.now.config id.now.me self.old next.now }) due }
    {
        let proof_tag = id.proof_tag(next);
        if id.config.wire == 1 {
            let bytes = encode_commit(alloc, id.config.wire, next, &commit_tag, &proof_tag)?;
            return Ok(Some(bytes));
        }
        self.held = Some(Commit {
            version: next.copy()?,
            commit_tag,
            proof_tag,
        });
        Ok(None)
    }

    // The own version becomes the next one, and the operation is complete.
    fn move_on(&mut self, n: u8, me: u8, next: Version, tag: Tag)
        requires counted { length self.old.heard ≡ n }
        requires client { IsClient n me }
        ensures { self.new ≡ record (with_slot self.old me (record { maker = me; version = next; tag = tag })) { waiting = None } }
    {
        let known = Known {
            maker: me,
            version: next,
            tag,
        };
        self.heard.set(usize::from(me) - 1, known);
        self.waiting = None;
    }

    // The version of j that a read told.
    fn hear_read(&mut self, n: u8, me: u8, j: u8, heard: Option<Known>)
        requires versions { HoldsEach n self.old.heard }
        requires news { length self.old.timers.news ≡ n }
        requires register { IsClient n j }
        requires heard { IfSome heard (λ (known : Known). clients_of known.version ≡ n) }
        ensures { self.new ≡ with_read me self.old j heard }
    {
        if let Some(known) = heard
            && j != me
            && is_less(&self.slot(j).version, &known.version)
        {
            self.heard.set(usize::from(j) - 1, known);
            self.note_news(n, j);
        }
    }

    fn note_news(&mut self, n: u8, j: u8)
        requires news { length self.old.timers.news ≡ n }
        requires client { IsClient n j }
        ensures { self.new ≡ with_news self.old j }
    {
        let now = self.timers.now;
        self.timers.news.set(usize::from(j) - 1, now);
    }

    // Broken check.
    fn break_off(
        &mut self,
        alloc: Global,
        id: &Identity,
        notice: Notice,
    ) -> Result<Outcome, OutOfMemory>
        requires { IsCheck notice.check }
        ensures { Acts result id.now.config id.now.me self.old self.new (deeds.Breaks notice) }
    {
        let posts = failures(alloc, id, notice.check)?;
        self.notice = Some(notice);
        let mut outcome = Outcome::nothing(alloc);
        outcome.to_peers = posts;
        outcome.notice = Some(notice);
        Ok(outcome)
    }

    // A PROBE from client j.
    fn answer(&mut self, alloc: Global, id: &Identity, j: u8) -> Result<Outcome, OutOfMemory>
        requires kept { IsClientOf id.now.config id.now.me self.old }
        requires other { IsOther id.now.config.clients id.now.me j }
        ensures { Acts result id.now.config id.now.me self.old self.new (deeds.Answers j) }
    {
        let peer = self.probe_answer(id.clients())?;
        let post = id.post(alloc, j, peer)?;
        let mut outcome = Outcome::nothing(alloc);
        outcome.to_peers.push(post)?;
        Ok(outcome)
    }

    fn probe_answer(&self, n: u8) -> Result<Peer, OutOfMemory>
        requires versions { HoldsEach n self.now.heard }
        requires notice { IfSome self.now.notice (λ (notice : Notice). IsCheck notice.check) }
        ensures answer { IfOk result (λ peer. peer ≡ probe_answer n self.now self.now.notice) }
        ensures in_range { IfOk result (IsPeerFor n) }
    {
        match self.notice {
            Some(notice) => Ok(Peer::Failure(notice.check)),
            None => Ok(Peer::Version(self.greatest(n).copy()?)),
        }
    }

    // A VERSION from client j.
    fn hear(&mut self, n: u8, j: u8, known: Known)
        requires versions { HoldsEach n self.old.heard }
        requires news { length self.old.timers.news ≡ n }
        requires client { IsClient n j }
        requires sized { clients_of known.version ≡ n }
        ensures { self.new ≡ heard_by self.old j known }
    {
        if is_less(&self.slot(j).version, &known.version) {
            self.heard.set(usize::from(j) - 1, known);
        }
        self.note_news(n, j);
    }
}

fn last_after(last: Option<Digest>, value: &Option<Bytes>) -> Option<Digest>
    ensures { result ≡ last_after last value.now }
{
    match value {
        None => last,
        Some(value) => Some(value_digest(value.as_slice())),
    }
}

fn copy_of_commit(held: &Option<Commit>) -> Result<Option<Commit>, OutOfMemory>
    ensures { IfOk result (λ copy. copy ≡ held.now) }
{
    match held {
        None => Ok(None),
        Some(commit) => Ok(Some(commit.copy()?)),
    }
}

// FAILURE to every other client.
fn failures(alloc: Global, id: &Identity, check: u8) -> Result<Posts, OutOfMemory>
    requires { IsCheck check }
    ensures { let others = others_up_to id.now.me id.now.config.clients in
        let messages = map (message_to id.now.config id.now.me (peers.Failure check)) others in
        IfOk result (λ posts. posts ≡ map (spelled_post id.now.config.wire) messages) }
{
    let mut posts = Posts::new(alloc);
    for before in 0..id.clients() {
        let j = before + 1;
        if j != id.me {
            posts.push(id.post(alloc, j, Peer::Failure(check))?)?;
        }
    }
    Ok(posts)
}

fn announced(before: &Cut, cut: Cut) -> Option<Cut>
    ensures { result ≡ announced before.now cut }
{
    if before.as_slice() == cut.as_slice() {
        None
    } else {
        Some(cut)
    }
}
