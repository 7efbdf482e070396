//! What a client does at an event: all checks stand here, and nothing is changed.
ghost use Rattle.std.specs.Prelude.{◌≡◌, IfOk, IfSome};
ghost use Rattle.faust_types.specs.Clients.{IsClient};
ghost use Rattle.faust_types.specs.Versions.{clients_of};
ghost use Rattle.faust_types.specs.Ranges.{IsAnnouncedFor, IsPeerFor};
ghost use Rattle.faust_types.specs.declared.message.Known.{Known};
ghost use Rattle.faust_ustor.specs.InRange.{IsJudgedFor};
ghost use Rattle.faust_agent.specs.Deeds.{peer_in, replied, reply_in, told};
ghost use Rattle.faust_agent.specs.Table.{broken, deed_of, first_unfit, fitted, heeded, heeded_version, is_fitting, ticked_deed};
ghost use Rattle.faust_agent.specs.InRange.{HoldsEach, IsClientOf, IsDeedFor, IsOther};

use crate::client::Client;
use crate::deed::{Completion, Deed};
use crate::identity::Identity;
use crate::reading::{read_peer, read_reply};
use faust_types::{Known, Notice, Operation, OutOfMemory, Peer, Version};
use faust_ustor::{JudgeError, Judged, judge_under};
use std::alloc::Global;

impl Client {
    /// What it does where bytes come from the server: checks 1 to 13 of the reply to its operation.
    #[tactic(auto, unfolding(crate::specs::Table::deed_of))]
    pub fn at_reply(&self, alloc: Global, id: &Identity, bytes: &[u8]) -> Result<Deed, OutOfMemory>
        requires { IsClientOf id.now.config id.now.me self.now }
        ensures deed { IfOk result (λ deed. deed ≡ deed_of id.now.config id.now.me self.now (replied (reply_in id.now.config bytes.now))) }
        ensures in_range { IfOk result (IsDeedFor id.now.config id.now.me self.now) }
    {
        if self.notice.is_some() {
            return Ok(Deed::Ignores);
        }
        let Some(reply) = read_reply(alloc, &id.config, bytes)? else {
            return Ok(broken(1, 0));
        };
        let Some(op) = self.waiting else {
            return Ok(broken(2, 0));
        };
        match judge_under(
            alloc,
            &id.key,
            id.me,
            &self.slot(id.me).version,
            &op,
            &reply,
        ) {
            Ok(judged) => Ok(self.fitted(id.clients(), op, judged)),
            Err(JudgeError::Check { check, place }) => Ok(broken(check, place)),
            Err(JudgeError::OutOfMemory) => Err(OutOfMemory),
        }
    }

    /// What it does where bytes come from another client: checks 14 and 15.
    #[tactic(auto, unfolding(crate::specs::Table::deed_of))]
    pub fn at_peer(&self, alloc: Global, id: &Identity, bytes: &[u8]) -> Result<Deed, OutOfMemory>
        requires { IsClientOf id.now.config id.now.me self.now }
        ensures deed { IfOk result (λ deed. deed ≡ deed_of id.now.config id.now.me self.now (told (peer_in id.now.config bytes.now))) }
        ensures in_range { IfOk result (IsDeedFor id.now.config id.now.me self.now) }
    {
        let Some(message) = read_peer(alloc, &id.config, bytes)? else {
            return Ok(Deed::Ignores);
        };
        if message.to != id.me || !id.is_signed(alloc, &message)? {
            return Ok(Deed::Ignores);
        }
        Ok(self.heeded(id.clients(), id.me, message.from, message.peer))
    }

    /// What it does where a moment is handed in.
    pub fn at_tick(&self, moment: u64) -> Deed
        ensures { result ≡ ticked_deed self.now moment }
    {
        if self.notice.is_none() && self.timers.now <= moment {
            Deed::Ticks(moment)
        } else {
            Deed::Ignores
        }
    }

    // Check 13.
    fn fitted(&self, n: u8, op: Operation, judged: Judged) -> Deed
        requires versions { HoldsEach n self.now.heard }
        requires register { IsClient n op.register }
        requires judged { IsJudgedFor n op.register judged }
        ensures { result ≡ fitted op judged (first_unfit self.now judged.next judged.heard n) }
    {
        match self.first_unfit(n, &judged.next, &judged.heard) {
            None => Deed::Completes(Completion { op, judged }),
            Some(k) => broken(13, u32::from(k)),
        }
    }

    fn heeded(&self, n: u8, me: u8, j: u8, peer: Peer) -> Deed
        requires versions { HoldsEach n self.now.heard }
        requires other { IsOther n me j }
        requires peer { IsPeerFor n peer }
        ensures deed { result ≡ heeded n self.now j peer }
    {
        match peer {
            Peer::Probe => Deed::Answers(j),
            Peer::Version(known) => {
                if self.notice.is_some() {
                    return Deed::Ignores;
                }
                self.heeded_version(n, j, known)
            }
            Peer::Failure(_) => {
                if self.notice.is_some() {
                    return Deed::Ignores;
                }
                broken(15, u32::from(j))
            }
        }
    }

    // Check 14.
    fn heeded_version(&self, n: u8, j: u8, known: Known) -> Deed
        requires versions { HoldsEach n self.now.heard }
        requires known { IsAnnouncedFor n known }
        ensures { result ≡ heeded_version j known (first_unfit self.now known.version None n) }
    {
        match self.first_unfit(n, &known.version, &None) {
            None => Deed::Hears(j, known),
            Some(_) => broken(14, u32::from(j)),
        }
    }

    // The first of n clients whose held version is Apart from one of those that come.
    fn first_unfit(&self, n: u8, next: &Version, heard: &Option<Known>) -> Option<u8>
        requires versions { HoldsEach n self.now.heard }
        requires next { clients_of next.now ≡ n }
        requires heard { IfSome heard.now (λ (known : Known). clients_of known.version ≡ n) }
        ensures { result ≡ first_unfit self.now next.now heard.now n }
    {
        for before in 0..n {
            let k = before + 1;
            if !is_fitting(next, heard, &self.slot(k).version) {
                return Some(k);
            }
        }
        None
    }
}

fn is_fitting(next: &Version, heard: &Option<Known>, held: &Version) -> bool
    requires next { clients_of next.now ≡ clients_of held.now }
    requires heard { IfSome heard.now (λ (known : Known). clients_of known.version ≡ clients_of held.now) }
    ensures { result ≡ is_fitting next.now heard.now held.now }
{
    match heard {
        None => next.is_comparable(held),
        Some(known) => next.is_comparable(held) && known.version.is_comparable(held),
    }
}

fn broken(check: u8, place: u32) -> Deed
    ensures { result ≡ broken check place }
{
    Deed::Breaks(Notice { check, place })
}
