ghost use Rattle.std.specs.Prelude.{◌≡◌, ◌^◌, ◌<◌, true, false, length, replicate, IfOk, OnOk, OnErr, Some, None};
ghost use Rattle.faust_types.specs.Clients.{IsClientCount, IsClient};
ghost use Rattle.faust_types.specs.Versions.{clients_of};
ghost use Rattle.faust_types.specs.Ranges.{IsSubmitFor, IsCommitFor, IsReplyFor, IsVersionFor};
ghost use Rattle.faust_types.specs.Messages.{unmade, value_of};
ghost use Rattle.faust_types.specs.declared.operation.Kind.TheVariants.{Read};
ghost use Rattle.faust_server.specs.Rows.{client_count, first_state, version_at, turn_at, renewed, remembered, read_part, replied, appended, advanced, settled, submitted_alone, then_submitted, submitted, committed, retaken, Serves, Settles};
ghost use Rattle.faust_server.specs.States.{IsState};
ghost use Rattle.faust_server.specs.TakenBack.{replaced_in, taken_back};

use crate::ahead::is_ahead;
use crate::memory::{copies_of_memory, copy_of_mem, no_memory, refreshed, renewed};
use crate::pending::Pending;
use crate::per_client::PerClient;
use crate::refusal::{OutOfTurn, ServerError};
use crate::turn::Turn;
use faust_types::{
    Commit, Kind, Known, Mem, OutOfMemory, ReadPart, Reply, Submit, Tag, Tuple, Version,
};
use std::alloc::Global;
use std::marker::Model;

/// The honest server of n clients: what they submitted and committed, and whose turn it is to do which.
#[derive(Debug, Drop)]
pub struct Server {
    memory: PerClient<Option<Mem>>,
    versions: PerClient<Known>,
    c: u8,
    pending: Pending,
    proofs: PerClient<Option<Tag>>,
    turns: PerClient<Turn>,
}

/// What a COMMIT of its client replaces, kept until the SUBMIT on which it rides is answered.
#[derive(Debug, Drop)]
struct Replaced {
    c: u8,
    known: Known,
    pending: Pending,
    proof: Option<Tag>,
    turn: Turn,
}

impl Model for Server {
    ghost use Rattle.faust_server.specs.Rows.{State};
    ghost use Rattle.faust_server.specs.States.{IsState};

    ghost Value = { State };

    ghost view = { λ s. record { memory = s.memory; versions = s.versions; c = s.c; pending = s.pending; proofs = s.proofs; turns = s.turns } };

    ghost invariant = { λ s. IsState (record { memory = s.memory; versions = s.versions; c = s.c; pending = s.pending; proofs = s.proofs; turns = s.turns }) };
}

impl Server {
    /// The server of n clients that no message reached.
    pub fn new(alloc: Global, n: u8) -> Result<Server, OutOfMemory>
        requires { IsClientCount n }
        ensures { IfOk result (λ server. server ≡ first_state n) }
    {
        let first = Turn {
            last: 0,
            uncommitted: false,
        };
        Ok(Server {
            memory: PerClient::from_vec(no_memory(alloc, n)?),
            versions: PerClient::from_vec(initial_versions(alloc, n)?),
            c: 1,
            pending: Pending::new(alloc),
            proofs: PerClient::from_vec(Vec::from_elem(alloc, None, usize::from(n))?),
            turns: PerClient::from_vec(Vec::from_elem(alloc, first, usize::from(n))?),
        })
    }

    /// For how many clients the server is.
    pub fn clients(&self) -> u8
        ensures count { result ≡ client_count self.now }
        ensures kept { IsState self.now }
    {
        self.turns.len() as u8
    }

    /// Takes the SUBMIT m of client i, in range for these clients, and answers it. Where a COMMIT rides on it, that is
    /// taken first. A message out of turn is refused; that of the COMMIT where it is the COMMIT that isn't due.
    pub fn submit(&mut self, i: u8, m: Submit) -> Result<Reply, ServerError>
        requires client { IsClient (client_count self.old) i }
        requires message { IsSubmitFor (client_count self.old) m }
        ensures row { Serves result self.old self.new (submitted self.old i m) }
        // Each other client has at most one operation in the reply, and client i none.
        ensures few_pending { IfOk result (λ reply. length reply.pending < client_count self.old) }
        ensures in_range { IfOk result (IsReplyFor (client_count self.old)) }
        ensures count { client_count self.new ≡ client_count self.old }
    {
        let mut m = m;
        match m.commit.take() {
            None => self.submit_alone(i, m),
            Some(commit) => self.submit_behind(i, commit, m),
        }
    }

    /// Takes the COMMIT m of client i, in range for these clients. It takes no memory. A message out of turn is
    /// refused.
    pub fn commit(&mut self, i: u8, m: Commit) -> Result<(), OutOfTurn>
        requires client { IsClient (client_count self.old) i }
        requires message { IsCommitFor (client_count self.old) m }
        ensures row { Settles result self.old self.new (committed self.old i m) }
        ensures count { client_count self.new ≡ client_count self.old }
    {
        self.turn(i).admit_commit(m.version.at(i))?;
        let _replaced = self.take_commit(i, m);
        Ok(())
    }

    /// Sets the turn of client i by hand: its last number, at most 2^40 - 1, and whether that operation is
    /// uncommitted. Where it isn't, nothing of client i is pending. It takes no memory.
    pub fn retake(&mut self, i: u8, last: u64, uncommitted: bool)
        requires client { IsClient (client_count self.old) i }
        requires below { last < 2 ^ 40 }
        ensures row { self.new ≡ retaken self.old i last uncommitted }
        ensures count { client_count self.new ≡ client_count self.old }
    {
        if !uncommitted {
            self.pending.leave(i);
        }
        self.turns.set(i, Turn { last, uncommitted });
    }

    /// An equal server of its own.
    pub fn copy(&self) -> Result<Server, OutOfMemory>
        ensures { IfOk result (λ copy. copy ≡ self.now) }
    {
        let alloc = self.turns.allocator();
        Ok(Server {
            memory: PerClient::from_vec(copies_of_memory(alloc, self.memory.as_slice())?),
            versions: PerClient::from_vec(copies_of_versions(alloc, self.versions.as_slice())?),
            c: self.c,
            pending: self.pending.copy()?,
            proofs: self.proofs.copy()?,
            turns: self.turns.copy()?,
        })
    }

    /// The SUBMIT m, on which no COMMIT rides.
    fn submit_alone(&mut self, i: u8, m: Submit) -> Result<Reply, ServerError>
        requires client { IsClient (client_count self.old) i }
        requires message { IsSubmitFor (client_count self.old) m }
        ensures row { Serves result self.old self.new (submitted_alone self.old i m) }
        ensures count { client_count self.new ≡ client_count self.old }
        ensures kept { IsState self.old }
    {
        self.turn(i).admit_submit(m.t)?;
        let reply = self.reply_to(i, &m)?;
        self.append(i, &m)?;
        self.remember(i, m);
        Ok(reply)
    }

    /// The COMMIT, and behind it the SUBMIT on which it rides. Where the SUBMIT is refused, the COMMIT is taken back.
    fn submit_behind(&mut self, i: u8, commit: Commit, m: Submit) -> Result<Reply, ServerError>
        requires client { IsClient (client_count self.old) i }
        requires riding { IsCommitFor (client_count self.old) commit }
        requires message { IsSubmitFor (client_count self.old) m }
        ensures row { Serves result self.old self.new (then_submitted (committed self.old i commit) i m) }
        ensures count { client_count self.new ≡ client_count self.old }
        ensures kept { IsState self.old }
    {
        self.turn(i).admit_commit(commit.version.at(i))?;
        let before = self.take_riding(i, commit)?;
        match self.submit_alone(i, m) {
            Ok(reply) => Ok(reply),
            Err(refusal) => {
                self.take_back(i, before);
                Err(refusal)
            }
        }
    }

    /// Both steps of a COMMIT in turn, and the version that they replaced.
    fn take_commit(&mut self, i: u8, m: Commit) -> Known
        requires client { IsClient (client_count self.old) i }
        requires message { IsCommitFor (client_count self.old) m }
        ensures row { self.new ≡ settled (advanced self.old i m.version) i m }
        ensures replaced { result ≡ version_at self.old i }
    {
        self.advance(i, &m.version);
        self.settle(i, m)
    }

    /// The same, and all that they replaced. The copy of the list is made first.
    fn take_riding(&mut self, i: u8, m: Commit) -> Result<Replaced, OutOfMemory>
        requires client { IsClient (client_count self.old) i }
        requires message { IsCommitFor (client_count self.old) m }
        ensures ok { OnOk result (self.new ≡ settled (advanced self.old i m.version) i m) }
        ensures replaced { IfOk result (λ before. before ≡ replaced_in self.old i) }
        ensures err { OnErr result (self.new ≡ self.old) }
    {
        let (c, proof, turn) = (self.c, *self.proofs.at(i), *self.turns.at(i));
        let pending = self.pending.copy()?;
        let known = self.take_commit(i, m);
        Ok(Replaced {
            c,
            known,
            pending,
            proof,
            turn,
        })
    }

    /// Puts what a COMMIT of client i replaced in its place again.
    fn take_back(&mut self, i: u8, before: Replaced)
        requires client { IsClient (client_count self.old) i }
        requires kept { IsState (taken_back self.old i before) }
        ensures { self.new ≡ taken_back self.old i before }
    {
        self.c = before.c;
        self.versions.set(i, before.known);
        self.pending = before.pending;
        self.proofs.set(i, before.proof);
        self.turns.set(i, before.turn);
    }

    fn turn(&self, i: u8) -> Turn
        requires { IsClient (client_count self.now) i }
        ensures value { result ≡ turn_at self.now i }
        ensures below { result.last < 2 ^ 40 }
        ensures kept { IsState self.now }
    {
        *self.turns.at(i)
    }

    fn reply_to(&self, i: u8, m: &Submit) -> Result<Reply, OutOfMemory>
        requires client { IsClient (client_count self.now) i }
        requires register { IsClient (client_count self.now) m.now.register }
        ensures { IfOk result (λ reply. reply ≡ replied (remembered self.now i m.now) m.now) }
    {
        let read = match m.kind {
            Kind::Write => None,
            Kind::Read => Some(self.read_part(i, m)?),
        };
        Ok(Reply {
            c: self.c,
            version: self.versions.at(self.c).copy()?,
            pending: self.pending.to_tuples()?,
            proofs: self.proofs.to_sequence()?,
            read,
        })
    }

    fn read_part(&self, i: u8, m: &Submit) -> Result<ReadPart, OutOfMemory>
        requires client { IsClient (client_count self.now) i }
        requires register { IsClient (client_count self.now) m.now.register }
        requires read { m.now.kind ≡ Read }
        ensures { IfOk result (λ part. Some part ≡ read_part (remembered self.now i m.now) Read m.now.register) }
    {
        let j = m.register;
        let held = copy_of_mem(self.memory.at(j))?;
        let mem = if j == i {
            Some(refreshed(held, m.t, m.data_tag))
        } else {
            held
        };
        Ok(ReadPart {
            register: j,
            version: self.versions.at(j).copy()?,
            mem,
        })
    }

    fn remember(&mut self, i: u8, m: Submit)
        requires client { IsClient (client_count self.old) i }
        requires message { IsSubmitFor (client_count self.old) m }
        ensures { self.new ≡ remembered self.old i m }
    {
        let held = self.memory.replace(i, None);
        self.memory.set(i, Some(renewed(held, m)));
    }

    fn append(&mut self, i: u8, m: &Submit) -> Result<(), OutOfMemory>
        requires client { IsClient (client_count self.old) i }
        requires message { IsSubmitFor (client_count self.old) m.now }
        requires committed { (turn_at self.old i).uncommitted ≡ false }
        ensures ok { OnOk result (self.new ≡ appended self.old i m.now) }
        ensures err { OnErr result (self.new ≡ self.old) }
    {
        self.pending.push(Tuple {
            client: i,
            kind: m.kind,
            register: m.register,
            tag: m.submit_tag,
        })?;
        let turn = Turn {
            last: m.t,
            uncommitted: true,
        };
        self.turns.set(i, turn);
        Ok(())
    }

    fn advance(&mut self, i: u8, version: &Version)
        requires client { IsClient (client_count self.old) i }
        requires version { IsVersionFor (client_count self.old) version.now }
        ensures { self.new ≡ advanced self.old i version.now }
    {
        if is_ahead(version, &self.versions.at(self.c).version) {
            self.c = i;
            self.pending.leave_through(i);
        }
    }

    /// The second step of a COMMIT, and the version that it replaced.
    fn settle(&mut self, i: u8, m: Commit) -> Known
        requires client { IsClient (client_count self.old) i }
        requires message { IsCommitFor (client_count self.old) m }
        ensures row { self.new ≡ settled self.old i m }
        ensures replaced { result ≡ version_at self.old i }
    {
        let last = self.turns.at(i).last;
        let turn = Turn {
            last,
            uncommitted: false,
        };
        let (tag, proof_tag) = (m.commit_tag, m.proof_tag);
        let known = Known {
            maker: i,
            version: m.version,
            tag,
        };
        let replaced = self.versions.replace(i, known);
        self.pending.leave(i);
        self.proofs.set(i, Some(proof_tag));
        self.turns.set(i, turn);
        replaced
    }
}

fn initial_versions(alloc: Global, n: u8) -> Result<Vec<Known>, OutOfMemory>
    requires { IsClientCount n }
    ensures { IfOk result (λ list. list.items ≡ replicate n (unmade n)) }
{
    let mut versions = Vec::with_capacity(alloc, usize::from(n))?;
    for _ in 0..n {
        versions.push(Known::initial(alloc, n)?)?;
    }
    Ok(versions)
}

fn copies_of_versions(alloc: Global, versions: &[Known]) -> Result<Vec<Known>, OutOfMemory>
    ensures { IfOk result (λ list. list.items ≡ versions.now) }
{
    let mut copies = Vec::with_capacity(alloc, versions.len())?;
    for known in versions {
        copies.push(known.copy()?)?;
    }
    Ok(copies)
}

#[cfg(test)]
mod tests;
