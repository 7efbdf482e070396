//! What one pass over a run keeps of each client, and what an entry gives: read off its outcome, without a tag.
ghost use Rattle.std.specs.Prelude.{◌≡◌, None, IfOk, IfSome};
ghost use Rattle.faust_types.specs.Clients.{IsClient, IsClientCount};
ghost use Rattle.faust_types.specs.Versions.{clients_of, initial};

use crate::book::Book;
use crate::completion::complete;
use crate::hashed_input::Hashed;
use faust_record::{Entry, Input};
use faust_types::{Digest, Kind, OpName, Operation, OutOfMemory, Reply, Sequence, Version};
use std::alloc::Global;

/// Of one client: its own version, the digest of the value that it submitted last, and the operation that it waits for.
#[derive(Debug, Drop)]
pub struct Watched {
    pub own: Version,
    pub last: Option<Digest>,
    pub waiting: Option<Operation>,
}

/// An operation that begins, with the digest of the value that a write submits.
#[derive(Debug, Drop)]
pub struct Beginning {
    pub op: Operation,
    pub written: Option<Digest>,
}

/// What an entry changes in what is kept of its client.
#[derive(Debug, Drop)]
pub enum Move {
    Begins(Beginning),
    Completes(Version),
    Stays,
}

/// What is seen of an entry: the change, and what was hashed, unless a check broke.
#[derive(Debug, Drop)]
pub struct Seen {
    pub moved: Move,
    pub hashed: Sequence<Hashed>,
}

impl Watched {
    ghost use Rattle.faust_audit.specs.Watching.{IsCameFor, IsMoveFor, next_operation, seen_by, watched_after, write_seen};

    /// A client of n, before any entry.
    pub fn new(alloc: Global, n: u8) -> Result<Watched, OutOfMemory>
        requires { IsClientCount n }
        ensures { IfOk result (λ watched. watched ≡ record { own = initial n; last = None; waiting = None }) }
    {
        Ok(Watched {
            own: Version::initial(alloc, n)?,
            last: None,
            waiting: None,
        })
    }

    fn next_operation(&self, me: u8, kind: Kind, register: u8) -> Operation
        requires { IsClient (clients_of self.now.own) me }
        ensures { result ≡ next_operation me self.now kind register }
    {
        Operation {
            name: OpName {
                client: me,
                t: self.own.at(me) + 1,
            },
            kind,
            register,
            dummy: false,
        }
    }

    /// What an entry of client `me` gives, with which this REPLY comes or none.
    pub fn see(
        &self,
        alloc: Global,
        book: &mut Book,
        me: u8,
        entry: &Entry,
        reply: &Option<Reply>,
    ) -> Result<Seen, OutOfMemory>
        requires client { IsClient (clients_of self.now.own) me }
        requires reply { IfSome reply.now (IsCameFor (clients_of self.now.own)) }
        ensures seen { IfOk result (λ seen. seen ≡ seen_by me self.now entry.now.input entry.now.outcome reply.now) }
        ensures moved { IfOk result (λ seen. IsMoveFor (clients_of self.now.own) seen.moved) }
    {
        match &entry.input {
            Input::Write(value) => self.see_write(alloc, book, me, value.as_slice()),
            Input::Read(register) => {
                let op = self.next_operation(me, Kind::Read, *register);
                Ok(Seen::begins(alloc, op))
            }
            Input::Reply(_) => match (reply, entry.outcome.answer()) {
                (Some(reply), Some(_)) => complete(alloc, book, me, reply),
                _ => Ok(Seen::nothing(alloc)),
            },
            Input::Tick(_) => match entry.outcome.began() {
                Some(op) => Ok(Seen::begins(alloc, op)),
                None => Ok(Seen::nothing(alloc)),
            },
            Input::Peer(_) | Input::Arrive(_) => Ok(Seen::nothing(alloc)),
        }
    }

    #[tactic(auto, unfolding(faust_hash::specs::Chain::value_digest_of, faust_hash::specs::Chain::input_digest))]
    fn see_write(
        &self,
        alloc: Global,
        book: &mut Book,
        me: u8,
        value: &[u8],
    ) -> Result<Seen, OutOfMemory>
        requires { IsClient (clients_of self.now.own) me }
        ensures { IfOk result (λ seen. seen ≡ write_seen me self.now value.now) }
    {
        let hashed = book.value(alloc, value)?;
        let written = Some(*hashed.digest());
        let op = self.next_operation(me, Kind::Write, me);
        let mut all = Sequence::new(alloc);
        all.push(hashed)?;
        Ok(Seen {
            moved: Move::Begins(Beginning { op, written }),
            hashed: all,
        })
    }

    /// Keeps what the entry changed.
    pub fn go_on(&mut self, moved: Move)
        ensures { self.new ≡ watched_after self.old moved }
    {
        match moved {
            Move::Begins(begins) => {
                if begins.written.is_some() {
                    self.last = begins.written;
                }
                self.waiting = Some(begins.op);
            }
            Move::Completes(next) => {
                self.own = next;
                self.waiting = None;
            }
            Move::Stays => {}
        }
    }
}

impl Seen {
    ghost use Rattle.faust_audit.specs.Watching.{begin_seen, nothing_seen};

    /// Nothing changed.
    pub fn nothing(alloc: Global) -> Seen
        ensures { result ≡ nothing_seen }
    {
        Seen {
            moved: Move::Stays,
            hashed: Sequence::new(alloc),
        }
    }

    fn begins(alloc: Global, op: Operation) -> Seen
        ensures { result ≡ begin_seen op }
    {
        Seen {
            moved: Move::Begins(Beginning { op, written: None }),
            hashed: Sequence::new(alloc),
        }
    }
}
