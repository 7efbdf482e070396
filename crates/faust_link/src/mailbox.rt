ghost use Rattle.faust_link.specs.Frames.{IsFrame};

use crate::parcel::Parcel;
use faust_types::{Bytes, OutOfMemory};
use std::alloc::Global;
use std::collections::VecDeque;

/// What happens to a datagram.
#[derive(Clone, Copy, Debug, PartialEq, Eq)]
enum Fate {
    /// It arrives once, in its turn.
    Once,
    /// It is lost.
    Lost,
    /// It arrives twice.
    Twice,
    /// It arrives behind the next one that is given to the same client.
    Late,
}

/// The datagrams of one client: those that stand there, and those that wait for the next one.
#[derive(Debug, Drop)]
struct Mailbox {
    standing: VecDeque<Parcel>,
    late: Vec<Parcel>,
}

/// The mailboxes of all clients, and what happens to the datagrams in the order in which they are given.
#[derive(Debug, Drop)]
pub struct Office {
    alloc: Global,
    mailboxes: Vec<Mailbox>,
    fates: Bytes,
    given: usize,
}

impl Mailbox {
    /// Takes a datagram in. The room for it comes first, so that want of memory leaves all as before.
    fn put(&mut self, alloc: Global, bytes: &[u8], fate: Fate) -> Result<(), OutOfMemory>
        requires { IsFrame bytes.now }
    {
        self.standing.reserve(self.late.len().saturating_add(2))?;
        match fate {
            Fate::Lost => {}
            Fate::Once => self.standing.push_back(Parcel::new(alloc, bytes, false)?)?,
            Fate::Twice => {
                let first = Parcel::new(alloc, bytes, false)?;
                let second = Parcel::new(alloc, bytes, false)?;
                self.standing.push_back(first)?;
                self.standing.push_back(second)?;
            }
            Fate::Late => {
                self.late.push(Parcel::new(alloc, bytes, false)?)?;
                return Ok(());
            }
        }
        self.release()
    }

    /// Lets those that waited for the next one stand behind it.
    fn release(&mut self) -> Result<(), OutOfMemory> {
        for _ in 0..self.late.len() {
            if let Some(parcel) = self.late.pop() {
                self.standing.push_back(parcel)?;
            }
        }
        Ok(())
    }
}

impl Office {
    /// Empty mailboxes for n clients. The q-th datagram that is given is lost where place q of the fates, counted
    /// from 1, is 1, arrives twice where it is 2, late where it is 3, and else once in its turn.
    pub fn new(alloc: Global, n: u8, fates: &[u8]) -> Result<Office, OutOfMemory> {
        let mut mailboxes = Vec::new(alloc);
        for _ in 0..n {
            mailboxes.push(Mailbox {
                standing: VecDeque::new(alloc),
                late: Vec::new(alloc),
            })?;
        }
        Ok(Office {
            alloc,
            mailboxes,
            fates: Bytes::from_slice(alloc, fates)?,
            given: 0,
        })
    }

    fn next_fate(&self) -> Fate {
        match self.fates.as_slice().get(self.given) {
            Some(1) => Fate::Lost,
            Some(2) => Fate::Twice,
            Some(3) => Fate::Late,
            _ => Fate::Once,
        }
    }

    /// Gives a datagram to a client. One to nobody is lost.
    pub fn give(&mut self, to: u8, bytes: &[u8]) -> Result<(), OutOfMemory>
        requires { IsFrame bytes.now }
    {
        let fate = self.next_fate();
        let to = usize::from(to);
        if 0 < to && to <= self.mailboxes.len() {
            self.mailboxes[to - 1].put(self.alloc, bytes, fate)?;
        }
        self.given = self.given.saturating_add(1);
        Ok(())
    }

    /// Takes the first of the datagrams that stand in the mailbox of a client.
    pub fn take(&mut self, client: u8) -> Option<Parcel> {
        let client = usize::from(client);
        if client == 0 || client > self.mailboxes.len() {
            return None;
        }
        self.mailboxes[client - 1].standing.pop_front()
    }
}
