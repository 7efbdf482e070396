ghost use Rattle.std.specs.Prelude.{◌≡◌, ◌≢◌, ◌↔◌, ◌+◌, Err, IfOk, OnOk, OnErr, Contains};
ghost use Rattle.faust_io.specs.Faults.{CountsFault};
ghost use Rattle.faust_io.specs.Calls.{next};
ghost use Rattle.faust_link.specs.Counts.{CountsLink, CountsBack};
ghost use Rattle.faust_link.specs.MemoryNet.{new_net};

use crate::answers::LinkError;
use crate::lines::{Lines, Place};
use crate::mailbox::Office;
use crate::memory_post::{MemPostIn, MemPostOut};
use crate::memory_stream::{MemIn, MemOut};
use crate::net::Net;
use crate::pipe::Pipe;
use crate::streams::{FrameIn, FrameOut};
use faust_types::{Numbers, OutOfMemory};
use std::alloc::Global;
use std::collections::VecDeque;
use std::marker::Model;
use std::sync::{Arc, Mutex, Wait};

/// The two ends of a stream that one side has, of which no call failed yet.
#[derive(Drop)]
struct Side<R> {
    input: MemIn<R>,
    output: MemOut<R>,
    ghost fresh: { (input.faults ≡ 0) × (output.faults ≡ 0) },
}

impl<R: Wait> Side<R> {
    fn into_ends(self) -> (MemIn<R>, MemOut<R>)
        ensures input { result.0.faults ≡ 0 }
        ensures output { result.1.faults ≡ 0 }
    {
        (self.input, self.output)
    }
}

/// A net in memory, whose streams and posts threads share. Its streams lose nothing; its datagrams are lost,
/// repeated and overtaken by a list. A stream takes frames that nobody reads.
#[derive(Drop)]
pub struct MemNet<R> {
    rt: R,
    alloc: Global,
    clients: u8,
    lines: Arc<Lines, Global>,
    office: Arc<Mutex<Office>, Global>,
    connected: VecDeque<Side<R>>,
    fails: Numbers,
    connects: u64,
    faults: u64,
}

impl<R> Model for MemNet<R> {
    ghost use Rattle.std.specs.Prelude.{length};
    ghost use Rattle.faust_link.specs.MemoryNet.{NetView};

    ghost Value = { NetView };

    ghost view = { λ net. record {
      clients = net.clients;
      failing = net.fails;
      connects = net.connects;
      waiting = length net.connected.items;
      faults = net.faults;
    } };
}

impl<R: Wait + Copy> MemNet<R> {
    /// A net for n clients whose `connect` calls with the listed numbers, counted from 1, fail. The q-th datagram
    /// that is given is lost where place q of `posts`, counted from 1, is 1, arrives twice where it is 2, behind
    /// the next one given to the same client where it is 3, and else once in its turn.
    pub fn new(
        rt: R,
        alloc: Global,
        n: u8,
        fails: &[u64],
        posts: &[u8],
    ) -> Result<MemNet<R>, OutOfMemory>
        ensures { IfOk result (λ net. net ≡ new_net n fails.now) }
    {
        Ok(MemNet {
            rt,
            alloc,
            clients: n,
            lines: Arc::new(alloc, Lines::new(alloc, n))?,
            office: Arc::new(alloc, Mutex::new(Office::new(alloc, n, posts)?))?,
            connected: VecDeque::new(alloc),
            fails: Numbers::from_slice(alloc, fails)?,
            connects: 0,
            faults: 0,
        })
    }

    /// How many calls failed, and how many links and posts came back with a count.
    pub fn faults(&self) -> u64
        ensures { result ≡ self.now.faults }
    {
        self.faults
    }

    /// From now on the first frame to each client waits until every client has sent two frames to the server. A
    /// `recv` that has looked 10,000,000 times in vain fails. It takes no memory.
    pub fn meet(&mut self)
        ensures { self.new ≡ self.old }
    {
        self.lines.meet();
    }

    /// Changes the lowest bit of the last byte of the `call`-th frame, counted from 1, that goes to the server
    /// from this client, or to this client. It is no fault.
    pub fn flip(&mut self, client: u8, to_server: bool, call: usize) -> Result<(), OutOfMemory>
        ensures { self.new ≡ self.old }
    {
        self.lines.flip(
            &self.rt,
            Place {
                client,
                to_server,
                call,
            },
        )
    }

    fn fail(&mut self) -> LinkError
        ensures answer { result ≡ LinkError.Failed }
        ensures same { self.new ≡ record self.old { faults = self.new.faults } }
        ensures count { CountsFault self.old.faults self.new.faults }
    {
        self.faults = self.faults.saturating_add(1);
        LinkError::Failed
    }

    /// Raises the count where that of a link isn't 0.
    fn take_back(&mut self, faults: u64)
        ensures { CountsBack faults self.old.faults self.new.faults }
    {
        if faults != 0 {
            self.faults = self.faults.saturating_add(1);
        }
    }

    /// One side of a stream of client i: what comes in by one pipe and goes out by the other.
    fn side(
        &self,
        i: u8,
        input: Arc<Pipe, Global>,
        output: Arc<Pipe, Global>,
        is_client: bool,
    ) -> Result<Side<R>, OutOfMemory> {
        Ok(Side {
            input: MemIn::new(self.rt, input, self.lines.clone()?, is_client),
            output: MemOut::new(
                self.rt,
                self.alloc,
                output,
                self.lines.clone()?,
                i,
                is_client,
            ),
        })
    }

    /// Makes the stream of client i, and lets the server's side wait to be accepted.
    fn stream(&mut self, i: u8) -> Result<Side<R>, OutOfMemory>
        ensures ok { OnOk result (self.new ≡ record self.old { waiting = self.old.waiting + 1 }) }
        ensures err { OnErr result (self.new ≡ self.old) }
    {
        let up = Arc::new(self.alloc, Pipe::new(self.alloc))?;
        let down = Arc::new(self.alloc, Pipe::new(self.alloc))?;
        let server = self.side(i, up.clone()?, down.clone()?, false)?;
        let client = self.side(i, down, up, true)?;
        self.connected.push_back(server)?;
        Ok(client)
    }

    /// The ends of the post of client i.
    fn mailbox(&self, i: u8) -> Result<(MemPostIn<R>, MemPostOut<R>), OutOfMemory> {
        Ok((
            MemPostIn::new(self.rt, self.office.clone()?, i),
            MemPostOut::new(self.rt, self.office.clone()?),
        ))
    }
}

impl<R: Wait + Copy + Send> Net for MemNet<R> {
    type In = MemIn<R>;

    type Out = MemOut<R>;

    type Pin = MemPostIn<R>;

    type Pout = MemPostOut<R>;

    ghost faults = { λ net. net.faults };

    fn listen(&mut self, n: u8) -> Result<(), LinkError>
        ensures faults { CountsLink result self.old.faults self.new.faults }
        ensures refused { result ≡ Err LinkError.Failed ↔ (n ≢ self.old.clients) }
    {
        if n != self.clients {
            return Err(self.fail());
        }
        Ok(())
    }

    fn connect(&mut self, i: u8) -> Result<(MemIn<R>, MemOut<R>), LinkError>
        ensures faults { CountsLink result self.old.faults self.new.faults }
        ensures in_fresh { IfOk result (λ ends. ⟦<MemIn<R> as FrameIn>⟧.faults ends.0 ≡ 0) }
        ensures out_fresh { IfOk result (λ ends. ⟦<MemOut<R> as FrameOut>⟧.faults ends.1 ≡ 0) }

        // The listed calls fail, and no others.
        ensures listed { result ≡ Err LinkError.Failed ↔ Contains self.old.failing (next self.old.connects) }
        ensures counted { self.new.connects ≡ next self.old.connects }
        ensures waits { OnOk result (self.new.waiting ≡ self.old.waiting + 1) }
    {
        self.connects = self.connects.saturating_add(1);
        if self.fails.as_slice().contains(&self.connects) {
            return Err(self.fail());
        }
        Ok(self.stream(i)?.into_ends())
    }

    fn accept(&mut self) -> Result<(MemIn<R>, MemOut<R>), LinkError>
        ensures faults { CountsLink result self.old.faults self.new.faults }
        ensures in_fresh { IfOk result (λ ends. ⟦<MemIn<R> as FrameIn>⟧.faults ends.0 ≡ 0) }
        ensures out_fresh { IfOk result (λ ends. ⟦<MemOut<R> as FrameOut>⟧.faults ends.1 ≡ 0) }

        // It fails where no stream waits.
        ensures none { result ≡ Err LinkError.Failed ↔ (self.old.waiting ≡ 0) }
        ensures taken { OnOk result (self.new.waiting + 1 ≡ self.old.waiting) }
    {
        match self.connected.pop_front() {
            Some(server) => Ok(server.into_ends()),
            None => Err(self.fail()),
        }
    }

    fn post(&mut self, i: u8) -> Result<(MemPostIn<R>, MemPostOut<R>), LinkError> {
        Ok(self.mailbox(i)?)
    }

    fn back_in(&mut self, link: MemIn<R>) {
        self.take_back(link.faults());
    }

    fn back_out(&mut self, link: MemOut<R>) {
        self.take_back(link.faults());
    }

    fn back_pin(&mut self, _post: MemPostIn<R>) {}

    fn back_pout(&mut self, _post: MemPostOut<R>) {}
}
