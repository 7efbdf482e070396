// A host: its cell under a lock, and the loop over one connection.
ghost use Rattle.std.specs.Prelude.{◌≡◌, IfOk, IfErr, IfSome, MatchResult};
ghost use Rattle.faust_types.specs.Clients.{IsClientCount, IsClient};
ghost use Rattle.faust_types.specs.declared.arrival.Closing.TheVariants as closings;
ghost use Rattle.faust_ticket.specs.Holders.{first_seat};
ghost use Rattle.faust_host.specs.Arriving.{AreServed};
ghost use Rattle.faust_io.specs.Faults.{CountsFault};
ghost use Rattle.faust_link.specs.Frames.{IsFrame};
ghost use Rattle.faust_host.specs.Cells.{Names};
ghost use Rattle.faust_host.specs.Connections.{StoppedBy, ends_at, inlet_at};
ghost use Rattle.faust_host.specs.Rounds.{Greets, Rounds, StopsBehind, TakesOne, TellsOf, SendStopped, stop_of};

use crate::gate::Gate;
use crate::greeting::client_in;
use crate::host_cell::HostCell;
use crate::service::Service;
use faust_link::{FrameIn, FrameOut, Got, LinkError};
use faust_ticket::Seat;
use faust_types::{Arrivals, Bytes, Closing, OutOfMemory};
use std::alloc::Global;
use std::sync::{Mutex, Wait};

/// What lies under the lock: a cell for as many clients as T names.
#[derive(Drop)]
struct Guarded<T: Service> {
    cell: HostCell<T>,
    ghost clients: { cell.clients ≡ T.clients },
}

/// The server's host. Each connection is served by a thread of its own, and each change of the cell is one call under the lock.
#[derive(Drop)]
pub struct Host<T: Service> {
    alloc: Global,
    clients: u8,
    guarded: Mutex<Guarded<T>>,
    ghost named: { clients ≡ T.clients },
    ghost count: { IsClientCount clients },
}

impl<T: Service> Host<T> {
    /// A host for n clients, as many as T names, at which nothing arrived. The seat is as it was split off.
    pub fn new(alloc: Global, n: u8, seat: Seat<T>) -> Result<Host<T>, OutOfMemory>
        requires count { IsClientCount n }
        requires named { n ≡ T.clients }
        requires seat { seat ≡ first_seat }
    {
        Ok(Host {
            alloc,
            clients: n,
            guarded: Mutex::new(Guarded {
                cell: HostCell::new(alloc, n, seat)?,
            }),
        })
    }

    /// Serves one connection: HELLO names its client, and each frame after it is handled and its reply sent behind the gate. It
    /// stops at the first cause to stop, answers that, and closes the output.
    pub fn serve<R: Wait, I: FrameIn, O: FrameOut, G: Gate>(
        &self,
        rt: &R,
        input: &mut I,
        output: &mut O,
        gate: &G,
    ) -> Closing
        ensures { StoppedBy T.clients (ends_at (I.left input.old) (I.ends input.old) (I.faults input.old) (O.faults output.old))
            (ends_at (I.left input.new) (I.ends input.new) (I.faults input.new) (O.faults output.new)) result }
    {
        let closing = self.serve_all(rt, input, output, gate);
        output.close();
        closing
    }

    /// The same, and leaves the output open.
    fn serve_all<R: Wait, I: FrameIn, O: FrameOut, G: Gate>(
        &self,
        rt: &R,
        input: &mut I,
        output: &mut O,
        gate: &G,
    ) -> Closing
        ensures { StoppedBy T.clients (ends_at (I.left input.old) (I.ends input.old) (I.faults input.old) (O.faults output.old))
            (ends_at (I.left input.new) (I.ends input.new) (I.faults input.new) (O.faults output.new)) result }
    {
        let mut frame = Bytes::new(self.alloc);
        match self.greeted(rt, input, &mut frame) {
            Ok(client) => self.answer_all(rt, client, input, output, gate, frame),
            Err(closing) => closing,
        }
    }

    /// Takes the first frame, and names its client.
    fn greeted<R: Wait, I: FrameIn>(
        &self,
        rt: &R,
        input: &mut I,
        frame: &mut Bytes,
    ) -> Result<u8, Closing>
        ensures in_range { IfOk result (IsClient T.clients) }
        ensures greets { Greets T.clients result (inlet_at (I.left input.old) (I.ends input.old) (I.faults input.old))
            (inlet_at (I.left input.new) (I.ends input.new) (I.faults input.new)) }
    {
        take_frame(input, frame)?;
        let client = client_in(self.alloc, self.clients, frame.as_slice())?;
        self.name(rt, client)?;
        Ok(client)
    }

    /// Answers requests of this client until something stops it.
    fn answer_all<R: Wait, I: FrameIn, O: FrameOut, G: Gate>(
        &self,
        rt: &R,
        client: u8,
        input: &mut I,
        output: &mut O,
        gate: &G,
        frame: Bytes,
    ) -> Closing
        requires { IsClient T.clients client }
        ensures { StopsBehind T.clients (ends_at (I.left input.old) (I.ends input.old) (I.faults input.old) (O.faults output.old))
            (ends_at (I.left input.new) (I.ends input.new) (I.faults input.new) (O.faults output.new)) result }
    {
        let mut frame = frame;
        for _ in rt.forever() {
            match self.answer_next(rt, client, input, output, gate, &mut frame) {
                Ok(()) => {}
                Err(closing) => return closing,
            }
        }
        unreachable!()
    }

    /// Takes the next frame, and answers it.
    fn answer_next<R: Wait, I: FrameIn, O: FrameOut, G: Gate>(
        &self,
        rt: &R,
        client: u8,
        input: &mut I,
        output: &mut O,
        gate: &G,
        frame: &mut Bytes,
    ) -> Result<(), Closing>
        requires { IsClient T.clients client }
        ensures { Rounds T.clients (ends_at (I.left input.old) (I.ends input.old) (I.faults input.old) (O.faults output.old))
            (ends_at (I.left input.new) (I.ends input.new) (I.faults input.new) (O.faults output.new)) result }
    {
        take_frame(input, frame)?;
        match self.handle(rt, client, frame.as_slice())? {
            Some(reply) => {
                gate.pass(client);
                send(output, reply.as_slice())
            }
            None => Ok(()),
        }
    }

    /// Names a client, under the lock.
    fn name<R: Wait>(&self, rt: &R, client: u8) -> Result<(), Closing>
        requires { IsClient T.clients client }
        ensures { IfErr result (λ closing. closing ≡ closings.Named client) }
    {
        self.guarded.lock(rt).cell.name(client)
    }

    /// Handles the bytes of a client, under the lock.
    fn handle<R: Wait>(&self, rt: &R, client: u8, bytes: &[u8]) -> Result<Option<Bytes>, Closing>
        requires { IsClient T.clients client }
        ensures tells { TellsOf T.clients bytes.now result }
        ensures sendable { IfOk result (λ reply. IfSome reply IsFrame) }
    {
        self.guarded.lock(rt).cell.handle(client, bytes)
    }

    /// The arrivals and the seat, with all that they keep. It takes no memory.
    pub fn into_parts(self) -> (Arrivals, Seat<T>)
        ensures { AreServed T.clients result.0 result.1 }
    {
        self.guarded.into_inner().cell.into_parts()
    }
}

/// Takes the next frame of the stream.
fn take_frame<I: FrameIn>(input: &mut I, frame: &mut Bytes) -> Result<(), Closing>
    ensures { TakesOne result (inlet_at (I.left input.old) (I.ends input.old) (I.faults input.old))
        (inlet_at (I.left input.new) (I.ends input.new) (I.faults input.new)) frame.new }
{
    match input.recv(frame) {
        Ok(Got::Frame) => Ok(()),
        Ok(_) => Err(Closing::Ended),
        Err(refusal) => Err(cause_of(refusal)),
    }
}

/// Sends a reply.
fn send<O: FrameOut>(output: &mut O, reply: &[u8]) -> Result<(), Closing>
    requires { IsFrame reply.now }
    ensures { MatchResult result (λ _. O.faults output.new ≡ O.faults output.old)
        (λ closing. SendStopped closing (O.faults output.old) (O.faults output.new)) }
{
    match output.send(reply) {
        Ok(()) => Ok(()),
        Err(error) => Err(cause_of(error)),
    }
}

/// Why a link that did nothing stops a connection.
fn cause_of(error: LinkError) -> Closing
    ensures { result ≡ stop_of error }
{
    match error {
        LinkError::Failed => Closing::Link,
        LinkError::OutOfMemory => Closing::Memory,
    }
}
