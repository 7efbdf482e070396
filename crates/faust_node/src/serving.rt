// The loops that serve a node: each stops by the first cause that stopped it, and closes what it holds.
ghost use Rattle.std.specs.Prelude.{◌≡◌, IfErr, IfOk, IfSome};
ghost use Rattle.faust_link.specs.Counts.{CountsLink};
ghost use Rattle.faust_link.specs.Frames.{IsFrame};
ghost use Rattle.faust_node.specs.Sending.{AreCarried};
ghost use Rattle.faust_node.specs.Serving.{IsCellCause, IsOutboxCause, cause_of, StopsPeers, StopsReplies, StopsSending, StopsTicks};
ghost use Rattle.faust_node.specs.Steps.{IsOutside};

use crate::node::Node;
use crate::sending::{Batch, Dispatch};
use crate::session::Session;
use faust_io::Clock;
use faust_link::{FrameIn, FrameOut, Got, LinkError, PostIn, PostOut};
use faust_record::Input;
use faust_types::{Bytes, Closing, Posts};
use std::sync::Wait;
use std::thread;

impl<T: Session> Node<T> {
    /// Hands the frames of a link to the cell as replies, until the link ends, and closes the cell.
    pub fn serve_replies<R: Wait, I: FrameIn>(&self, rt: &R, link: &mut I) -> Closing
        ensures { StopsReplies result (I.ends link.old) (I.ends link.new) (I.faults link.old) (I.faults link.new) }
    {
        let cause = self.take_replies(rt, link);
        self.close_with(rt, cause);
        cause
    }

    fn take_replies<R: Wait, I: FrameIn>(&self, rt: &R, link: &mut I) -> Closing
        ensures { StopsReplies result (I.ends link.old) (I.ends link.new) (I.faults link.old) (I.faults link.new) }
    {
        for _ in rt.forever() {
            let mut frame = Bytes::new(self.alloc);
            match link.recv(&mut frame) {
                Ok(Got::Frame) => {}
                Ok(Got::Ended) => return Closing::Ended,
                Ok(Got::Idle) => unreachable!(),
                Err(error) => return cause_of(error),
            }
            if let Some(cause) = self.hand_in(rt, Input::Reply(frame)) {
                return cause;
            }
        }
        unreachable!()
    }

    /// Hands datagrams to the cell as messages of other clients, until the cell is closed.
    pub fn serve_peers<R: Wait, I: PostIn>(&self, rt: &R, post: &mut I) -> Closing
        ensures { StopsPeers result (I.faults post.old) (I.faults post.new) }
    {
        let cause = self.take_datagrams(rt, post);
        self.stopped(rt, cause);
        cause
    }

    fn take_datagrams<R: Wait, I: PostIn>(&self, rt: &R, post: &mut I) -> Closing
        ensures { StopsPeers result (I.faults post.old) (I.faults post.new) }
    {
        for _ in rt.forever() {
            if let Some(cause) = self.cell.lock(rt).stop() {
                return cause;
            }
            let mut datagram = Bytes::new(self.alloc);
            match post.take(&mut datagram) {
                Ok(Got::Frame) => {
                    if let Some(cause) = self.hand_in(rt, Input::Peer(datagram)) {
                        return cause;
                    }
                }
                Ok(Got::Idle) => thread::yield_now(),
                Ok(Got::Ended) => unreachable!(),
                Err(error) => return cause_of(error),
            }
        }
        unreachable!()
    }

    /// Hands the moments of a clock to the cell, until the clock ends or the cell is closed. The end of the clock closes
    /// nothing.
    pub fn serve_ticks<R: Wait, C: Clock>(&self, rt: &R, clock: &mut C) -> Closing
        ensures { StopsTicks result (C.ends clock.old) (C.ends clock.new) }
    {
        let cause = self.take_moments(rt, clock);
        self.stopped(rt, cause);
        cause
    }

    fn take_moments<R: Wait, C: Clock>(&self, rt: &R, clock: &mut C) -> Closing
        ensures { StopsTicks result (C.ends clock.old) (C.ends clock.new) }
    {
        for _ in rt.forever() {
            let Some(moment) = clock.next() else {
                return Closing::Ended;
            };
            if let Some(cause) = self.hand_in(rt, Input::Tick(moment)) {
                return cause;
            }
        }
        unreachable!()
    }

    /// Sends HELLO, and then the journal's messages to the server in order, each once, until the cell is closed and all
    /// are sent. Whenever it stops, it closes the link.
    pub fn serve_outbox<R: Wait, O: FrameOut>(&self, rt: &R, link: &mut O) -> Closing
        ensures { StopsSending result (O.faults link.old) (O.faults link.new) }
    {
        let cause = self.send_messages(rt, link);
        link.close();
        self.stopped(rt, cause);
        cause
    }

    fn send_messages<R: Wait, O: FrameOut>(&self, rt: &R, link: &mut O) -> Closing
        ensures { StopsSending result (O.faults link.old) (O.faults link.new) }
    {
        if let Err(error) = link.send(self.hello.as_slice()) {
            return cause_of(error);
        }
        let mut from = 0;
        for _ in rt.forever() {
            match self.next_message(rt, from) {
                Ok(message) => {
                    if let Err(error) = link.send(message.bytes.as_slice()) {
                        return cause_of(error);
                    }
                    from = message.behind;
                }
                Err(cause) => return cause,
            }
        }
        unreachable!()
    }

    // Waits for the first message to the server from this place on, or for the end.
    fn next_message<R: Wait>(&self, rt: &R, from: u64) -> Result<Dispatch, Closing>
        ensures message { IfOk result (λ message. IsFrame message.bytes) }
        ensures cause { IfErr result IsOutboxCause }
    {
        let mut from = from;
        let mut cell = self.cell.lock(rt);
        for _ in rt.forever() {
            match cell.message_from(from) {
                Ok(Some(message)) => return Ok(message),
                Ok(None) => from = cell.journal().len(),
                Err(_) => return Err(Closing::Memory),
            }
            if let Some(cause) = cell.stop() {
                return Err(cause);
            }
            cell = self.changed.wait(rt, cell);
        }
        unreachable!()
    }

    /// Sends the journal's messages to other clients in order, each once, until the cell is closed and all are sent.
    pub fn serve_posts<R: Wait, O: PostOut>(&self, rt: &R, post: &mut O) -> Closing
        ensures { StopsSending result (O.faults post.old) (O.faults post.new) }
    {
        let cause = self.send_posts(rt, post);
        self.stopped(rt, cause);
        cause
    }

    fn send_posts<R: Wait, O: PostOut>(&self, rt: &R, post: &mut O) -> Closing
        ensures { StopsSending result (O.faults post.old) (O.faults post.new) }
    {
        let mut from = 0;
        for _ in rt.forever() {
            match self.next_batch(rt, from) {
                Ok(batch) => {
                    if let Err(error) = give_each(post, &batch.posts) {
                        return cause_of(error);
                    }
                    from = batch.behind;
                }
                Err(cause) => return cause,
            }
        }
        unreachable!()
    }

    // Waits for the first messages to other clients from this place on, or for the end.
    fn next_batch<R: Wait>(&self, rt: &R, from: u64) -> Result<Batch, Closing>
        ensures batch { IfOk result (λ batch. AreCarried batch.posts) }
        ensures cause { IfErr result IsOutboxCause }
    {
        let mut from = from;
        let mut cell = self.cell.lock(rt);
        for _ in rt.forever() {
            match cell.batch_from(from) {
                Ok(Some(batch)) => return Ok(batch),
                Ok(None) => from = cell.journal().len(),
                Err(_) => return Err(Closing::Memory),
            }
            if let Some(cause) = cell.stop() {
                return Err(cause);
            }
            cell = self.changed.wait(rt, cell);
        }
        unreachable!()
    }

    // Hands an input in, and wakes all that wait for the cell.
    fn hand_in<R: Wait>(&self, rt: &R, input: Input) -> Option<Closing>
        requires { IsOutside input }
        ensures { IfSome result IsCellCause }
    {
        let cause = self.cell.lock(rt).take(input);
        self.changed.notify_all();
        cause
    }

    // A loop stopped. A fault of its link, a full journal and want of memory close the cell.
    fn stopped<R: Wait>(&self, rt: &R, cause: Closing) {
        match cause {
            Closing::Link | Closing::Full | Closing::Memory => self.close_with(rt, cause),
            _ => {}
        }
    }
}

fn cause_of(error: LinkError) -> Closing
    ensures { result ≡ cause_of error }
{
    match error {
        LinkError::Failed => Closing::Link,
        LinkError::OutOfMemory => Closing::Memory,
    }
}

fn give_each<O: PostOut>(post: &mut O, posts: &Posts) -> Result<(), LinkError>
    requires { AreCarried posts.now }
    ensures { CountsLink result (O.faults post.old) (O.faults post.new) }
{
    for each in posts.as_slice() {
        post.give(each.to, each.bytes.as_slice())?;
    }
    Ok(())
}
