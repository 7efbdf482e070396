ghost use Rattle.std.specs.Prelude.{◌≡◌, None};
ghost use Rattle.faust_io.specs.Faults.{CountsFault};
ghost use Rattle.faust_link.specs.Counts.{CountsLink, CountsEnd};
ghost use Rattle.faust_link.specs.Frames.{IsFrame};
ghost use Rattle.faust_link.specs.Links.{Receives, Sends};

use crate::answers::{Got, LinkError};
use crate::lines::{Lines, Place};
use crate::parcel::Parcel;
use crate::pipe::{Look, Pipe};
use crate::streams::{FrameIn, FrameOut};
use faust_types::Bytes;
use std::alloc::Global;
use std::sync::{Arc, Wait};
use std::thread;

/// How often a client looks whether all have met.
const LOOKS: u32 = 10_000_000;

/// The end of a stream in memory at which frames come out. It tells nothing of them, since two threads share them.
#[derive(Drop)]
pub struct MemIn<R> {
    rt: R,
    pipe: Arc<Pipe, Global>,
    lines: Arc<Lines, Global>,
    waits_for_all: bool,
    faults: u64,
    ends: u64,
}

impl<R: Wait> MemIn<R> {
    /// The end of this pipe. The first frame waits until all have met where `waits_for_all` says so.
    pub(crate) fn new(
        rt: R,
        pipe: Arc<Pipe, Global>,
        lines: Arc<Lines, Global>,
        waits_for_all: bool,
    ) -> MemIn<R>
        ensures faults { result.faults ≡ 0 }
        ensures ends { result.ends ≡ 0 }
    {
        MemIn {
            rt,
            pipe,
            lines,
            waits_for_all,
            faults: 0,
            ends: 0,
        }
    }

    /// How many calls failed.
    pub fn faults(&self) -> u64
        ensures { result ≡ ⟦<MemIn<R> as FrameIn>⟧.faults self.now }
    {
        self.faults
    }

    /// How many calls answered `Ended`.
    pub fn ends(&self) -> u64
        ensures { result ≡ ⟦<MemIn<R> as FrameIn>⟧.ends self.now }
    {
        self.ends
    }

    /// What comes next: a frame, the end, or nothing where the others never met.
    fn next(&self) -> Look {
        if !self.waits_for_all || !self.lines.is_meeting() {
            return self.pipe.wait(&self.rt);
        }
        for _ in 0..LOOKS {
            match self.pipe.look(&self.rt, self.lines.have_met()) {
                Look::Nothing => thread::yield_now(),
                found => return found,
            }
        }
        Look::Nothing
    }
}

impl<R: Wait> FrameIn for MemIn<R> {
    ghost left = { λ _. None };

    ghost faults = { λ link. link.faults };

    ghost ends = { λ link. link.ends };

    fn recv(&mut self, into: &mut Bytes) -> Result<Got, LinkError> {
        match self.next() {
            Look::Frame(parcel) => {
                *into = parcel.into_bytes();
                self.waits_for_all = false;
                Ok(Got::Frame)
            }
            Look::Ended => {
                self.ends = self.ends.saturating_add(1);
                Ok(Got::Ended)
            }
            Look::Nothing => {
                self.faults = self.faults.saturating_add(1);
                Err(LinkError::Failed)
            }
        }
    }
}

/// The end of a stream in memory into which frames are sent. It tells nothing of them.
#[derive(Drop)]
pub struct MemOut<R> {
    rt: R,
    alloc: Global,
    pipe: Arc<Pipe, Global>,
    lines: Arc<Lines, Global>,
    last: Place,
    is_open: bool,
    faults: u64,
}

impl<R: Wait> MemOut<R> {
    /// The end of this pipe, which carries the frames of a client to the server, or of the server to a client.
    pub(crate) fn new(
        rt: R,
        alloc: Global,
        pipe: Arc<Pipe, Global>,
        lines: Arc<Lines, Global>,
        client: u8,
        to_server: bool,
    ) -> MemOut<R>
        ensures { result.faults ≡ 0 }
    {
        MemOut {
            rt,
            alloc,
            pipe,
            lines,
            last: Place {
                client,
                to_server,
                call: 0,
            },
            is_open: true,
            faults: 0,
        }
    }

    /// How many calls failed.
    pub fn faults(&self) -> u64
        ensures { result ≡ ⟦<MemOut<R> as FrameOut>⟧.faults self.now }
    {
        self.faults
    }
}

impl<R: Wait> FrameOut for MemOut<R> {
    ghost sent = { λ _. None };

    ghost faults = { λ link. link.faults };

    fn send(&mut self, frame: &[u8]) -> Result<(), LinkError> {
        if !self.is_open {
            self.faults = self.faults.saturating_add(1);
            return Err(LinkError::Failed);
        }
        let place = Place {
            call: self.last.call.saturating_add(1),
            ..self.last
        };
        let is_flipped = self.lines.is_flipped(&self.rt, place);
        let parcel = Parcel::new(self.alloc, frame, is_flipped)?;
        self.pipe.put(&self.rt, parcel)?;
        self.last = place;
        if place.to_server && place.call == 2 {
            self.lines.count_ready();
        }
        Ok(())
    }

    fn close(&mut self) {
        self.is_open = false;
        self.pipe.close(&self.rt);
    }
}
