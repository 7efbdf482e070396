ghost use Rattle.std.specs.Prelude.{◌≡◌, Err, IfOk, OnOk, OnErr, true, false};
ghost use Rattle.faust_io.specs.Faults.{Counts, CountsFault};
ghost use Rattle.faust_link.specs.Counts.{CountsLink, CountsEnd};
ghost use Rattle.faust_link.specs.Finding.{CountsHeld, HoldsNext};
ghost use Rattle.faust_link.specs.Links.{Receives};
ghost use Rattle.faust_link.specs.Views.{RecvFails, left_of, new_reader};

use crate::answers::{Got, LinkError};
use crate::finding::{MAX_FRAME, Next, next_frame};
use crate::streams::FrameIn;
use faust_io::{Failed, Source};
use faust_types::{Bytes, OutOfMemory};
use std::alloc::Global;
use std::marker::Model;

/// The frames of a stream whose bytes come from a source, in any pieces. After a call that failed every later
/// one fails. One that found no memory leaves the frame in its place.
#[derive(Debug, Drop)]
pub struct FrameReader<S> {
    source: S,
    buffer: Vec<u8>,
    held: usize,
    is_open: bool,
    faults: u64,
    ends: u64,
}

impl<S> Model for FrameReader<S> {
    ghost use Rattle.std.specs.Prelude.{◌≡◌, ◌≤◌, take, vec_len};
    ghost use Rattle.faust_link.specs.Views.{ReaderView};

    ghost Value = { ReaderView S };

    ghost view = { λ reader. record {
      source = reader.source;
      held = take reader.held reader.buffer.items;
      is_open = reader.is_open;
      faults = reader.faults;
      ends = reader.ends;
    } };

    ghost invariant = { λ reader. (vec_len reader.buffer ≡ 16384) × (reader.held ≤ 16384) };
}

impl<S: Source + Drop> FrameReader<S> {
    /// A stream over this source. It takes the memory for the longest frame at once.
    pub fn new(alloc: Global, source: S) -> Result<FrameReader<S>, OutOfMemory>
        ensures { IfOk result (λ reader. reader ≡ new_reader source) }
    {
        let mut buffer = Vec::new(alloc);
        buffer.resize(MAX_FRAME, 0)?;
        Ok(FrameReader {
            source,
            buffer,
            held: 0,
            is_open: true,
            faults: 0,
            ends: 0,
        })
    }
}

impl<S: Source> FrameReader<S> {
    /// How many calls failed.
    pub fn faults(&self) -> u64
        ensures { result ≡ self.now.faults }
    {
        self.faults
    }

    /// How many calls answered `Ended`.
    pub fn ends(&self) -> u64
        ensures { result ≡ self.now.ends }
    {
        self.ends
    }

    /// A copy of the frame that waits in the buffer.
    fn frame(&self, alloc: Global) -> Result<Bytes, OutOfMemory>
        ensures { IfOk result (λ frame. frame ≡ self.now.held) }
    {
        Bytes::from_slice(alloc, &self.buffer[..self.held])
    }

    /// Counts a call that failed, and shuts the stream.
    fn fail(&mut self) -> Failed
        ensures after { self.new ≡ record self.old { is_open = false; faults = self.new.faults } }
        ensures count { CountsFault self.old.faults self.new.faults }
    {
        self.is_open = false;
        self.faults = self.faults.saturating_add(1);
        Failed
    }

    /// Reads the next frame into the buffer, unless one waits there. It answers whether one does.
    fn hold_frame(&mut self) -> Result<bool, Failed>
        ensures faults { Counts result self.old.faults self.new.faults }
        ensures ends { CountsHeld result self.old.ends self.new.ends }
        ensures bytes { HoldsNext (left_of S.left self.old) (left_of S.left self.new) self.new.held result }
        ensures cause { OnErr result (RecvFails self.old.is_open (left_of S.left self.old) (S.faults self.old.source)
            (S.faults self.new.source)) }
        ensures shut { OnErr result (self.new.is_open ≡ false) }
        ensures open { OnOk result (self.old.is_open ≡ true) }
    {
        if !self.is_open {
            return Err(self.fail());
        }
        if self.held > 0 {
            return Ok(true);
        }
        match next_frame(&mut self.source, &mut self.buffer) {
            Ok(Next::Frame(len)) => {
                self.held = len;
                Ok(true)
            }
            Ok(Next::End) => {
                self.ends = self.ends.saturating_add(1);
                Ok(false)
            }
            _ => Err(self.fail()),
        }
    }
}

impl<S: Source> FrameIn for FrameReader<S> {
    ghost left = { λ reader. left_of S.left reader };

    ghost faults = { λ reader. reader.faults };

    ghost ends = { λ reader. reader.ends };

    fn recv(&mut self, into: &mut Bytes) -> Result<Got, LinkError>
        ensures faults { CountsLink result self.old.faults self.new.faults }
        ensures ends { CountsEnd result self.old.ends self.new.ends }
        ensures bytes { Receives (left_of S.left self.old) (left_of S.left self.new) into.old into.new result }

        // Why it fails, and that a stream that was refused stays shut.
        ensures cause { result ≡ Err LinkError.Failed
            → RecvFails self.old.is_open (left_of S.left self.old) (S.faults self.old.source) (S.faults self.new.source) }
        ensures shut { result ≡ Err LinkError.Failed → self.new.is_open ≡ false }
        ensures refused { self.old.is_open ≡ false → result ≡ Err LinkError.Failed }
    {
        match self.hold_frame() {
            Ok(true) => {}
            Ok(false) => return Ok(Got::Ended),
            Err(_) => return Err(LinkError::Failed),
        }
        *into = self.frame(into.allocator())?;
        self.held = 0;
        Ok(Got::Frame)
    }
}
