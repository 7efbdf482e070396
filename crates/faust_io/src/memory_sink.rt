ghost use Rattle.std.specs.Prelude.{◌≡◌, ◌↔◌, ◌<◌, length, Some, None, Ok, IfOk, IsErr, OnOk, OnErr};
ghost use Rattle.faust_io.specs.Faults.{Counts};
ghost use Rattle.faust_io.specs.Writing.{Writes};

use crate::calls::Calls;
use crate::failed::Failed;
use crate::sink::Sink;
use faust_types::OutOfMemory;
use std::alloc::Global;
use std::marker::Model;

/// A sink that never fails, keeps nothing and tells nothing.
#[derive(Clone, Copy, Debug, Default)]
pub struct SureSink;

impl SureSink {
    pub fn new() -> SureSink {
        SureSink
    }
}

impl Sink for SureSink {
    ghost held = { λ _. None };

    ghost faults = { λ _. 0 };

    fn write(&mut self, piece: &[u8]) -> Result<usize, Failed>
        ensures count { Counts result 0 0 }
        ensures bytes { Writes None None piece.now result }
        ensures takes { result ≡ Ok (length piece.now) }
    {
        Ok(piece.len())
    }
}

/// A sink in memory with room for so many bytes. Its writes take at most `most` bytes each; those with the
/// listed numbers, counted from 1, fail, and so does one that finds no room left.
#[derive(Debug, Drop)]
pub struct MemSink {
    bytes: Vec<u8>,
    room: usize,
    most: usize,
    calls: Calls,
}

impl Model for MemSink {
    ghost use Rattle.std.specs.Prelude.{vec_capacity};
    ghost use Rattle.faust_io.specs.Memory.{SinkView, HasRoom};

    ghost Value = { SinkView };

    ghost view = { λ sink. record { held = sink.bytes.items; room = sink.room; most = sink.most; calls = sink.calls } };

    ghost invariant = { λ sink. HasRoom sink.bytes.items sink.room sink.most (vec_capacity sink.bytes) };
}

impl MemSink {
    ghost use Rattle.faust_io.specs.Memory.{new_sink};

    /// An empty sink with room for `room` bytes, whose memory is taken at once. `most` isn't 0.
    pub fn new(
        alloc: Global,
        room: usize,
        most: usize,
        fails: &[u64],
    ) -> Result<MemSink, OutOfMemory>
        requires { 0 < most }
        ensures { IfOk result (λ sink. sink ≡ new_sink room most fails.now) }
    {
        Ok(MemSink {
            bytes: Vec::with_capacity(alloc, room)?,
            room,
            most,
            calls: Calls::new(alloc, fails)?,
        })
    }

    /// What the sink holds.
    pub fn bytes(&self) -> &[u8]
        ensures { result.now ≡ self.now.held }
    {
        self.bytes.as_slice()
    }

    /// How many writes failed.
    pub fn faults(&self) -> u64
        ensures { result ≡ self.now.calls.faults }
    {
        self.calls.faults
    }
}

impl Sink for MemSink {
    ghost use Rattle.faust_io.specs.Memory.{IsRefusing, write_count, after_write, after_failed_write};

    ghost held = { λ sink. Some sink.held };

    ghost faults = { λ sink. sink.calls.faults };

    fn write(&mut self, piece: &[u8]) -> Result<usize, Failed>
        ensures count { Counts result self.old.calls.faults self.new.calls.faults }
        ensures bytes { Writes (Some self.old.held) (Some self.new.held) piece.now result }

        // Which writes fail, how many bytes the others take, and what comes after either.
        ensures fails { IsErr result ↔ IsRefusing self.old }
        ensures takes { IfOk result (λ taken. taken ≡ write_count self.old (length piece.now)) }
        ensures after { OnOk result (self.new ≡ after_write self.old piece.now) }
        ensures failed { OnErr result (self.new ≡ after_failed_write self.old) }
    {
        let room = self.room - self.bytes.len();
        if room == 0 || self.calls.is_next_failing() {
            return Err(self.calls.fail());
        }
        self.calls.succeed();
        let count = piece.len().min(self.most).min(room);
        self.bytes.extend_from_slice(&piece[..count]).unwrap();
        Ok(count)
    }
}
