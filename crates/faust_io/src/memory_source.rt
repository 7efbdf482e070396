ghost use Rattle.std.specs.Prelude.{◌≡◌, ◌↔◌, ◌<◌, min, length, take, drop, Some, Ok, IfOk, IsErr, OnErr};
ghost use Rattle.faust_io.specs.Faults.{Counts};
ghost use Rattle.faust_io.specs.Reading.{Reads};

use crate::calls::Calls;
use crate::failed::Failed;
use crate::source::Source;
use faust_types::{Bytes, OutOfMemory};
use std::alloc::Global;
use std::marker::Model;

/// A source of bytes in memory that never fails. A read gives as many as fit. Contracts see it as the bytes
/// that are left.
#[derive(Debug, Drop)]
pub struct SureSource {
    bytes: Bytes,
    given: usize,
}

impl Model for SureSource {
    ghost use Rattle.std.specs.Prelude.{ℕ, ◌≤◌, List, length, drop};

    ghost Value = { List ℕ };

    ghost view = { λ source. drop source.given source.bytes };

    ghost invariant = { λ source. source.given ≤ length source.bytes };
}

impl SureSource {
    /// A source of these bytes.
    pub fn new(alloc: Global, bytes: &[u8]) -> Result<SureSource, OutOfMemory>
        ensures { IfOk result (λ source. source ≡ bytes.now) }
    {
        Ok(SureSource {
            bytes: Bytes::from_slice(alloc, bytes)?,
            given: 0,
        })
    }

    /// Gives as many bytes as fit into the buffer, and answers how many.
    fn give(&mut self, buf: &mut [u8]) -> usize
        ensures count { result ≡ min (length buf.old) (length self.old) }
        ensures front { take result buf.new ≡ take result self.old }
        ensures rest { self.new ≡ drop result self.old }
    {
        let rest = &self.bytes.as_slice()[self.given..];
        let count = buf.len().min(rest.len());
        buf[..count].copy_from_slice(&rest[..count]);
        self.given += count;
        count
    }
}

impl Source for SureSource {
    ghost left = { λ source. Some source };

    ghost faults = { λ _. 0 };

    fn read(&mut self, buf: &mut [u8]) -> Result<usize, Failed>
        ensures count { Counts result 0 0 }
        ensures bytes { Reads (Some self.old) (Some self.new) buf.new result }
        ensures gives { result ≡ Ok (min (length buf.old) (length self.old)) }
    {
        Ok(self.give(buf))
    }
}

/// A source of bytes in memory whose reads give at most `most` bytes each, and of which the reads with the
/// listed numbers, counted from 1, fail.
#[derive(Debug, Drop)]
pub struct MemSource {
    bytes: SureSource,
    most: usize,
    calls: Calls,
}

impl Model for MemSource {
    ghost use Rattle.std.specs.Prelude.{◌<◌};
    ghost use Rattle.faust_io.specs.Memory.{SourceView};

    ghost Value = { SourceView };

    ghost view = { λ source. record { left = source.bytes; most = source.most; calls = source.calls } };

    ghost invariant = { λ source. 0 < source.most };
}

impl MemSource {
    ghost use Rattle.faust_io.specs.Memory.{new_source};

    /// A source of these bytes. `most` isn't 0.
    pub fn new(
        alloc: Global,
        bytes: &[u8],
        most: usize,
        fails: &[u64],
    ) -> Result<MemSource, OutOfMemory>
        requires { 0 < most }
        ensures { IfOk result (λ source. source ≡ new_source bytes.now most fails.now) }
    {
        Ok(MemSource {
            bytes: SureSource::new(alloc, bytes)?,
            most,
            calls: Calls::new(alloc, fails)?,
        })
    }

    /// How many reads failed.
    pub fn faults(&self) -> u64
        ensures { result ≡ self.now.calls.faults }
    {
        self.calls.faults
    }
}

impl Source for MemSource {
    ghost use Rattle.faust_io.specs.Calls.{IsNextFailing};
    ghost use Rattle.faust_io.specs.Memory.{read_count, after_read, after_failed_read};

    ghost left = { λ source. Some source.left };

    ghost faults = { λ source. source.calls.faults };

    fn read(&mut self, buf: &mut [u8]) -> Result<usize, Failed>
        ensures count { Counts result self.old.calls.faults self.new.calls.faults }
        ensures bytes { Reads (Some self.old.left) (Some self.new.left) buf.new result }

        // Which reads fail, how many bytes the others give, and what comes after either.
        ensures fails { IsErr result ↔ IsNextFailing self.old.calls }
        ensures gives { IfOk result (λ given. given ≡ read_count self.old (length buf.old)) }
        ensures after { IfOk result (λ given. self.new ≡ after_read self.old given) }
        ensures failed { OnErr result (self.new ≡ after_failed_read self.old) }
    {
        if self.calls.is_next_failing() {
            return Err(self.calls.fail());
        }
        self.calls.succeed();
        let room = buf.len().min(self.most);
        Ok(self.bytes.give(&mut buf[..room]))
    }
}
