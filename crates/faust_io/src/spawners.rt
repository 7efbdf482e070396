ghost use Rattle.std.specs.Prelude.{◌≡◌, ◌≤◌, IfOk};
ghost use Rattle.faust_io.specs.Faults.{CountsFault};

use crate::calls::Calls;
use crate::spawner::Spawner;
use crate::threads::RefusedStart;
use faust_types::OutOfMemory;
use std::alloc::Global;
use std::marker::Model;

/// A spawner that refuses no start by itself. Std doesn't say why it refused one, so one that it refused for
/// want of memory counts too.
#[derive(Debug, Drop)]
pub struct ThreadSpawner {
    faults: u64,
}

impl ThreadSpawner {
    /// A spawner of which no start was refused.
    pub fn new() -> ThreadSpawner
        ensures { ⟦<ThreadSpawner as Spawner>⟧.faults result ≡ 0 }
    {
        ThreadSpawner { faults: 0 }
    }

    /// How many starts were refused.
    pub fn faults(&self) -> u64
        ensures { result ≡ ⟦<ThreadSpawner as Spawner>⟧.faults self.now }
    {
        self.faults
    }
}

impl Spawner for ThreadSpawner {
    ghost faults = { λ spawner. spawner.faults };

    ghost admits = { λ _ wanted count. count ≡ wanted };

    fn admit(&mut self, wanted: usize) -> usize {
        wanted
    }

    fn count_fault(&mut self, _refused: RefusedStart) {
        self.faults = self.faults.saturating_add(1);
    }
}

/// A spawner that refuses the starts with the listed numbers, counted from 1 over all calls, and else starts
/// threads as `ThreadSpawner` does. A call counts the starts that its list lets pass and the one that it
/// refuses, also where std refuses an earlier one of them.
#[derive(Debug, Drop)]
pub struct RefusingSpawner {
    starts: Calls,
}

impl Model for RefusingSpawner {
    ghost use Rattle.faust_io.specs.declared.calls.Calls.{Calls};

    ghost Value = { Calls };

    ghost view = { λ spawner. spawner.starts };
}

impl RefusingSpawner {
    ghost use Rattle.faust_io.specs.Calls.{no_calls};

    /// A spawner that refuses these starts.
    pub fn new(alloc: Global, refused: &[u64]) -> Result<RefusingSpawner, OutOfMemory>
        ensures { IfOk result (λ spawner. spawner ≡ no_calls refused.now) }
    {
        Ok(RefusingSpawner {
            starts: Calls::new(alloc, refused)?,
        })
    }

    /// How many starts were refused.
    pub fn faults(&self) -> u64
        ensures { result ≡ self.now.faults }
    {
        self.starts.faults
    }
}

impl Spawner for RefusingSpawner {
    ghost use Rattle.faust_io.specs.Calls.{Admits, after_admitted, after_fault};

    ghost faults = { λ spawner. spawner.faults };

    ghost admits = { Admits };

    fn admit(&mut self, wanted: usize) -> usize
        ensures admits { Admits self.old wanted result }
        ensures within { result ≤ wanted }
        ensures count { self.new.faults ≡ self.old.faults }
        ensures after { self.new ≡ after_admitted self.old wanted result }
    {
        self.starts.admit(wanted)
    }

    fn count_fault(&mut self, _refused: RefusedStart)
        ensures count { CountsFault self.old.faults self.new.faults }
        ensures after { self.new ≡ after_fault self.old }
    {
        self.starts.faults = self.starts.faults.saturating_add(1);
    }
}
