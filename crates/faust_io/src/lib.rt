//! Sources and sinks: where bytes come from and where they go, whatever stands outside. A read or a write that
//! fails raises a count of faults, and nothing else does, so a contract above can say by the count alone that a
//! failure came from outside. `read_whole` answers all bytes of a source up to its end, or that there are more
//! than a limit; `write_whole` writes a whole text, or fails after a prefix of it. Clocks give moments, and count
//! how often they end. A spawner runs each of its jobs in a thread of its own, and answers what each job gave, in
//! the order of the jobs; it fails only where a start was refused.
//!
//! `specs/Faults.antt` comes first: what the counts say. `specs/Reading.antt` and `specs/Writing.antt` say what
//! reads and writes do to the bytes of a source and of a sink that tell them, and `specs/Memory.antt` how the
//! sources and sinks in memory answer each call. `specs/Moments.antt` has the clocks, `specs/Jobs.antt` the jobs.
//!
//! What a file, a terminal or a socket carries is not promised: `StdSource` and `StdSink` tell nothing of it. That
//! jobs overlap, and that those which aren't started are given up, no clause can say: tests show it.
#![tactic(auto)]

mod calls;
mod clock;
mod failed;
mod job;
mod list_clock;
mod memory_sink;
mod memory_source;
mod sink;
mod source;
mod spawner;
mod spawners;
mod std_clock;
mod std_sink;
mod std_source;
#[cfg(test)]
mod tests;
mod threads;
mod whole_input;
mod whole_output;

pub use clock::Clock;
pub use failed::{Failed, ReadError, StartError};
pub use job::Job;
pub use list_clock::ListClock;
pub use memory_sink::{MemSink, SureSink};
pub use memory_source::{MemSource, SureSource};
pub use sink::Sink;
pub use source::Source;
pub use spawner::Spawner;
pub use spawners::{RefusingSpawner, ThreadSpawner};
pub use std_clock::StdClock;
pub use std_sink::StdSink;
pub use std_source::StdSource;
pub use threads::RefusedStart;
pub use whole_input::read_whole;
pub use whole_output::write_whole;
