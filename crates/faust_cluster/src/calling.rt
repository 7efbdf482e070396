// One call from words to a text: a live run, and what it comes to.
ghost use Rattle.std.specs.Prelude.{map, string_bytes, IfOk};
ghost use Rattle.faust_outcome.specs.Gathering.{IsGathered};
ghost use Rattle.faust_outcome.specs.Words.{IsInRange};
ghost use Rattle.faust_cluster.specs.Answer.{IsAnswer};
ghost use Rattle.faust_cluster.specs.Counting.{CountsNet, CountsSpawner};
ghost use Rattle.faust_cluster.specs.Writing.{EndsWriting};

use crate::clocks::Clocks;
use crate::running::{Failure, run_in};
use faust_io::{Clock, Sink, Spawner, write_whole};
use faust_link::Net;
use faust_outcome::{
    Gathered, LiveCommand, LiveStatus, link_fault_line, outcome, start_fault_line,
};
use faust_ticket::start;
use faust_types::OutOfMemory;
use faust_verdict::usage_line;
use std::alloc::Global;
use std::marker::Brand;
use std::sync::Wait;
use std::thread::Threads;

/// Runs clients and a server beside one another over the links of the net, as the words say, each in threads of its own,
/// and writes what their run comes to. `Usage` comes exactly for words that are no form, `StartFault` only where a start
/// was refused, `LinkFault` only where a link failed or a message arrived that its client hadn't sent next, `Mismatch`
/// exactly where then a journal is of another client or a user was told otherwise than the record has it, `Premise`
/// exactly where the run isn't clean, and `WriteFault` only where the count of the sink rose. It promises this if it
/// returns.
pub fn live<R: Threads + Wait + Sync, N: Net, P: Spawner, C: Clock + Send + Drop, K: Sink>(
    rt: &R,
    alloc: Global,
    words: &[String],
    net: &mut N,
    spawner: &mut P,
    clocks: Clocks<C>,
    sink: &mut K,
) -> LiveStatus
    ensures { IsAnswer (map string_bytes words.now) (record {
      held_before = K.held sink.old;
      held_after = K.held sink.new;
      writes_failed_before = K.faults sink.old;
      writes_failed_after = K.faults sink.new;
      links_failed_before = N.faults net.old;
      links_failed_after = N.faults net.new;
      starts_refused_before = P.faults spawner.old;
      starts_refused_after = P.faults spawner.new;
    }) result }
{
    let command = match LiveCommand::of(alloc, words) {
        Ok(Some(command)) => command,
        Ok(None) => return written(sink, usage_line(), LiveStatus::Usage),
        Err(OutOfMemory) => return LiveStatus::OutOfMemory,
    };
    match gather(rt, alloc, &command, net, spawner, clocks) {
        Ok(it) => match outcome(alloc, &command, it) {
            Ok(output) => written(sink, output.text.as_slice(), output.status),
            Err(OutOfMemory) => LiveStatus::OutOfMemory,
        },
        Err(Failure::Start) => written(sink, start_fault_line(), LiveStatus::StartFault),
        Err(Failure::Link) => written(sink, link_fault_line(), LiveStatus::LinkFault),
        Err(Failure::Memory) => LiveStatus::OutOfMemory,
    }
}

/// What a run with the config of a command leaves. The counter and all that T names are made here.
fn gather<R: Threads + Wait + Sync, N: Net, P: Spawner, C: Clock + Send + Drop>(
    rt: &R,
    alloc: Global,
    command: &LiveCommand,
    net: &mut N,
    spawner: &mut P,
    clocks: Clocks<C>,
) -> Result<Gathered, Failure>
    requires { IsInRange command.now }
    ensures gathered { IfOk result (λ it. IsGathered command.now it) }
    ensures net { CountsNet result (N.faults net.old) (N.faults net.new) }
    ensures spawner { CountsSpawner result (P.faults spawner.old) (P.faults spawner.new) }
{
    let config = command.config(alloc)?;
    let blank = start(alloc)?;
    let ops = command.ops;
    run_in::<Brand, R, N, P, C>(rt, alloc, net, spawner, clocks, &config, ops, blank)
}

/// Writes the text of a status, and answers that status, or `WriteFault` where a write failed.
fn written<K: Sink>(sink: &mut K, text: &[u8], status: LiveStatus) -> LiveStatus
    ensures { EndsWriting status text.now (K.held sink.old) (K.held sink.new) (K.faults sink.old) (K.faults sink.new) result }
{
    match write_whole(sink, text) {
        Ok(()) => status,
        Err(_) => LiveStatus::WriteFault,
    }
}
