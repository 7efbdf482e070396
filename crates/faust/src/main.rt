// The program: its words, standard input and standard output go to `run`, or to `live` where the first word is that, and
// the status is the exit code. What the standard streams, sockets and threads carry is trusted; the promise is that of
// `run` and `live`. Nothing goes to standard error.
#![tactic(auto)]

use faust_cluster::{Clocks, live};
use faust_io::{StdClock, StdSink, StdSource, ThreadSpawner};
use faust_loop::LoopNet;
use faust_outcome::LiveStatus;
use faust_top::run;
use faust_types::{OutOfMemory, Status};
use std::alloc::Global;
use std::io::ErrorKind;
use std::process::ExitCode;
use std::rt::Env;
use std::{env, io, time};

/// How many milliseconds lie between two ticks of a client of a live run.
const PERIOD: u64 = 10;

/// The words behind the program's name. Words that are no text are no form of the program, as no words are.
fn words(rt: &(impl Env + AllocGlobal)) -> Result<Vec<String>, OutOfMemory> {
    match args(rt) {
        Ok(words) => Ok(words),
        Err(error) if error.kind() == ErrorKind::OutOfMemory => Err(OutOfMemory),
        Err(_) => Ok(Vec::new(rt.alloc())),
    }
}

fn args(rt: &(impl Env + AllocGlobal)) -> io::Result<Vec<String>> {
    let mut words = Vec::new(rt.alloc());
    for word in env::args(rt)?.skip(1) {
        words.push(word)?;
    }
    Ok(words)
}

fn is_live(words: &[String]) -> bool {
    match words.first() {
        Some(word) => word.as_str() == "live",
        None => false,
    }
}

/// A clock for each client that a live run may have.
fn clocks<T: time::Clock + Copy + Drop>(
    time: T,
    alloc: Global,
) -> Result<Clocks<StdClock<T>>, OutOfMemory> {
    let mut clocks = Vec::new(alloc);
    for _ in 0..8u64 {
        clocks.push(StdClock::new(time, PERIOD))?;
    }
    Ok(Clocks::of(clocks))
}

fn main(rt: HostRuntime) -> ExitCode {
    let alloc = rt.alloc();
    let Ok(words) = words(&rt) else {
        return ExitCode::from(Status::OutOfMemory as u8);
    };
    let words = words.as_slice();
    let mut sink = StdSink::new(io::writer(&rt));
    if !is_live(words) {
        let mut source = StdSource::new(rt.reader());
        return ExitCode::from(run(alloc, words, &mut source, &mut sink) as u8);
    }
    let Ok(clocks) = clocks(&rt, alloc) else {
        return ExitCode::from(LiveStatus::OutOfMemory as u8);
    };
    let mut net = LoopNet::new(&rt, alloc);
    let mut spawner = ThreadSpawner::new();
    let status = live(&rt, alloc, words, &mut net, &mut spawner, clocks, &mut sink);
    ExitCode::from(status as u8)
}
