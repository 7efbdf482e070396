use crate::{departure, findings};
use faust_record::{Findings, PushError, PushInput, RunRecord, Views};
use faust_types::{Bytes, Config, Names, OpName, OutOfMemory};
use std::alloc::Global;
use std::test::Fail;

// What an honest server answers to the first operation of all.
const FIRST_REPLY: &[u8] = &[1, 2, 1, 0, 0, 0, 0, 0];

/// What comes to client 1 of two.
#[derive(Clone, Copy)]
enum Event {
    Write,
    Read,
    Reply,
    Arrive,
}

fn two_clients(alloc: Global) -> Result<RunRecord, OutOfMemory> {
    let key = [0, 1, 2, 3, 4, 5, 6, 7, 8, 9, 10, 11, 12, 13, 14, 15];
    let config = Config {
        clients: 2,
        key: Bytes::from_slice(alloc, &key)?,
        delta: 1000,
        dummy: 1_000_000,
        wire: 1,
    };
    RunRecord::new(alloc, config)
}

fn push(alloc: Global, run: &mut RunRecord, event: Event) -> Result<(), PushError> {
    if run.config().clients < 1 {
        return Err(PushError::OutOfMemory);
    }
    let input = match event {
        Event::Write => PushInput::Write(Bytes::from_slice(alloc, b"a")?),
        Event::Read => PushInput::Read(2),
        Event::Reply => PushInput::Reply(Bytes::from_slice(alloc, FIRST_REPLY)?),
        Event::Arrive => PushInput::Arrive,
    };
    run.push(1, input)
}

/// The run of these events.
fn played(alloc: Global, events: &[Event]) -> Result<RunRecord, PushError> {
    let mut run = two_clients(alloc)?;
    for event in events {
        push(alloc, &mut run, *event)?;
    }
    Ok(run)
}

fn found_in(alloc: Global, events: &[Event]) -> Result<Findings, PushError> {
    let run = played(alloc, events)?;
    let mut views = Views::new(alloc);
    views.push(Names::new(alloc))?;
    Ok(findings(alloc, &run, views)?)
}

/// Whether each run departs where it is said to.
fn depart_there(alloc: Global, runs: &[(&[Event], Option<u64>)]) -> Result<bool, PushError> {
    for (events, place) in runs {
        if departure(alloc, &played(alloc, events)?)? != *place {
            return Ok(false);
        }
    }
    Ok(true)
}

#[test]
fn a_reply_that_is_not_due_departs(rt: HostRuntime) -> Result<(), Fail> {
    let alloc = rt.alloc();
    let events = [
        Event::Write,
        Event::Arrive,
        Event::Reply,
        Event::Arrive,
        Event::Reply,
        Event::Reply,
    ];
    let early = [Event::Write, Event::Reply, Event::Arrive];
    let stale = [
        Event::Write,
        Event::Arrive,
        Event::Reply,
        Event::Arrive,
        Event::Read,
        Event::Arrive,
        Event::Reply,
    ];
    let runs: [(&[Event], Option<u64>); 4] = [
        (&events[..4], None),
        (&events, Some(4)),
        (&early, Some(1)),
        (&stale, Some(6)),
    ];
    assert!(rt; depart_there(alloc, &runs)?);
    Ok(())
}

#[test]
fn what_a_run_shows_is_gathered(rt: HostRuntime) -> Result<(), Fail> {
    let alloc = rt.alloc();
    let events = [
        Event::Write,
        Event::Arrive,
        Event::Reply,
        Event::Arrive,
        Event::Read,
        Event::Arrive,
    ];
    let found = found_in(alloc, &events)?;
    let first = OpName { client: 1, t: 1 };
    assert_eq!(rt; found.clients, 2);
    assert_eq!(rt; found.entries, 6);
    assert_eq!(rt; found.begun, 2);
    assert_eq!(rt; found.facts.len(), 3);
    assert_eq!(rt; found.views.len(), 1);
    assert_eq!(rt; found.departure, None);
    assert!(rt; found.order.as_slice() == [first].as_slice());
    for (fact, place) in found.facts.as_slice().iter().zip([0, 2, 4]) {
        assert_eq!(rt; fact.entry, place);
        assert_eq!(rt; fact.done.is_some(), place == 2);
        assert_eq!(rt; fact.cut.is_some(), place == 2);
    }
    Ok(())
}
