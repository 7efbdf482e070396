use crate::{Clocks, live};
use faust_io::{ListClock, MemSink, RefusingSpawner};
use faust_link::MemNet;
use faust_outcome::LiveStatus;
use faust_types::{Bytes, OutOfMemory};
use std::alloc::Global;
use std::str;
use std::sync::Wait;
use std::test::Fail;
use std::thread::Threads;

/// Clocks that end at once.
fn clocks(alloc: Global) -> Result<Clocks<ListClock>, OutOfMemory> {
    let mut clocks = Vec::new(alloc);
    for _ in 0..8u64 {
        clocks.push(ListClock::new(alloc, &[])?)?;
    }
    Ok(Clocks::of(clocks))
}

fn words(alloc: Global, words: &[&str]) -> Result<Vec<String>, OutOfMemory> {
    let mut list = Vec::new(alloc);
    for word in words {
        list.push(String::from_str(alloc, word)?)?;
    }
    Ok(list)
}

/// The status of a run over a net in memory whose spawner refuses these starts, and the text that it wrote.
fn came_to<R: Threads + Wait + Sync, Q: Wait + Copy + Send>(
    rt: &R,
    alloc: Global,
    net: &mut MemNet<Q>,
    refused: &[u64],
    form: &[&str],
) -> Result<(LiveStatus, Bytes), OutOfMemory> {
    let words = words(alloc, form)?;
    let mut spawner = RefusingSpawner::new(alloc, refused)?;
    let mut sink = MemSink::new(alloc, 100_000, 100, &[])?;
    let clocks = clocks(alloc)?;
    let status = live(
        rt,
        alloc,
        words.as_slice(),
        net,
        &mut spawner,
        clocks,
        &mut sink,
    );
    Ok((status, Bytes::from_slice(alloc, sink.bytes())?))
}

const MEETING: &str = "live clients 2\nuser operations 2 of 2\ndeparture none\nfailures 0\nend\n";

#[test]
fn clients_that_wait_for_each_other_are_all_served(rt: HostRuntime) -> Result<(), Fail> {
    let alloc = rt.alloc();
    let mut net = MemNet::new(&rt, alloc, 2, &[], &[])?;
    net.meet();
    let form = ["live", "2", "1", "00", "short"];
    let (status, text) = came_to(&rt, alloc, &mut net, &[], &form)?;
    assert_eq!(rt; status, LiveStatus::Done);
    assert_eq!(rt; text.as_slice(), MEETING.as_bytes());
    Ok(())
}

/// The value that a line of a read shows, and the register: the words of `Q done I.T read XJ V asof A`.
fn reads_what_was_written(line: &str) -> bool {
    let mut words = line.split(' ');
    let (Some(_), Some(_), Some(_), Some(kind), Some(register)) = (
        words.next(),
        words.next(),
        words.next(),
        words.next(),
        words.next(),
    ) else {
        return false;
    };
    if kind != "read" {
        return true;
    }
    match (register, words.next()) {
        (_, Some("none")) => true,
        ("X1", Some("\"1-1\"" | "\"1-3\"")) => true,
        ("X2", Some("\"2-1\"" | "\"2-3\"")) => true,
        _ => false,
    }
}

#[test]
fn users_write_and_read_by_turns(rt: HostRuntime) -> Result<(), Fail> {
    let alloc = rt.alloc();
    let mut net = MemNet::new(&rt, alloc, 2, &[], &[])?;
    let form = ["live", "2", "3", "00", "full"];
    let (status, text) = came_to(&rt, alloc, &mut net, &[], &form)?;
    assert_eq!(rt; status, LiveStatus::Done);
    let Ok(text) = str::from_utf8(text.as_slice()) else {
        panic!(rt; "the report is no text");
    };
    let mut done = 0u64;
    for line in text.lines() {
        if line.contains(" done ") {
            done = done.saturating_add(1);
            assert!(rt; reads_what_was_written(line), "{line}");
        }
    }
    assert_eq!(rt; done, 6);
    Ok(())
}

#[test]
fn what_fails_is_named(rt: HostRuntime) -> Result<(), Fail> {
    let alloc = rt.alloc();
    let form = ["live", "2", "1", "00", "short"];
    for refused in [1, 7, 14] {
        let mut net = MemNet::new(&rt, alloc, 2, &[], &[])?;
        let (status, text) = came_to(&rt, alloc, &mut net, &[refused], &form)?;
        assert_eq!(rt; status, LiveStatus::StartFault);
        assert_eq!(rt; text.as_slice(), b"start fault\n".as_slice());
    }
    let mut net = MemNet::new(&rt, alloc, 2, &[1], &[])?;
    let (status, text) = came_to(&rt, alloc, &mut net, &[], &form)?;
    assert_eq!(rt; status, LiveStatus::LinkFault);
    assert_eq!(rt; text.as_slice(), b"link fault\n".as_slice());
    let (status, _) = came_to(
        &rt,
        alloc,
        &mut net,
        &[],
        &["live", "1", "1", "00", "short"],
    )?;
    assert_eq!(rt; status, LiveStatus::Usage);
    Ok(())
}

/// The status and the text of a run of two clients, in which one bit of this frame of client 1 is changed. The first
/// datagram is lost, and the second comes twice.
fn changed<R: Threads + Wait + Sync>(
    rt: &R,
    alloc: Global,
    to_server: bool,
    frame: usize,
) -> Result<(LiveStatus, Bytes), OutOfMemory> {
    let mut net = MemNet::new(rt, alloc, 2, &[], &[1, 2])?;
    net.flip(1, to_server, frame)?;
    let form = ["live", "2", "1", "00", "full"];
    came_to(rt, alloc, &mut net, &[], &form)
}

#[test]
fn a_changed_reply_is_a_departure(rt: HostRuntime) -> Result<(), Fail> {
    let (status, text) = changed(&rt, rt.alloc(), false, 1)?;
    assert_eq!(rt; status, LiveStatus::Done);
    let Ok(text) = str::from_utf8(text.as_slice()) else {
        panic!(rt; "the report is no text");
    };
    let (mut failed, mut departed) = (None, None);
    for line in text.lines() {
        if let Some(entry) = line.strip_suffix(" fail 1: check 1 place 0") {
            failed = Some(entry);
        }
        if let Some(entry) = line.strip_prefix("departure ") {
            departed = Some(entry);
        }
    }
    assert!(rt; failed.is_some(), "{text}");
    assert!(rt; failed == departed, "{text}");
    Ok(())
}

#[test]
fn a_changed_message_differs_or_is_refused(rt: HostRuntime) -> Result<(), Fail> {
    let (status, text) = changed(&rt, rt.alloc(), true, 2)?;
    assert_eq!(rt; status, LiveStatus::LinkFault);
    let line = b"frame differs: client 1 message 1 sent ";
    assert!(rt; text.as_slice().starts_with(line));
    let (status, text) = changed(&rt, rt.alloc(), true, 1)?;
    assert_eq!(rt; status, LiveStatus::Mismatch);
    let line = b"receipts short: user 1 has 0 of 1\n".as_slice();
    assert_eq!(rt; text.as_slice(), line);
    Ok(())
}

#[test]
fn no_changed_frame_holds_a_run_up(rt: HostRuntime) -> Result<(), Fail> {
    for frame in 1..6 {
        for to_server in [true, false] {
            let (status, _) = changed(&rt, rt.alloc(), to_server, frame)?;
            assert!(rt;
                matches!(
                    status,
                    LiveStatus::Done | LiveStatus::LinkFault | LiveStatus::Mismatch
                )
            );
        }
    }
    Ok(())
}

#[test]
fn each_write_fails_in_its_place(rt: HostRuntime) -> Result<(), Fail> {
    let alloc = rt.alloc();
    let words = words(alloc, &["live", "2", "1", "00", "short"])?;
    for call in 1..100u64 {
        let mut net = MemNet::new(&rt, alloc, 2, &[], &[])?;
        let mut spawner = RefusingSpawner::new(alloc, &[])?;
        let mut sink = MemSink::new(alloc, 1_000, 1, &[call])?;
        let clocks = clocks(alloc)?;
        let status = live(
            &rt,
            alloc,
            words.as_slice(),
            &mut net,
            &mut spawner,
            clocks,
            &mut sink,
        );
        let written = sink.bytes();
        assert!(rt; MEETING.as_bytes().starts_with(written));
        if status == LiveStatus::Done {
            assert_eq!(rt; written, MEETING.as_bytes());
            return Ok(());
        }
        assert_eq!(rt; status, LiveStatus::WriteFault);
        assert_eq!(rt; (written.len() as u64).saturating_add(1), call);
        assert_eq!(rt; sink.faults(), 1);
    }
    panic!(rt; "no run has a status without a fault");
}
