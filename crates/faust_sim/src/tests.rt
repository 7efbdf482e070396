use crate::error::PlayError;
use crate::playing::play;
use faust_record::RunRecord;
use faust_script::parse;
use faust_text::Cause;
use faust_types::{Bytes, Notice};
use std::alloc::Global;
use std::test::Fail;

const HEAD: &str =
    "faust 1\nclients 2\nkey 000102030405060708090a0b0c0d0e0f\ndelta 1000\ndummy 1000000\n";

const HEAD_OF_WIRE_2: &str =
    "faust 2\nwire 2\nclients 2\nkey 000102030405060708090a0b0c0d0e0f\ndelta 1000\ndummy 1000000\n";

const WRITE: &str = "write 1 \"a\"\narrive 1\nreply 1\narrive 1\n";

/// The run of a script with this head and these events: want of memory where the script can't be read.
fn played(alloc: Global, head: &str, front: &str, events: &str) -> Result<RunRecord, PlayError> {
    let mut text = Bytes::new(alloc);
    text.append(head.as_bytes())?;
    text.append(front.as_bytes())?;
    text.append(events.as_bytes())?;
    text.append(b"end\n")?;
    match parse(alloc, text.as_slice()) {
        Ok(script) => play(alloc, &script),
        Err(_) => Err(PlayError::OutOfMemory),
    }
}

/// Whether an operation completes in entry q.
fn completes(run: &RunRecord, q: u64) -> bool {
    match run.entry(q) {
        Some(entry) => entry.outcome.answer().is_some(),
        None => false,
    }
}

/// The notice that the last entry gives.
fn last_notice(run: &RunRecord) -> Option<Notice> {
    run.entry(run.len().checked_sub(1)?)?.outcome.notice()
}

fn broken(check: u8, place: u32) -> Option<Notice> {
    Some(Notice { check, place })
}

// The expected values were worked out by hand, and a second program gave them too.
#[test]
fn honest_scripts_are_played(rt: HostRuntime) -> Result<(), Fail> {
    let run = played(rt.alloc(), HEAD, WRITE, "")?;
    assert_eq!(rt; run.len(), 4);
    assert!(rt; completes(&run, 2));
    let more = "write 1 \"b\"\narrive 1\nreply 1\ntick 1 1000\narrive 1\n";
    let run = played(
        rt.alloc(),
        HEAD_OF_WIRE_2,
        "write 1 \"a\"\narrive 1\nreply 1\n",
        more,
    )?;
    assert_eq!(rt; run.len(), 8);
    assert!(rt; completes(&run, 5));
    Ok(())
}

#[test]
fn lies_are_told(rt: HostRuntime) -> Result<(), Fail> {
    let fork =
        "branch 0 1\nroute 2 1\nread 2 1\narrive 2\nreply 2\narrive 2\ntick 1 1000\npeer 1 2 1\npeer 2 1 1\nwrite 1 \"a\"\narrive 1\nreply 1\n";
    let cases = [
        (WRITE, "again 1 1\n", 5, broken(2, 0)),
        (
            "write 1 \"a\"\narrive 1\n",
            "edit 1 add 2 write 2\n",
            3,
            broken(8, 1),
        ),
        (
            "write 1 \"a\"\narrive 1\n",
            "forge 1 add 2 write 2\n",
            3,
            None,
        ),
        ("write 1 \"a\"\narrive 1\n", "raw 1 0x00\n", 3, broken(1, 0)),
        (WRITE, "echo 1 1 0\npost 1 0x00\n", 5, None),
        ("", fork, 10, broken(13, 2)),
    ];
    for (front, events, entries, notice) in cases {
        let run = played(rt.alloc(), HEAD, front, events)?;
        assert_eq!(rt; run.len(), entries, "{events}");
        assert_eq!(rt; last_notice(&run), notice, "{events}");
    }
    Ok(())
}

#[test]
fn what_cannot_be_played_is_named(rt: HostRuntime) -> Result<(), Fail> {
    let cases = [
        (HEAD, "", "write 1 \"a\"\nwrite 1 \"b\"\n", 7, Cause::Busy),
        (HEAD, WRITE, "again 1 1\nwrite 1 \"b\"\n", 11, Cause::Failed),
        (HEAD_OF_WIRE_2, WRITE, "", 10, Cause::Nothing),
        (HEAD, WRITE, "reply 1\n", 10, Cause::Nothing),
        (HEAD, "tick 1 1000\n", "peer 2 1 1\n", 7, Cause::Nothing),
        (HEAD, "tick 1 1000\n", "peer 1 1 1\n", 7, Cause::Nothing),
        (HEAD, "", "branch 0 2\n", 6, Cause::Branch),
        (HEAD, "", "echo 1 1 7\n", 6, Cause::Nothing),
        (HEAD, WRITE, "echo 1 1 7\n", 10, Cause::Branch),
        (
            HEAD,
            "write 1 \"a\"\narrive 1\n",
            "edit 1 drop 1\n",
            8,
            Cause::Field,
        ),
    ];
    for (head, front, events, line, cause) in cases {
        let refused = played(rt.alloc(), head, front, events).err();
        assert_eq!(rt;
            refused,
            Some(PlayError::Cannot { line, cause }),
            "{front}{events}"
        );
    }
    Ok(())
}
