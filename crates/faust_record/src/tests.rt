ghost use Rattle.std.specs.Prelude.{◌≡◌, IsTrue, IfOk};
ghost use Rattle.faust_types.specs.Ranges.{IsConfig, IsWire};
ghost use Rattle.faust_record.specs.Journals.{IsNumberBehind};

use crate::{Input, Journal, PushError, PushInput, RunRecord, StepError};
use faust_types::{Bytes, Config, MAX_MESSAGE_LEN, MAX_TIMESTAMP, Notice, OutOfMemory};
use std::alloc::Global;
use std::test::Fail;

mod merging;

// Python's `hmac` and `hashlib` gave the messages of client 1, from the layouts of bodies and messages.
const SUBMIT_OF_A: &str =
    "020101010000000000000001352fbaf1d0763b484ffdd243407dfffdeef23b8c194f9a8c2d0451d034a09d384abcef5c3ca28a617ba6b8ae0bb0b00914422da068d31e676b0e3b7edd24b06e00016100";

const SUBMIT_OF_B: &str =
    "020101010000000000000002228fc558a500da25c49a29dd48acc6d81c1c9283e6a1453bfaf4c221663a7ae959fe41766d03c881306238d98ba7d4d4410ea87268357ce7941ede015749cddb00016201000000000000000100000000000000000127c24fcb8474773e2af799d0848495ff053272d33c432dc26277993df45c92760043c41b60cb5026b5490bba16cd08bd5b433be5e73edeab89f9d7b6900faee56e506bb519525b4145c646b71434a2a9d5508befe5552c7aec37d0be6b7ff72e4c";

const COMMIT_OF_B: &str =
    "0203000000000000000200000000000000000119011edf871b4c39ac322d1dd0b44b362065440107a2834f008a591ef226e8720070f04e0220f9e6ef60d1e2c801394a181ac399ebe5d825cb141ae18df5d6650bcc988f7f7367af247eafb79024cae88466fb698c9dc9e562aeae26a6a1cd7e7f";

// What an honest server answers to both.
const REPLY_TO_A: &str = "0202010000000000";

const REPLY_TO_B: &str =
    "02020101000000000000000100000000000000000127c24fcb8474773e2af799d0848495ff053272d33c432dc26277993df45c92760043c41b60cb5026b5490bba16cd08bd5b433be5e73edeab89f9d7b6900faee56e0001506bb519525b4145c646b71434a2a9d5508befe5552c7aec37d0be6b7ff72e4c0000";

const NO_REPLY: &str = "00";

const BROKEN: Notice = Notice { check: 1, place: 0 };

/// What comes to client 1 of two. A written value has this many bytes.
#[derive(Clone, Copy)]
enum Event {
    Write(u8, usize),
    Read(u8),
    Reply(&'static str),
    Tick(u64),
    Arrive,
}

fn digit(c: u8) -> u8 {
    match c {
        b'0'..=b'9' => c - b'0',
        b'a'..=b'f' => c - b'a' + 10,
        _ => 0,
    }
}

/// The bytes that a hexadecimal text spells.
fn bytes_of(alloc: Global, text: &str) -> Result<Bytes, OutOfMemory> {
    let mut bytes = Bytes::new(alloc);
    let mut high = None;
    for c in text.as_bytes() {
        match high {
            None => high = Some(digit(*c) << 4),
            Some(bits) => {
                bytes.push(bits | digit(*c))?;
                high = None;
            }
        }
    }
    Ok(bytes)
}

fn config(alloc: Global, wire: u8) -> Result<Config, OutOfMemory>
    requires { IsWire wire }
    ensures config { IfOk result IsConfig }
    ensures two { IfOk result (λ config. config.clients ≡ 2) }
{
    let key = [0, 1, 2, 3, 4, 5, 6, 7, 8, 9, 10, 11, 12, 13, 14, 15];
    Ok(Config {
        clients: 2,
        key: Bytes::from_slice(alloc, &key)?,
        delta: 1000,
        dummy: 1_000_000,
        wire,
    })
}

fn value(alloc: Global, byte: u8, len: usize) -> Result<Bytes, OutOfMemory> {
    Ok(Bytes::from_vec(Vec::from_elem(alloc, byte, len)?))
}

fn is_behind(journal: &Journal, number: u64) -> bool
    ensures { IsTrue result → IsNumberBehind journal.now.entries number }
{
    match journal.last() {
        None => true,
        Some(last) => last.number < number,
    }
}

/// A step: want of memory where it can't be asked for.
fn step(alloc: Global, journal: &mut Journal, number: u64, event: Event) -> Result<(), StepError> {
    if !is_behind(journal, number) {
        return Err(StepError::OutOfMemory);
    }
    match event {
        Event::Write(byte, len) => match value(alloc, byte, len) {
            Ok(value) => journal.step(number, Input::Write(value)),
            Err(OutOfMemory) => Err(StepError::OutOfMemory),
        },
        Event::Read(register) => journal.step(number, Input::Read(register)),
        Event::Reply(text) => match bytes_of(alloc, text) {
            Ok(bytes) => {
                if bytes.len() > MAX_MESSAGE_LEN {
                    return Err(StepError::OutOfMemory);
                }
                journal.step(number, Input::Reply(bytes))
            }
            Err(OutOfMemory) => Err(StepError::OutOfMemory),
        },
        Event::Tick(moment) => {
            if moment > MAX_TIMESTAMP {
                return Err(StepError::OutOfMemory);
            }
            journal.step(number, Input::Tick(moment))
        }
        Event::Arrive => Err(StepError::OutOfMemory),
    }
}

/// Whether each of the steps in turn is answered so, and only those that are taken make the journal longer.
fn are_answered(
    alloc: Global,
    journal: &mut Journal,
    steps: &[(u64, Event, Result<(), StepError>)],
) -> bool {
    for (number, event, want) in steps {
        let before = journal.len();
        let got = step(alloc, journal, *number, *event);
        if got != *want || (journal.len() > before) != want.is_ok() {
            return false;
        }
    }
    true
}

#[test]
fn a_journal_refuses_in_order(rt: HostRuntime) -> Result<(), Fail> {
    let alloc = rt.alloc();
    let config = config(alloc, 1)?;
    let mut journal = Journal::new(alloc, &config, 1)?;
    let steps = [
        (0, Event::Write(b'a', 4_097), Err(StepError::TooLong)),
        (0, Event::Read(3), Err(StepError::NoRegister)),
        (0, Event::Read(0), Err(StepError::NoRegister)),
        (0, Event::Write(b'a', 1), Ok(())),
        (2, Event::Write(b'b', 1), Err(StepError::Busy)),
        (2, Event::Write(b'b', 4_097), Err(StepError::TooLong)),
        (2, Event::Read(3), Err(StepError::NoRegister)),
        (2, Event::Tick(5), Ok(())),
        (7, Event::Reply(NO_REPLY), Ok(())),
        (8, Event::Write(b'b', 1), Err(StepError::Failed(BROKEN))),
        (8, Event::Write(b'b', 4_097), Err(StepError::TooLong)),
        (8, Event::Read(2), Err(StepError::Failed(BROKEN))),
        (8, Event::Tick(7), Ok(())),
    ];
    assert!(rt; are_answered(alloc, &mut journal, &steps));
    assert_eq!(rt; journal.client(), 1);
    assert_eq!(rt; journal.len(), 4);
    assert_eq!(rt; journal.agent().notice(), Some(BROKEN));
    assert_eq!(rt; journal.last().ok_or("no entry")?.number, 8);
    assert_eq!(rt;
        journal.entry(2).ok_or("no entry")?.outcome.notice(),
        Some(BROKEN)
    );
    assert!(rt; journal.entry(4).is_none());
    Ok(())
}

/// A push of client 1: want of memory where it can't be asked for.
fn push(alloc: Global, record: &mut RunRecord, event: Event) -> Result<(), PushError> {
    if record.config().clients < 1 {
        return Err(PushError::OutOfMemory);
    }
    match event {
        Event::Write(byte, len) => {
            let value = value(alloc, byte, len)?;
            record.push(1, PushInput::Write(value))
        }
        Event::Read(register) => record.push(1, PushInput::Read(register)),
        Event::Reply(text) => {
            let bytes = bytes_of(alloc, text)?;
            if bytes.len() > MAX_MESSAGE_LEN {
                return Err(PushError::OutOfMemory);
            }
            record.push(1, PushInput::Reply(bytes))
        }
        Event::Tick(moment) => {
            if moment > MAX_TIMESTAMP {
                return Err(PushError::OutOfMemory);
            }
            record.push(1, PushInput::Tick(moment))
        }
        Event::Arrive => record.push(1, PushInput::Arrive),
    }
}

fn message_of(record: &RunRecord, q: u64) -> &[u8] {
    match record.entry(q) {
        None => &[],
        Some(entry) => match &entry.input {
            Input::Arrive(message) => message.as_slice(),
            _ => &[],
        },
    }
}

fn sent_at(record: &RunRecord, q: u64) -> &[u8] {
    match record.entry(q) {
        None => &[],
        Some(entry) => match entry.outcome.to_server() {
            Some(message) => message.as_slice(),
            None => &[],
        },
    }
}

/// Whether each of the pushes in turn is answered so.
fn are_pushed(
    alloc: Global,
    record: &mut RunRecord,
    pushes: &[(Event, Result<(), PushError>)],
) -> bool {
    for (event, want) in pushes {
        let got = push(alloc, record, *event);
        if got != *want {
            return false;
        }
    }
    true
}

fn has_arrived(alloc: Global, record: &RunRecord, q: u64, text: &str) -> Result<bool, OutOfMemory> {
    Ok(message_of(record, q) == bytes_of(alloc, text)?.as_slice())
}

fn was_sent(alloc: Global, record: &RunRecord, q: u64, text: &str) -> Result<bool, OutOfMemory> {
    Ok(sent_at(record, q) == bytes_of(alloc, text)?.as_slice())
}

#[test]
fn a_commit_rides_and_is_released_by_a_tick(rt: HostRuntime) -> Result<(), Fail> {
    let alloc = rt.alloc();
    let config = config(alloc, 2)?;
    let mut record = RunRecord::new(alloc, config)?;
    let pushes = [
        (Event::Arrive, Err(PushError::Nothing)),
        (Event::Write(b'a', 4_097), Err(PushError::TooLong)),
        (Event::Read(3), Err(PushError::NoRegister)),
        (Event::Write(b'a', 1), Ok(())),
        (Event::Read(2), Err(PushError::Busy)),
        (Event::Arrive, Ok(())),
        (Event::Reply(REPLY_TO_A), Ok(())),
        (Event::Arrive, Err(PushError::Nothing)),
        (Event::Write(b'b', 1), Ok(())),
        (Event::Arrive, Ok(())),
        (Event::Reply(REPLY_TO_B), Ok(())),
        (Event::Tick(1000), Ok(())),
        (Event::Arrive, Ok(())),
        (Event::Arrive, Err(PushError::Nothing)),
    ];
    assert!(rt; are_pushed(alloc, &mut record, &pushes));
    assert_eq!(rt; record.len(), 8);
    assert!(rt; has_arrived(alloc, &record, 1, SUBMIT_OF_A)?);
    assert!(rt; has_arrived(alloc, &record, 4, SUBMIT_OF_B)?);
    assert!(rt; has_arrived(alloc, &record, 7, COMMIT_OF_B)?);
    assert!(rt; was_sent(alloc, &record, 6, COMMIT_OF_B)?);
    let tick = record.entry(6).ok_or("no entry")?;
    assert_eq!(rt; tick.number, 6);
    assert!(rt; tick.outcome.probed() == [2].as_slice());
    assert!(rt; record.entry(8).is_none());
    Ok(())
}
