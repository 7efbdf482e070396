ghost use Rattle.std.specs.Prelude.{◌≡◌, IfOk};
ghost use Rattle.faust_types.specs.Ranges.{IsConfig, IsWire};

use crate::{Receipts, differs, short};
use faust_node::Receipt;
use faust_record::{PushError, PushInput, RunRecord};
use faust_types::{
    Answer, Bytes, Config, Kind, MAX_MESSAGE_LEN, OpName, Operation, OutOfMemory, Sequence,
};
use std::alloc::Global;
use std::test::Fail;

// What an honest server answers to the first operation of all.
const FIRST_REPLY: [u8; 8] = [1, 2, 1, 0, 0, 0, 0, 0];

/// What happens to client 1.
#[derive(Clone, Copy)]
enum Event {
    Write,
    Arrive,
    Reply,
}

fn config(alloc: Global, wire: u8) -> Result<Config, OutOfMemory>
    requires { IsWire wire }
    ensures config { IfOk result IsConfig }
{
    let key = [0, 1, 2, 3, 4, 5, 6, 7, 8, 9, 10, 11, 12, 13, 14, 15];
    Ok(Config {
        clients: 2,
        key: Bytes::from_slice(alloc, &key)?,
        delta: 1000,
        dummy: 1_000_000,
        wire,
    })
}

/// A push of client 1: want of memory where it can't be asked for.
fn push(alloc: Global, run: &mut RunRecord, event: Event) -> Result<(), PushError> {
    if run.config().clients < 1 {
        return Err(PushError::OutOfMemory);
    }
    match event {
        Event::Write => {
            let value = Bytes::from_slice(alloc, b"a")?;
            run.push(1, PushInput::Write(value))
        }
        Event::Arrive => run.push(1, PushInput::Arrive),
        Event::Reply => {
            let bytes = Bytes::from_slice(alloc, &FIRST_REPLY)?;
            if bytes.len() > MAX_MESSAGE_LEN {
                return Err(PushError::OutOfMemory);
            }
            run.push(1, PushInput::Reply(bytes))
        }
    }
}

/// A run of two clients: client 1 writes `a`, and an honest server answers.
fn one_write(alloc: Global) -> Result<RunRecord, PushError> {
    let config = config(alloc, 1)?;
    let mut run = RunRecord::new(alloc, config)?;
    for event in [Event::Write, Event::Arrive, Event::Reply, Event::Arrive] {
        push(alloc, &mut run, event)?;
    }
    Ok(run)
}

/// That operation 1.1, a write, completed in this entry.
fn receipt(number: u64) -> Receipt {
    let op = Operation {
        name: OpName { client: 1, t: 1 },
        kind: Kind::Write,
        register: 1,
        dummy: false,
    };
    let answer = Answer {
        op,
        value: None,
        asof: 0,
    };
    Receipt::new(number, answer)
}

/// The receipts of the user of client 1, each with its number; that of client 2 has none.
fn receipts(alloc: Global, numbers: &[u64]) -> Result<Receipts, OutOfMemory> {
    let mut first = Sequence::new(alloc);
    for number in numbers {
        first.push(receipt(*number))?;
    }
    let mut all = Sequence::new(alloc);
    all.push(first)?;
    all.push(Sequence::new(alloc))?;
    Ok(all)
}

/// Whether a line is this one: none where it is empty.
fn is_line(line: &Option<Bytes>, expected: &str) -> bool {
    match line {
        None => expected.is_empty(),
        Some(line) => line.as_slice() == expected.as_bytes(),
    }
}

/// Whether `differs` says so of these receipts.
fn is_differing(
    alloc: Global,
    run: &RunRecord,
    numbers: &[u64],
    expected: &str,
) -> Result<bool, OutOfMemory> {
    let receipts = receipts(alloc, numbers)?;
    if receipts.len() != usize::from(run.config().clients) {
        return Ok(false);
    }
    Ok(is_line(&differs(alloc, run, &receipts)?, expected))
}

/// Whether `short` says so of them.
fn is_short(
    alloc: Global,
    run: &RunRecord,
    numbers: &[u64],
    ops: u64,
    expected: &str,
) -> Result<bool, OutOfMemory> {
    let receipts = receipts(alloc, numbers)?;
    if receipts.len() != usize::from(run.config().clients) {
        return Ok(false);
    }
    Ok(is_line(&short(alloc, run, &receipts, ops)?, expected))
}

#[test]
fn a_receipt_that_differs_is_named(rt: HostRuntime) -> Result<(), Fail> {
    let alloc = rt.alloc();
    let run = one_write(alloc)?;
    let other = "receipt differs: 1 done 1.1 write X1 | 2 done 1.1 write X1";
    let again = "receipt differs: 2 done 1.1 write X1 | none";
    assert!(rt; is_differing(alloc, &run, &[], "")?);
    assert!(rt; is_differing(alloc, &run, &[2], "")?);
    assert!(rt; is_differing(alloc, &run, &[1], other)?);
    assert!(rt; is_differing(alloc, &run, &[2, 2], again)?);
    Ok(())
}

#[test]
fn a_user_that_is_short_is_named(rt: HostRuntime) -> Result<(), Fail> {
    let alloc = rt.alloc();
    let run = one_write(alloc)?;
    assert!(rt; is_short(alloc, &run, &[], 0, "")?);
    assert!(rt; is_short(alloc, &run, &[], 1, "receipts short: user 1 has 0 of 1")?);
    assert!(rt; is_short(alloc, &run, &[2], 1, "receipts short: user 2 has 0 of 1")?);
    Ok(())
}
