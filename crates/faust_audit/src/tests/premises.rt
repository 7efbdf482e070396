ghost use Rattle.std.specs.Prelude.{◌≡◌, ◌≤◌, length, IfOk};
ghost use Rattle.faust_types.specs.Ranges.{IsConfig};
ghost use Rattle.faust_record.specs.Refusals.{IsPushInput};

use crate::{Bodies, Pairs, Premises, made, pairs, premises};
use faust_record::{PushError, PushInput, RunRecord};
use faust_types::{Bytes, Config, OutOfMemory};
use std::alloc::Global;
use std::test::Fail;

const KEY: [u8; 16] = [0, 1, 2, 3, 4, 5, 6, 7, 8, 9, 10, 11, 12, 13, 14, 15];

// What an honest server answers to the first operation of all, a write.
const REPLY: [u8; 8] = [1, 2, 1, 0, 0, 0, 0, 0];

// The body of a SUBMIT of the first operation of client 2, which writes its register; and a reply that shows this
// operation with its right tag, as Python's `hmac` gave it.
const FORGED: [u8; 12] = [1, 2, 1, 2, 0, 0, 0, 0, 0, 0, 0, 1];

const LIE: [u8; 43] = [
    1, 2, 1, 0, 1, 2, 1, 2, 213, 124, 181, 111, 157, 31, 194, 58, 220, 45, 100, 220, 113, 40, 226,
    214, 77, 154, 179, 27, 109, 116, 176, 112, 90, 10, 143, 13, 41, 160, 211, 84, 0, 0, 0,
];

// The bodies of the SUBMIT of client 1, which writes "a", with the digest that Python's `hashlib` gave.
const SUBMITTED: [u8; 12] = [1, 1, 1, 1, 0, 0, 0, 0, 0, 0, 0, 1];

const WRITTEN: [u8; 43] = [
    2, 1, 0, 0, 0, 0, 0, 0, 0, 1, 1, 13, 35, 57, 28, 75, 31, 173, 38, 133, 220, 160, 12, 105, 173,
    68, 138, 0, 49, 100, 160, 209, 231, 60, 239, 48, 184, 246, 154, 134, 236, 154, 186,
];

fn config(alloc: Global) -> Result<Config, OutOfMemory>
    ensures config { IfOk result IsConfig }
    ensures two { IfOk result (λ config. config.clients ≡ 2) }
{
    Ok(Config {
        clients: 2,
        key: Bytes::from_slice(alloc, &KEY)?,
        delta: 1000,
        dummy: 1_000_000,
        wire: 1,
    })
}

// Client 1 of two writes "a", its SUBMIT arrives, and it is handed these bytes as the reply.
fn run_with(alloc: Global, reply: &[u8]) -> Result<RunRecord, PushError>
    requires { length reply.now ≤ 16384 }
{
    let mut rec = RunRecord::new(alloc, config(alloc)?)?;
    push(&mut rec, PushInput::Write(Bytes::from_slice(alloc, b"a")?))?;
    push(&mut rec, PushInput::Arrive)?;
    push(&mut rec, PushInput::Reply(Bytes::from_slice(alloc, reply)?))?;
    Ok(rec)
}

// One more entry of client 1.
fn push(rec: &mut RunRecord, input: PushInput) -> Result<(), PushError>
    requires { IsPushInput input }
{
    if rec.config().clients == 0 {
        return Err(PushError::NoRegister);
    }
    rec.push(1, input)
}

// The body of a forged tag and its entry.
fn forged_in(found: Premises) -> Option<(u64, Bytes)> {
    match found {
        Premises::Forged { entry, body } => Some((entry, body)),
        Premises::Clean | Premises::Collision { .. } => None,
    }
}

fn pairs_at(alloc: Global, rec: &RunRecord, q: u64) -> Result<Pairs, OutOfMemory> {
    if q < rec.len() {
        pairs(alloc, rec, q)
    } else {
        Err(OutOfMemory)
    }
}

fn made_at(alloc: Global, rec: &RunRecord, q: u64) -> Result<Bodies, OutOfMemory> {
    if q < rec.len() {
        made(alloc, rec, q)
    } else {
        Err(OutOfMemory)
    }
}

#[test]
fn an_honest_run_is_clean(rt: HostRuntime) -> Result<(), Fail> {
    let alloc = rt.alloc();
    let rec = run_with(alloc, &REPLY)?;
    assert!(rt; matches!(premises(alloc, &rec)?, Premises::Clean));
    let bodies = made_at(alloc, &rec, 0)?;
    assert_eq!(rt; bodies.len(), 2);
    let [submitted, written] = bodies.as_slice() else {
        return Err("two bodies".into());
    };
    assert!(rt; submitted.as_slice() == SUBMITTED.as_slice());
    assert!(rt; written.as_slice() == WRITTEN.as_slice());
    assert_eq!(rt; made_at(alloc, &rec, 1)?.len(), 0);
    assert_eq!(rt; made_at(alloc, &rec, 2)?.len(), 2);
    Ok(())
}

#[test]
fn a_forged_tag_names_its_entry_and_body(rt: HostRuntime) -> Result<(), Fail> {
    let alloc = rt.alloc();
    let rec = run_with(alloc, &LIE)?;
    let (entry, body) = forged_in(premises(alloc, &rec)?).ok_or("no forgery")?;
    assert_eq!(rt; entry, 2);
    assert!(rt; body.as_slice() == FORGED.as_slice());
    let pairs = pairs_at(alloc, &rec, 2)?;
    let [pair] = pairs.as_slice() else {
        return Err("one pair".into());
    };
    assert!(rt; pair.body.as_slice() == FORGED.as_slice());
    assert!(rt; pair.right);
    Ok(())
}
