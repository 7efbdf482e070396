ghost use Rattle.std.specs.Prelude.{IfOk};
ghost use Rattle.faust_types.specs.Ranges.{IsConfig};
ghost use Rattle.faust_record.specs.Refusals.{IsPushInput};

use crate::{forks, view, views};
use faust_record::{PushError, PushInput, RunRecord};
use faust_types::{Bytes, Config, MAX_MESSAGE_LEN, OpName, OutOfMemory};
use std::alloc::Global;
use std::test::Fail;

// What a server answers that shows client 2 a state without the second write. Python's `hmac` and `hashlib` gave the tags
// and digests, from the layouts of bodies and messages.
const REPLY_TO_FIRST_WRITE: &str = "0102010000000000";

const REPLY_TO_SECOND_WRITE: &str =
    "01020101000000000000000100000000000000000127c24fcb8474773e2af799d0848495ff053272d33c432dc26277993df45c92760043c41b60cb5026b5490bba16cd08bd5b433be5e73edeab89f9d7b6900faee56e0001506bb519525b4145c646b71434a2a9d5508befe5552c7aec37d0be6b7ff72e4c0000";

const REPLY_TO_READ: &str =
    "01020101000000000000000100000000000000000127c24fcb8474773e2af799d0848495ff053272d33c432dc26277993df45c92760043c41b60cb5026b5490bba16cd08bd5b433be5e73edeab89f9d7b6900faee56e0001506bb519525b4145c646b71434a2a9d5508befe5552c7aec37d0be6b7ff72e4c00010101000000000000000100000000000000000127c24fcb8474773e2af799d0848495ff053272d33c432dc26277993df45c92760043c41b60cb5026b5490bba16cd08bd5b433be5e73edeab89f9d7b6900faee56e010000000000000001010001614abcef5c3ca28a617ba6b8ae0bb0b00914422da068d31e676b0e3b7edd24b06e";

const FIRST: OpName = OpName { client: 1, t: 1 };

const SECOND: OpName = OpName { client: 1, t: 2 };

const READ: OpName = OpName { client: 2, t: 1 };

fn digit(c: u8) -> u8 {
    match c {
        b'0'..=b'9' => c - b'0',
        b'a'..=b'f' => c - b'a' + 10,
        _ => 0,
    }
}

/// The bytes that a hexadecimal text spells.
fn bytes_of(alloc: Global, text: &str) -> Result<Bytes, OutOfMemory> {
    let mut bytes = Bytes::new(alloc);
    let mut high = None;
    for c in text.as_bytes() {
        match high {
            None => high = Some(digit(*c) << 4),
            Some(bits) => {
                bytes.push(bits | digit(*c))?;
                high = None;
            }
        }
    }
    Ok(bytes)
}

fn config(alloc: Global) -> Result<Config, OutOfMemory>
    ensures { IfOk result IsConfig }
{
    let key = [0, 1, 2, 3, 4, 5, 6, 7, 8, 9, 10, 11, 12, 13, 14, 15];
    Ok(Config {
        clients: 2,
        key: Bytes::from_slice(alloc, &key)?,
        delta: 1000,
        dummy: 1_000_000,
        wire: 1,
    })
}

/// An input of a client: want of memory where there is no such client.
fn push(record: &mut RunRecord, client: u8, input: PushInput) -> Result<(), PushError>
    requires { IsPushInput input }
{
    if client < 1 || client > record.config().clients {
        return Err(PushError::OutOfMemory);
    }
    record.push(client, input)
}

fn reply(alloc: Global, record: &mut RunRecord, client: u8, text: &str) -> Result<(), PushError> {
    let bytes = bytes_of(alloc, text)?;
    if bytes.len() > MAX_MESSAGE_LEN {
        return Err(PushError::OutOfMemory);
    }
    push(record, client, PushInput::Reply(bytes))
}

/// Client 1 writes twice, and client 2 reads what it wrote first.
fn forked_run(alloc: Global) -> Result<RunRecord, PushError> {
    let mut record = RunRecord::new(alloc, config(alloc)?)?;
    let first = Bytes::from_slice(alloc, b"a")?;
    push(&mut record, 1, PushInput::Write(first))?;
    reply(alloc, &mut record, 1, REPLY_TO_FIRST_WRITE)?;
    let second = Bytes::from_slice(alloc, b"b")?;
    push(&mut record, 1, PushInput::Write(second))?;
    reply(alloc, &mut record, 1, REPLY_TO_SECOND_WRITE)?;
    push(&mut record, 2, PushInput::Read(1))?;
    reply(alloc, &mut record, 2, REPLY_TO_READ)?;
    Ok(record)
}

#[test]
fn a_fork_is_seen(rt: HostRuntime) -> Result<(), Fail> {
    let alloc = rt.alloc();
    let record = forked_run(alloc)?;
    assert!(rt; record.len() < 1 << 27);
    let forks = forks(alloc, &record)?;
    assert_eq!(rt; forks.tree.len(), 3);
    assert_eq!(rt;
        forks.ends.as_slice(),
        [(FIRST, 0), (SECOND, 1), (READ, 2)].as_slice()
    );
    let seen = views(alloc, &record)?;
    assert_eq!(rt; seen.len(), 2);
    assert_eq!(rt; seen.at(0).as_slice(), [FIRST, SECOND].as_slice());
    assert_eq!(rt;
        view(alloc, &record, 2)?.as_slice(),
        [FIRST, READ].as_slice()
    );
    Ok(())
}
