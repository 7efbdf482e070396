use super::in_range::{is_client, is_reply_for};
use super::replies::{DONE, HONEST, KEY, Made, OWN, PART, Part, Row, by_2, reply_of, walk_of};
use crate::hashed;
use faust_types::{Bytes, Kind, MAX_TIMESTAMP, OpName, Operation, OutOfMemory, Reply, Sequence};
use std::alloc::Global;
use std::test::Fail;

// What an honest reply has client 1 hash: the chains with the clients of both tuples and its own, and the value.
// The digests are those of Python's `hashlib`.
const INPUTS: [&[u8]; 4] = [
    b"\x10\xb0\x23\x31\x3e\xcc\x2b\xd2\x37\x7c\x09\x52\x2c\x6c\x4a\x2a\x1d\xef\x7f\x50\x35\xbc\x19\x34\x07\xab\x38\x77\xf0\x41\x6a\x75\xff\x03",
    b"\x10\x0c\x90\xeb\x9c\x83\x31\x13\x44\x4c\x93\xb9\x76\xef\x54\xbe\x13\x20\xd9\xb7\x3d\x66\x0a\xc9\x1e\xdb\x57\x14\xaf\x98\x0b\x09\x6b\x02",
    b"\x10\xbc\x1e\x57\x83\x33\x88\xf8\x59\xc8\x89\xde\x6b\x88\x52\xd3\x45\xb2\xac\x29\x9e\xd6\xd6\x80\x2e\x4d\x54\x93\x7b\xab\x2c\xaf\xec\x01",
    b"\x11two",
];

/// What client 1 hashes when it judges the reply to its read of register 2: nothing of a reply out of range.
fn inputs_of(alloc: Global, reply: &Reply) -> Result<Sequence<Bytes>, OutOfMemory> {
    let own = walk_of(alloc, 4, OWN)?.version;
    if !is_client(own.clients(), 1)
        || own.at(1) >= MAX_TIMESTAMP
        || !is_reply_for(own.clients(), reply)
    {
        return Ok(Sequence::new(alloc));
    }
    let op = Operation {
        name: OpName {
            client: 1,
            t: own.at(1) + 1,
        },
        kind: Kind::Read,
        register: 2,
        dummy: false,
    };
    hashed(alloc, KEY, 1, &own, &op, reply)
}

#[test]
fn inputs_end_at_the_first_broken_check(rt: HostRuntime) -> Result<(), Fail> {
    let other_tag = Row {
        version: Made { by: 3, ..DONE },
        ..HONEST
    };
    let wrong_second = Row {
        tuples: &[(3, 2), (2, 2)],
        ..HONEST
    };
    let version_of_3 = Part {
        version: Made { by: 3, ..DONE },
        ..PART
    };
    let version_above = Part {
        version: by_2(&[2, 3, 1, 2, 3, 2]),
        ..PART
    };
    let check_9 = Row {
        part: Some(version_of_3),
        ..HONEST
    };
    let check_12 = Row {
        part: Some(version_above),
        ..HONEST
    };
    let cases = [
        (HONEST, 4),
        (other_tag, 0),
        (wrong_second, 1),
        (check_9, 3),
        (check_12, 4),
    ];
    for (row, count) in &cases {
        let reply = reply_of(rt.alloc(), row)?;
        let inputs = inputs_of(rt.alloc(), &reply)?;
        assert_eq!(rt; inputs.len(), *count);
        for (input, expected) in inputs.as_slice().iter().zip(&INPUTS) {
            assert_eq!(rt; input.as_slice(), *expected);
        }
    }
    Ok(())
}
