use super::answer;
use super::in_range::is_client;
use super::replies::{HONEST, Held, Made, ONE, OWN, PART, Part, Row, of_all, reply_of};
use crate::Judged;
use faust_types::{Bytes, Kind, Tag, Version};
use std::test::Fail;

/// What a test looks at of an answer: in the next version the timestamps of clients 1 to 4 and the own digest,
/// whether the value is the one expected, its operation, and the maker of the version that was heard.
type Told = ([u64; 4], Option<Tag>, bool, u64, Option<u8>);

fn told(me: u8, judged: &Judged, value: Option<&[u8]>) -> Told {
    let next = &judged.next;
    let digest = if is_client(next.clients(), me) {
        next.digest(me)
    } else {
        None
    };
    let heard = match &judged.heard {
        None => None,
        Some(known) => Some(known.maker),
    };
    let found = is_value(&judged.value, value);
    (times(next), digest, found, judged.asof, heard)
}

fn times(version: &Version) -> [u64; 4] {
    if version.clients() < 4 {
        return [0; 4];
    }
    [version.at(1), version.at(2), version.at(3), version.at(4)]
}

fn is_value(value: &Option<Bytes>, expected: Option<&[u8]>) -> bool {
    match (value, expected) {
        (None, None) => true,
        (Some(value), Some(expected)) => value.as_slice() == expected,
        _ => false,
    }
}

// Digests of the chains of the operations so far, by Python's `hashlib`.
const AFTER_3_2_1: Tag =
    *b"\x5d\x63\xed\x22\xe1\x33\xe6\xae\x17\xf3\x33\xe8\x3d\xe5\xc8\x6c\xc0\xf3\x8d\x3c\xa7\xe4\xd0\x8c\x12\xd6\xc3\x07\x46\x27\x87\x1f";

const AFTER_4_1: Tag =
    *b"\x46\x25\x36\x27\x94\xab\x81\x24\x39\x9b\xb4\xa0\x47\x42\xc4\x18\x39\x2b\x44\xda\x18\xda\x88\x43\x82\x52\x7b\x37\x71\x14\xed\x19";

const AFTER_4_4_1: Tag =
    *b"\xf5\x03\x8f\xd5\x2a\x93\x7c\x34\xe3\x9b\x0a\x3b\xa5\xe4\xd4\x91\x9a\x7a\x4d\x72\x5f\x9b\x3e\x30\x37\x2c\x51\x93\xdf\xfe\x0f\xd6";

const AFTER_1_TO_32: Tag =
    *b"\xc0\x85\x0c\x37\x1a\x4d\xca\x66\x84\xd9\x14\x66\x65\x79\x06\xf3\x0e\xf8\xd1\xcb\xb9\x97\x99\x21\x46\xc2\x25\xde\x10\x0f\xdd\x07";

#[test]
fn an_honest_reply_tells(rt: HostRuntime) -> Result<(), Fail> {
    let by_me = Part {
        register: 1,
        version: Made { after: OWN, by: 1 },
        mem: None,
    };
    let unwritten = Held {
        t: 2,
        value: None,
        tagged_t: 2,
        tagged: None,
    };
    let empty = Held {
        value: Some(b""),
        tagged: Some(b""),
        ..unwritten
    };
    let never_used = Part {
        register: 4,
        version: Made { after: &[], by: 4 },
        mem: None,
    };
    let earlier = Row {
        part: Some(Part {
            mem: Some(ONE),
            ..PART
        }),
        ..HONEST
    };
    let twice: &[u8] = &[2, 3, 1, 2, 4];
    let [one, two, three, _] = HONEST.proofs;
    let no_part = Row {
        part: None,
        ..HONEST
    };
    let never_written = Row {
        part: Some(Part {
            mem: Some(unwritten),
            ..by_me
        }),
        ..HONEST
    };
    let own = Row {
        part: Some(Part {
            mem: Some(empty),
            ..by_me
        }),
        ..HONEST
    };
    let nothing = Row {
        part: Some(never_used),
        ..HONEST
    };
    let unseen = Row {
        tuples: &[(4, 1)],
        ..earlier
    };
    let seen_twice = Row {
        tuples: &[(4, 1), (4, 2)],
        proofs: [one, two, three, twice],
        ..earlier
    };
    let cases: [(u8, Kind, Row, Option<&[u8]>, Told); 7] = [
        (
            2,
            Kind::Read,
            HONEST,
            Some(b"two"),
            ([2, 3, 2, 0], Some(AFTER_3_2_1), true, 3, Some(2)),
        ),
        (
            1,
            Kind::Write,
            no_part,
            None,
            ([2, 3, 2, 0], Some(AFTER_3_2_1), true, 0, None),
        ),
        (
            1,
            Kind::Read,
            own,
            Some(b""),
            ([2, 3, 2, 0], Some(AFTER_3_2_1), true, 2, Some(1)),
        ),
        (
            1,
            Kind::Read,
            never_written,
            None,
            ([2, 3, 2, 0], Some(AFTER_3_2_1), true, 2, Some(1)),
        ),
        (
            4,
            Kind::Read,
            nothing,
            None,
            ([2, 3, 2, 0], Some(AFTER_3_2_1), true, 0, Some(0)),
        ),
        (
            2,
            Kind::Read,
            unseen,
            Some(b"one"),
            ([2, 2, 1, 1], Some(AFTER_4_1), true, 2, Some(2)),
        ),
        (
            2,
            Kind::Read,
            seen_twice,
            Some(b"one"),
            ([2, 2, 1, 2], Some(AFTER_4_4_1), true, 2, Some(2)),
        ),
    ];
    for (register, kind, row, value, expected) in &cases {
        let reply = reply_of(rt.alloc(), row)?;
        let judged = answer(rt.alloc(), 4, OWN, (1, *kind, *register), &reply)?;
        assert_eq!(rt;
            judged.as_ref().map(|judged| told(1, judged, *value)),
            Some(*expected)
        );
    }
    Ok(())
}

#[test]
fn a_reply_has_a_tuple_of_each_other_client(rt: HostRuntime) -> Result<(), Fail> {
    let reply = of_all(rt.alloc())?;
    let judged = answer(rt.alloc(), 32, &[], (32, Kind::Write, 32), &reply)?;
    let expected = ([1; 4], Some(AFTER_1_TO_32), true, 0, None);
    assert_eq!(rt;
        judged.as_ref().map(|judged| told(32, judged, None)),
        Some(expected)
    );
    Ok(())
}
