use super::answer;
use super::replies::{
    DONE, HONEST, Held, KEY, Made, ONE, OWN, PART, Part, Row, TWO, at_the_end, by_2, reply_of,
    tuple_of,
};
use crate::JudgeError;
use faust_tags::proof_tag;
use faust_types::{Kind, MAX_TIMESTAMP, Reply, Sequence};
use std::alloc::Global;
use std::test::Fail;

/// The check that a reply to client 1 breaks, and its place.
fn broken(alloc: Global, op: (u8, Kind, u8), reply: &Reply) -> Option<(u8, u32)> {
    match answer(alloc, 4, OWN, op, reply) {
        Err(JudgeError::Check { check, place }) => Some((check, place)),
        _ => None,
    }
}

const READ: (u8, Kind, u8) = (1, Kind::Read, 2);

#[test]
fn a_broken_version_is_named(rt: HostRuntime) -> Result<(), Fail> {
    let no_part = Row {
        part: None,
        ..HONEST
    };
    let part_of_3 = Part {
        register: 3,
        version: Made {
            after: &[2, 3],
            by: 3,
        },
        mem: None,
    };
    let other_register = Row {
        part: Some(part_of_3),
        ..HONEST
    };
    let other_tag = Row {
        version: Made { by: 3, ..DONE },
        ..HONEST
    };
    // The own operation isn't counted, stands in another history, or one that wasn't made is counted.
    let own_forgotten = Row {
        version: by_2(&[3, 2]),
        ..HONEST
    };
    let other_history = Row {
        version: by_2(&[3, 2, 1, 2]),
        ..HONEST
    };
    let own_made_up = Row {
        version: by_2(&[2, 3, 1, 2, 1, 2]),
        ..HONEST
    };
    let cases = [
        (READ, no_part, 3),
        (READ, other_register, 3),
        ((1, Kind::Write, 1), HONEST, 3),
        (READ, other_tag, 4),
        (READ, own_forgotten, 5),
        (READ, other_history, 5),
        (READ, own_made_up, 5),
    ];
    for (op, row, check) in &cases {
        let reply = reply_of(rt.alloc(), row)?;
        assert_eq!(rt; broken(rt.alloc(), *op, &reply), Some((*check, 0)));
    }
    Ok(())
}

#[test]
fn the_first_broken_tuple_is_named(rt: HostRuntime) -> Result<(), Fail> {
    let honest = HONEST.proofs;
    let [one, two, three, _] = honest;
    let four: &[u8] = &[2, 3, 1, 2, 4];
    let cases: [(&[(u8, u64)], [&[u8]; 4], u8, u32); 9] = [
        (&[(1, 2), (3, 2)], honest, 6, 1),
        (&[(3, 2), (1, 2)], honest, 6, 2),
        (&[(3, 2), (2, 3)], [one, two, &[], &[]], 7, 1),
        (&[(3, 2), (2, 3)], [one, &[2], three, &[]], 7, 2),
        // The proof is over the digest before the first of two tuples.
        (&[(2, 3), (2, 4)], honest, 7, 2),
        (&[(3, 1), (2, 3)], honest, 8, 1),
        (&[(3, 2), (2, 2)], honest, 8, 2),
        (&[(4, 1), (4, 1)], [one, two, three, four], 8, 2),
        (&[(4, 1), (4, 3)], [one, two, three, four], 8, 2),
    ];
    for (tuples, proofs, check, place) in &cases {
        let row = Row {
            tuples: *tuples,
            proofs: *proofs,
            ..HONEST
        };
        let reply = reply_of(rt.alloc(), &row)?;
        assert_eq!(rt; broken(rt.alloc(), READ, &reply), Some((*check, *place)));
    }
    Ok(())
}

#[test]
fn a_client_has_no_operation_after_its_last_timestamp(rt: HostRuntime) -> Result<(), Fail> {
    let digest = [b'd'; 32];
    let mut reply = reply_of(rt.alloc(), &HONEST)?;
    reply.version = at_the_end(rt.alloc(), digest)?;
    reply.pending = Sequence::from_slice(rt.alloc(), &[tuple_of(3, MAX_TIMESTAMP + 1)])?;
    reply.proofs = Sequence::from_slice(
        rt.alloc(),
        &[None, None, Some(proof_tag(KEY, 3, &digest)), None],
    )?;
    assert_eq!(rt; broken(rt.alloc(), READ, &reply), Some((8, 1)));
    Ok(())
}

#[test]
fn a_broken_answer_to_a_read_is_named(rt: HostRuntime) -> Result<(), Fail> {
    let cases = [
        (
            Part {
                version: Made { by: 3, ..DONE },
                ..PART
            },
            9,
        ),
        (
            Part {
                mem: Some(Held {
                    value: Some(b"too"),
                    ..TWO
                }),
                ..PART
            },
            10,
        ),
        (
            Part {
                mem: Some(Held { t: 4, ..TWO }),
                ..PART
            },
            10,
        ),
        // What client 2 wrote by its operation before, and nothing.
        (
            Part {
                mem: Some(ONE),
                ..PART
            },
            11,
        ),
        (Part { mem: None, ..PART }, 11),
        // A version above that of c, and one of an operation too far back.
        (
            Part {
                version: by_2(&[2, 3, 1, 2, 3, 2]),
                ..PART
            },
            12,
        ),
        (
            Part {
                version: Made { after: &[2], by: 2 },
                ..PART
            },
            12,
        ),
    ];
    for (part, check) in &cases {
        let row = Row {
            part: Some(*part),
            ..HONEST
        };
        let reply = reply_of(rt.alloc(), &row)?;
        assert_eq!(rt; broken(rt.alloc(), READ, &reply), Some((*check, 0)));
    }
    Ok(())
}
