//! Bytes that spell nothing.
ghost use Rattle.faust_types.specs.Ranges.{IsWire};

use super::{
    A_VERSION, COMMIT, FAILURE, FULL_REPLY, HELLO, ONE, PROBE, READ, TAG, WRITE_AND_COMMIT, ZERO,
    begun_with, is_malformed, joined,
};
use crate::{WireError, read_version};
use std::alloc::Global;
use std::test::Fail;

/// Whether the message of these parts is malformed once the byte at this place is another.
fn is_malformed_with(
    alloc: Global,
    wire: u8,
    parts: &[&[u8]],
    place: usize,
    byte: u8,
) -> Result<bool, Fail>
    requires { IsWire wire }
{
    let mut bytes = joined(alloc, parts)?.into_vec()?;
    *bytes.get_mut(place).ok_or("a place in the message")? = byte;
    Ok(is_malformed(alloc, wire, 2, &bytes))
}

#[test]
fn a_byte_out_of_range_is_malformed(rt: HostRuntime) -> Result<(), Fail> {
    let wire_and_kind: &[(usize, u8)] = &[(0, 0), (0, 2), (1, 0), (1, 8)];
    let submit: &[(usize, u8)] = &[(2, 0), (2, 3), (3, 0), (3, 3), (6, 1), (11, 0)];
    // c, flags, timestamps, the number of tuples, and each field of the tuple and of the read part
    let reply: &[(usize, u8)] = &[
        (2, 0),
        (2, 3),
        (3, 2),
        (6, 1),
        (11, 0),
        (14, 1),
        (20, 0),
        (20, 2),
        (118, 32),
        (119, 0),
        (119, 3),
        (120, 0),
        (120, 3),
        (121, 0),
        (121, 3),
        (154, 2),
        (187, 2),
        (188, 2),
        (189, 0),
        (189, 3),
        (190, 2),
        (193, 1),
        (305, 2),
        (308, 1),
        (313, 0),
        (314, 2),
        (315, 16),
    ];
    // a message to oneself, and from or to nobody
    let peer: &[(usize, u8)] = &[(2, 0), (2, 2), (2, 3), (3, 0), (3, 1), (3, 3)];
    let version: &[(usize, u8)] = &[(4, 0), (4, 3), (12, 0), (21, 0), (21, 2), (54, 1), (54, 2)];
    let cases: [(&[&[u8]], &[(usize, u8)]); 8] = [
        (FULL_REPLY, wire_and_kind),
        (READ, submit),
        (FULL_REPLY, reply),
        (COMMIT, &[(4, 1), (9, 0), (18, 0), (51, 1), (51, 2)]),
        (PROBE, peer),
        (A_VERSION, version),
        (FAILURE, &[(4, 0), (4, 16)]),
        (HELLO, &[(2, 0), (2, 3)]),
    ];
    for (parts, wrong) in cases {
        for (place, byte) in wrong {
            assert!(rt;
                is_malformed_with(rt.alloc(), 1, parts, *place, *byte)?,
                "{place} {byte}"
            );
        }
    }
    // the flag of the riding COMMIT, its timestamps and the flags of its digests
    for (place, byte) in [
        (0, 1),
        (80, 0),
        (80, 2),
        (83, 1),
        (88, 0),
        (97, 0),
        (97, 2),
        (130, 1),
    ] {
        assert!(rt;
            is_malformed_with(rt.alloc(), 2, WRITE_AND_COMMIT, place, byte)?,
            "{place} {byte}"
        );
    }
    Ok(())
}

#[test]
fn versions_have_one_spelling(rt: HostRuntime) -> Result<(), Fail> {
    let initial: &[&[u8]] = &[ZERO, ZERO, b"\0\0"];
    let zero_digest: &[&[u8]] = &[ONE, ZERO, b"\x01", TAG, b"\x01", &[0; 32]];
    let no_digest: &[&[u8]] = &[ONE, ZERO, b"\0\0"];
    let riding: &[&[u8]] = &[b"\x02\x01\x02\x01", ONE, TAG, TAG, b"\x01"];
    let malformed: [[&[&[u8]]; 3]; 8] = [
        // a digest of zero bytes where none is due, and none where one is due
        [&[b"\x01\x03"], zero_digest, &[TAG, TAG]],
        [&[b"\x01\x03"], no_digest, &[TAG, TAG]],
        // the initial version where there is to be another
        [&[b"\x01\x03"], initial, &[TAG, TAG]],
        [&[b"\x01\x05\x02\x01\x02"], initial, &[TAG, TAG]],
        [&[b"\x01\x02\x01\x01"], initial, &[TAG, b"\0\0\0\0"]],
        // the same of a COMMIT that rides
        [riding, zero_digest, &[TAG, TAG]],
        [riding, no_digest, &[TAG, TAG]],
        [riding, initial, &[TAG, TAG]],
    ];
    for [front, version, rest] in malformed {
        let mut bytes = joined(rt.alloc(), front)?;
        bytes.append(joined(rt.alloc(), version)?.as_slice())?;
        bytes.append(joined(rt.alloc(), rest)?.as_slice())?;
        let first = begun_with(rt.alloc(), 1, &[bytes.as_slice()])?;
        assert!(rt; is_malformed(rt.alloc(), 1, 2, first.as_slice()));
        let second = begun_with(rt.alloc(), 2, &[bytes.as_slice()])?;
        assert!(rt; is_malformed(rt.alloc(), 2, 2, second.as_slice()));
    }
    for parts in [zero_digest, no_digest] {
        let bytes = joined(rt.alloc(), parts)?;
        assert!(rt;
            matches!(
                read_version(rt.alloc(), 2, bytes.as_slice()),
                Err(WireError::Malformed)
            )
        );
    }
    let version = read_version(rt.alloc(), 2, joined(rt.alloc(), initial)?.as_slice())?;
    assert!(rt; version.is_initial());
    Ok(())
}
