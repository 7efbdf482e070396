//! Messages are read back, up to the largest.
ghost use Rattle.faust_types.specs.Ranges.{IsWire};

use super::{
    A_VERSION, COMMIT, FAILURE, FIRST_REPLY, FULL_REPLY, GREATEST, HELLO, NO_VERSION, ONE, PROBE,
    READ, READ_ALONE, READ_AND_COMMIT, TAG, VERSION, WRITE, WRITE_ALONE, WRITE_AND_COMMIT,
    begun_with, is_malformed, is_read_back, joined,
};
use crate::{encode_commit, read_version};
use faust_types::{Bytes, OutOfMemory};
use std::alloc::Global;
use std::test::Fail;

/// That the message of these bytes has this spelling under this wire, no other, and none under the other wire.
fn check_spelling(alloc: Global, wire: u8, bytes: &[u8]) -> Result<bool, Fail>
    requires { IsWire wire }
{
    let mut good = is_read_back(alloc, wire, 2, bytes)?;
    let other = 3 - wire;
    good = good && is_malformed(alloc, other, 2, bytes);
    for len in 0..bytes.len() {
        good = good && is_malformed(alloc, wire, 2, &bytes[..len]);
    }
    let mut longer = Bytes::from_slice(alloc, bytes)?;
    longer.push(0)?;
    Ok(good && is_malformed(alloc, wire, 2, longer.as_slice()))
}

#[test]
fn messages_of_each_kind_are_read_back(rt: HostRuntime) -> Result<(), Fail> {
    for parts in [READ, WRITE] {
        let bytes = joined(rt.alloc(), parts)?;
        assert!(rt; check_spelling(rt.alloc(), 1, bytes.as_slice())?);
    }
    for parts in [READ_ALONE, READ_AND_COMMIT, WRITE_ALONE, WRITE_AND_COMMIT] {
        let bytes = joined(rt.alloc(), parts)?;
        assert!(rt; check_spelling(rt.alloc(), 2, bytes.as_slice())?);
    }
    for parts in [
        FIRST_REPLY,
        FULL_REPLY,
        COMMIT,
        PROBE,
        NO_VERSION,
        A_VERSION,
        FAILURE,
        HELLO,
    ] {
        let bytes = begun_with(rt.alloc(), 1, parts)?;
        assert!(rt; check_spelling(rt.alloc(), 1, bytes.as_slice())?);
        let bytes = begun_with(rt.alloc(), 2, parts)?;
        assert!(rt; check_spelling(rt.alloc(), 2, bytes.as_slice())?);
    }
    Ok(())
}

#[test]
fn a_commit_is_spelled_from_its_parts(rt: HostRuntime) -> Result<(), Fail> {
    let bytes = joined(rt.alloc(), VERSION)?;
    let version = read_version(rt.alloc(), 2, bytes.as_slice())?;
    if version.is_initial() {
        return Err(Fail::from("a version of an operation"));
    }
    assert_eq!(rt;
        encode_commit(rt.alloc(), 1, &version, &[7; 32], &[8; 32])?.as_slice(),
        joined(rt.alloc(), COMMIT)?.as_slice()
    );
    assert_eq!(rt;
        encode_commit(rt.alloc(), 2, &version, &[7; 32], &[8; 32])?.as_slice(),
        begun_with(rt.alloc(), 2, COMMIT)?.as_slice()
    );
    Ok(())
}

/// A version of 32 clients with all digests, and its maker's tag.
fn put_whole_version(out: &mut Bytes) -> Result<(), OutOfMemory> {
    for _ in 0..32 {
        out.append(GREATEST)?;
    }
    for _ in 0..32 {
        out.push(1)?;
        out.append(TAG)?;
    }
    out.append(TAG)
}

fn put_value(len: u16, out: &mut Bytes) -> Result<(), OutOfMemory> {
    out.append(&len.to_be_bytes())?;
    for _ in 0..len {
        out.push(b'v')?;
    }
    Ok(())
}

#[test]
fn the_largest_messages_of_32_clients(rt: HostRuntime) -> Result<(), Fail> {
    let mut reply = Bytes::from_slice(rt.alloc(), b"\x01\x02\x20\x01")?;
    put_whole_version(&mut reply)?;
    reply.push(31)?;
    for _ in 0..31 {
        reply.append(b"\x20\x02\x20")?;
        reply.append(TAG)?;
    }
    for _ in 0..32 {
        reply.push(1)?;
        reply.append(TAG)?;
    }
    reply.append(b"\x01\x20\x01")?;
    put_whole_version(&mut reply)?;
    reply.push(1)?;
    reply.append(GREATEST)?;
    reply.push(1)?;
    put_value(4_096, &mut reply)?;
    reply.append(TAG)?;
    assert_eq!(rt; reply.len(), 8_977);
    assert!(rt; is_read_back(rt.alloc(), 1, 32, reply.as_slice())?);
    let mut submit = Bytes::from_slice(rt.alloc(), b"\x02\x01\x01\x20")?;
    submit.append(GREATEST)?;
    submit.append(TAG)?;
    submit.append(TAG)?;
    put_value(4_096, &mut submit)?;
    submit.push(1)?;
    put_whole_version(&mut submit)?;
    submit.append(TAG)?;
    assert_eq!(rt; submit.len(), 5_551);
    assert!(rt; is_read_back(rt.alloc(), 2, 32, submit.as_slice())?);
    let mut version = Bytes::from_slice(rt.alloc(), b"\x01\x05\x20\x1f\x20")?;
    put_whole_version(&mut version)?;
    version.append(TAG)?;
    assert!(rt; is_read_back(rt.alloc(), 1, 32, version.as_slice())?);
    Ok(())
}

#[test]
fn a_value_has_at_most_4096_bytes(rt: HostRuntime) -> Result<(), Fail> {
    let front = joined(rt.alloc(), &[b"\x01\x01\x01\x02", ONE, TAG, TAG])?;
    for (len, fits) in [(0, true), (4_096, true), (4_097, false)] {
        let mut submit = front.copy()?;
        put_value(len, &mut submit)?;
        assert_eq!(rt; !is_malformed(rt.alloc(), 1, 2, submit.as_slice()), fits);
    }
    Ok(())
}
