//! What messages are read as.
use super::{
    FAILURE, FULL_REPLY, VERSION, WRITE, WRITE_ALONE, WRITE_AND_COMMIT, is_malformed, is_read_back,
    joined,
};
use crate::{decode, read_version};
use faust_types::{Compared, Kind, Message, Peer};
use std::test::Fail;

#[test]
fn the_first_reply(rt: HostRuntime) -> Result<(), Fail> {
    let bytes = b"\x01\x02\x01\0\0\0\0\0";
    let Message::Reply(reply) = decode(rt.alloc(), 1, 2, bytes)? else {
        return Err(Fail::from("a reply"));
    };
    assert_eq!(rt; reply.c, 1);
    assert_eq!(rt; reply.version.maker, 0);
    assert!(rt; reply.version.version.is_initial());
    assert!(rt; reply.pending.is_empty());
    assert_eq!(rt; reply.proofs.as_slice(), [None, None].as_slice());
    assert!(rt; reply.read.is_none());
    assert!(rt; is_malformed(rt.alloc(), 1, 2, b"\x01\x02\x01\0\0\0\0\0\0"));
    assert!(rt; is_malformed(rt.alloc(), 1, 2, b"\x01\x02\x01\0\0\0\0"));
    assert!(rt; is_malformed(rt.alloc(), 1, 2, b"\x02\x02\x01\0\0\0\0\0"));
    assert!(rt; is_malformed(rt.alloc(), 2, 2, bytes));
    assert!(rt; is_read_back(rt.alloc(), 2, 2, b"\x02\x02\x01\0\0\0\0\0")?);
    Ok(())
}

#[test]
fn the_fields_of_a_full_reply(rt: HostRuntime) -> Result<(), Fail> {
    let bytes = joined(rt.alloc(), FULL_REPLY)?;
    assert_eq!(rt; bytes.len(), 350);
    let Message::Reply(reply) = decode(rt.alloc(), 1, 2, bytes.as_slice())? else {
        return Err(Fail::from("a reply"));
    };
    assert_eq!(rt; (reply.c, reply.version.maker), (2, 2));
    assert_eq!(rt; reply.version.tag, [7; 32]);
    let [tuple] = reply.pending.as_slice() else {
        return Err(Fail::from("one tuple"));
    };
    assert_eq!(rt;
        (tuple.client, tuple.kind, tuple.register),
        (1, Kind::Read, 2)
    );
    assert_eq!(rt; reply.proofs.as_slice(), [Some([7; 32]), None].as_slice());
    let Some(part) = &reply.read else {
        return Err(Fail::from("a read part"));
    };
    assert_eq!(rt; (part.register, part.version.maker), (1, 1));
    let Some(mem) = &part.mem else {
        return Err(Fail::from("a memory"));
    };
    assert_eq!(rt; mem.t, 1);
    assert!(rt;
        mem.value
            .as_ref()
            .is_some_and(|value| value.as_slice() == b"x".as_slice())
    );
    Ok(())
}

#[test]
fn the_fields_of_other_messages(rt: HostRuntime) -> Result<(), Fail> {
    let bytes = joined(rt.alloc(), WRITE)?;
    let Message::Submit(submit) = decode(rt.alloc(), 1, 2, bytes.as_slice())? else {
        return Err(Fail::from("a SUBMIT"));
    };
    assert_eq!(rt; (submit.kind, submit.register), (Kind::Write, 2));
    assert_eq!(rt; submit.t, 0xff_ffff_ffff);
    assert!(rt;
        submit
            .value
            .is_some_and(|value| value.as_slice() == b"ab".as_slice())
    );
    assert!(rt; submit.commit.is_none());
    let bytes = joined(rt.alloc(), FAILURE)?;
    let Message::Peer(failure) = decode(rt.alloc(), 1, 2, bytes.as_slice())? else {
        return Err(Fail::from("a message between clients"));
    };
    assert_eq!(rt; (failure.from, failure.to), (1, 2));
    assert!(rt; matches!(failure.peer, Peer::Failure(15)));
    Ok(())
}

#[test]
fn a_commit_rides_on_a_submit(rt: HostRuntime) -> Result<(), Fail> {
    let bytes = joined(rt.alloc(), WRITE_AND_COMMIT)?;
    let Message::Submit(submit) = decode(rt.alloc(), 2, 2, bytes.as_slice())? else {
        return Err(Fail::from("a SUBMIT"));
    };
    assert!(rt;
        submit
            .value
            .is_some_and(|value| value.as_slice() == b"ab".as_slice())
    );
    let Some(commit) = submit.commit else {
        return Err(Fail::from("a riding COMMIT"));
    };
    assert_eq!(rt; (commit.commit_tag, commit.proof_tag), ([7; 32], [8; 32]));
    let version = read_version(rt.alloc(), 2, joined(rt.alloc(), VERSION)?.as_slice())?;
    assert!(rt; commit.version.order(&version) == Compared::Equal);
    let bytes = joined(rt.alloc(), WRITE_ALONE)?;
    let Message::Submit(submit) = decode(rt.alloc(), 2, 2, bytes.as_slice())? else {
        return Err(Fail::from("a SUBMIT"));
    };
    assert!(rt; submit.commit.is_none());
    Ok(())
}
