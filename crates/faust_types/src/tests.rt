use crate::{
    Answer, Bytes, Commit, Compared, Config, Kind, Known, Mem, Numbers, OpName, Operation,
    OutOfMemory, Peer, PeerMessage, ReadPart, Reply, Sequence, Submit, Tuple, Version,
};
use std::alloc::Global;
use std::test::Fail;

/// A version of two clients with these timestamps and digests of one byte throughout.
fn version(alloc: Global, first: (u64, u8), second: (u64, u8)) -> Result<Version, OutOfMemory> {
    let mut version = Version::initial(alloc, 2)?;
    if version.clients() == 2 {
        put_entry(&mut version, 1, first);
        put_entry(&mut version, 2, second);
    }
    Ok(version)
}

fn put_entry(version: &mut Version, k: u8, entry: (u64, u8)) {
    let (t, byte) = entry;
    if k >= 1 && k <= version.clients() && t >= 1 && t < 1_000 {
        version.set(k, t, [byte; 32]);
    }
}

fn compared(a: &Version, b: &Version) -> Option<Compared> {
    if a.clients() == b.clients() {
        Some(a.order(b))
    } else {
        None
    }
}

#[test]
fn versions_compare_in_four_ways(rt: HostRuntime) -> Result<(), Fail> {
    let none = (0, 0);
    let cases = [
        (none, none, none, none, Compared::Equal),
        (none, none, (1, 7), none, Compared::Less),
        ((1, 7), none, none, none, Compared::Greater),
        ((1, 7), none, none, (1, 7), Compared::Apart),
        ((1, 7), (2, 8), (1, 7), (2, 8), Compared::Equal),
        ((1, 7), (2, 8), (1, 9), (2, 8), Compared::Apart),
        ((1, 7), (2, 8), (2, 9), (2, 8), Compared::Less),
        ((3, 7), (2, 8), (1, 7), (2, 9), Compared::Apart),
        ((3, 7), (2, 8), (1, 9), (2, 8), Compared::Greater),
    ];
    for (a, b, c, d, expected) in cases {
        let left = version(rt.alloc(), a, b)?;
        let right = version(rt.alloc(), c, d)?;
        assert_eq!(rt;
            compared(&left, &right),
            Some(expected),
            "{a:?} {b:?} {c:?} {d:?}"
        );
    }
    Ok(())
}

#[test]
fn a_version_has_its_bytes(rt: HostRuntime) -> Result<(), Fail> {
    let mut out = Bytes::from_slice(rt.alloc(), b"x")?;
    version(rt.alloc(), (258, 7), (0, 0))?.put(&mut out)?;
    let mut expected = Bytes::from_slice(rt.alloc(), b"x\0\0\0\0\0\0\x01\x02\0\0\0\0\0\0\0\0\x01")?;
    expected.append(&[7; 32])?;
    expected.push(0)?;
    assert_eq!(rt; out.as_slice(), expected.as_slice());
    Ok(())
}

#[test]
fn a_peer_message_has_its_front(rt: HostRuntime) -> Result<(), Fail> {
    let probe = PeerMessage {
        from: 1,
        to: 2,
        peer: Peer::Probe,
        tag: [9; 32],
    };
    let mut out = Bytes::new(rt.alloc());
    probe.put_front(1, &mut out)?;
    assert_eq!(rt; out.as_slice(), [1, 4, 1, 2].as_slice());
    let failure = PeerMessage {
        from: 2,
        to: 1,
        peer: Peer::Failure(12),
        tag: [9; 32],
    };
    failure.put_front(1, &mut out)?;
    assert_eq!(rt; out.as_slice(), [1, 4, 1, 2, 1, 6, 2, 1, 12].as_slice());
    Ok(())
}

#[test]
fn lists_grow_and_are_cut(rt: HostRuntime) -> Result<(), Fail> {
    let mut list = Numbers::new(rt.alloc());
    assert!(rt; list.is_empty());
    list.reserve(4)?;
    list.push(1)?;
    list.append(&[2, 3])?;
    list.truncate(2);
    assert_eq!(rt; list.len(), 2);
    list.set(1, 4);
    assert_eq!(rt; *list.at(1), 4);
    assert_eq!(rt; list.pop(), Some(4));
    list.push(2)?;
    assert_eq!(rt; list.copy()?.into_vec().as_slice(), [1, 2].as_slice());
    assert_eq!(rt;
        Numbers::from_vec(vec![in rt.alloc(); 5]?).as_slice(),
        [5].as_slice()
    );
    Ok(())
}

#[test]
fn shared_bytes_are_as_others(rt: HostRuntime) -> Result<(), Fail> {
    let mut bytes = Bytes::new(rt.alloc());
    assert!(rt; bytes.is_empty());
    bytes.reserve(4)?;
    bytes.push(1)?;
    bytes.append(&[2, 3])?;
    let mut shared = bytes.copy()?.shared().shared();
    let mut copy = shared.copy()?;
    copy.truncate(2);
    assert_eq!(rt; copy.len(), 2);
    copy.truncate(3);
    copy.push(4)?;
    copy.push(5)?;
    copy.truncate(3);
    assert_eq!(rt; copy.as_slice(), [1, 2, 4].as_slice());
    shared.append(&[])?;
    shared.reserve(1)?;
    assert_eq!(rt; shared.as_slice(), bytes.as_slice());
    assert_eq!(rt; copy.shared().into_vec()?.as_slice(), [1, 2, 4].as_slice());
    assert_eq!(rt; shared.into_vec()?.as_slice(), [1, 2, 3].as_slice());
    assert_eq!(rt;
        Bytes::from_vec(vec![in rt.alloc(); 5]?).as_slice(),
        [5].as_slice()
    );
    Ok(())
}

fn known(alloc: Global) -> Result<Known, OutOfMemory> {
    Ok(Known {
        maker: 1,
        version: version(alloc, (1, 7), (0, 0))?,
        tag: [3; 32],
    })
}

#[test]
fn nobody_made_the_initial_version(rt: HostRuntime) -> Result<(), Fail> {
    let known = Known::initial(rt.alloc(), 2)?;
    assert_eq!(rt; known.maker, 0);
    assert_eq!(rt; known.tag, [0; 32]);
    assert_eq!(rt; known.version.is_initial(), true);
    Ok(())
}

#[test]
fn messages_are_copied(rt: HostRuntime) -> Result<(), Fail> {
    let mem = Mem {
        t: 1,
        value: Some(Bytes::from_slice(rt.alloc(), b"a")?),
        tag: [4; 32],
    };
    let part = ReadPart {
        register: 1,
        version: known(rt.alloc())?,
        mem: Some(mem.copy()?),
    };
    let tuple = Tuple {
        client: 2,
        kind: Kind::Read,
        register: 1,
        tag: [5; 32],
    };
    let reply = Reply {
        c: 1,
        version: known(rt.alloc())?.copy()?,
        pending: Sequence::from_slice(rt.alloc(), &[tuple])?,
        proofs: Sequence::from_slice(rt.alloc(), &[Some([6; 32]), None])?,
        read: Some(part.copy()?),
    };
    let copied = reply.copy()?;
    assert_eq!(rt; copied.c, 1);
    assert_eq!(rt; copied.pending.as_slice(), [tuple].as_slice());
    assert_eq!(rt; copied.proofs.as_slice(), [Some([6; 32]), None].as_slice());
    assert!(rt; copied.read.is_some());
    Ok(())
}

#[test]
fn other_values_are_copied(rt: HostRuntime) -> Result<(), Fail> {
    let submit = Submit {
        kind: Kind::Write,
        register: 1,
        t: 9,
        value: None,
        submit_tag: [1; 32],
        data_tag: [2; 32],
        commit: Some(Commit {
            version: version(rt.alloc(), (1, 7), (0, 0))?,
            commit_tag: [1; 32],
            proof_tag: [2; 32],
        }),
    };
    let copied = submit.copy()?;
    assert_eq!(rt; copied.t, 9);
    assert_eq!(rt; copied.commit.map(|commit| commit.proof_tag), Some([2; 32]));
    let message = PeerMessage {
        from: 1,
        to: 2,
        peer: Peer::Version(known(rt.alloc())?),
        tag: [1; 32],
    };
    assert_eq!(rt; message.copy()?.to, 2);
    let answer = Answer {
        op: Operation {
            name: OpName { client: 1, t: 1 },
            kind: Kind::Write,
            register: 1,
            dummy: false,
        },
        value: None,
        asof: 0,
    };
    assert_eq!(rt; answer.copy()?.asof, 0);
    let config = Config {
        clients: 2,
        key: Bytes::from_slice(rt.alloc(), &[1, 2])?,
        delta: 1,
        dummy: 2,
        wire: 2,
    };
    let copied = config.copy()?;
    assert_eq!(rt; copied.key.as_slice(), [1, 2].as_slice());
    assert_eq!(rt; copied.wire, 2);
    Ok(())
}
