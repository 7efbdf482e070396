use crate::{
    commit_body, commit_tag, commit_tag_under, data_body, data_tag, data_tag_under, peer_body,
    peer_tag, peer_tag_under, proof_body, proof_tag, proof_tag_under, submit_body, submit_tag,
    submit_tag_under,
};
use faust_hash::PreparedKey;
use faust_types::{Kind, Known, OutOfMemory, Peer, PeerMessage, Tag, Version};
use std::alloc::Global;
use std::test::Fail;

// Each body is written out by hand, with digests of the letter d or e throughout; Python's `hmac` gave the tag
// under this key. A prepared key gives the same.
const KEY: &[u8] = &[0, 1, 2, 3, 4, 5, 6, 7, 8, 9, 10, 11, 12, 13, 14, 15];

#[test]
fn submit_bodies_and_tags(rt: HostRuntime) -> Result<(), Fail> {
    let cases: [(u8, Kind, u8, u64, &[u8], Tag); 2] = [
        (
            2,
            Kind::Write,
            2,
            1,
            b"\x01\x02\x01\x02\0\0\0\0\0\0\0\x01",
            *b"\xd5\x7c\xb5\x6f\x9d\x1f\xc2\x3a\xdc\x2d\x64\xdc\x71\x28\xe2\xd6\x4d\x9a\xb3\x1b\x6d\x74\xb0\x70\x5a\x0a\x8f\x0d\x29\xa0\xd3\x54",
        ),
        (
            32,
            Kind::Read,
            31,
            0x0102_0304_0506_0708,
            b"\x01\x20\x02\x1f\x01\x02\x03\x04\x05\x06\x07\x08",
            *b"\xe9\xf1\x30\x28\x1c\xef\x8c\xfc\x7b\x72\xbf\xf5\x5d\x0b\x2f\x3a\xc7\xff\xb8\x81\x74\x76\xb4\xcb\xeb\x5c\x6a\x0a\xb9\xc5\x79\xab",
        ),
    ];
    for (maker, kind, register, t, body, tag) in cases {
        assert_eq!(rt;
            submit_body(rt.alloc(), maker, kind, register, t)?.as_slice(),
            body
        );
        assert_eq!(rt; submit_tag(KEY, maker, kind, register, t), tag);
        let key = PreparedKey::new(KEY);
        assert_eq!(rt; submit_tag_under(&key, maker, kind, register, t), tag);
    }
    Ok(())
}

#[test]
fn data_bodies_and_tags(rt: HostRuntime) -> Result<(), Fail> {
    let cases: [(u8, u64, Option<&[u8; 32]>, &[u8], Tag); 2] = [
        (
            2,
            1,
            Some(&[b'd'; 32]),
            b"\x02\x02\0\0\0\0\0\0\0\x01\x01dddddddddddddddddddddddddddddddd",
            *b"\x92\x07\xfc\xa1\x3c\xab\x67\xe6\x78\xcd\x68\xf4\xd7\x7a\x2f\x23\x94\x50\xf9\x66\xbb\x54\x14\x2d\xf3\x85\x9c\xea\x7a\x6d\x69\xd0",
        ),
        (
            31,
            0xff_ffff_ffff,
            None,
            b"\x02\x1f\0\0\0\xff\xff\xff\xff\xff\0",
            *b"\xc8\x05\xcb\xa0\x8c\xd0\x59\x4c\x77\x65\x1a\x87\xc1\xda\x4c\x0c\x48\x66\x90\xe3\xd2\x96\x4e\x18\xc4\x4d\x05\x6f\xb9\x0d\x50\xac",
        ),
    ];
    for (maker, t, value, body, tag) in cases {
        assert_eq!(rt; data_body(rt.alloc(), maker, t, value)?.as_slice(), body);
        assert_eq!(rt; data_tag(KEY, maker, t, value), tag);
        assert_eq!(rt;
            data_tag_under(&PreparedKey::new(KEY), maker, t, value),
            tag
        );
    }
    Ok(())
}

#[test]
fn a_proof_body_and_its_tag(rt: HostRuntime) -> Result<(), Fail> {
    let body: &[u8] = b"\x04\x03dddddddddddddddddddddddddddddddd";
    let tag =
        *b"\x29\x2f\x55\xde\x02\xe8\xf2\x76\x70\x4a\x4e\x35\x71\x19\x0f\x67\x60\x99\xb1\xe6\x76\x7d\xd1\x70\x13\x4b\xb1\x15\xbb\xf3\x0a\xce";
    assert_eq!(rt; proof_body(rt.alloc(), 3, &[b'd'; 32])?.as_slice(), body);
    assert_eq!(rt; proof_tag(KEY, 3, &[b'd'; 32]), tag);
    assert_eq!(rt;
        proof_tag_under(&PreparedKey::new(KEY), 3, &[b'd'; 32]),
        tag
    );
    Ok(())
}

/// A version of two clients with these timestamps, and digests of one byte throughout.
fn version(alloc: Global, first: (u64, u8), second: (u64, u8)) -> Result<Version, OutOfMemory> {
    let mut version = Version::initial(alloc, 2)?;
    if version.clients() == 2 {
        put_entry(&mut version, 1, first);
        put_entry(&mut version, 2, second);
    }
    Ok(version)
}

fn put_entry(version: &mut Version, k: u8, entry: (u64, u8)) {
    let (t, byte) = entry;
    if k >= 1 && k <= version.clients() && t >= 1 && t <= 0xff_ffff_ffff {
        version.set(k, t, [byte; 32]);
    }
}

#[test]
fn commit_bodies_and_tags(rt: HostRuntime) -> Result<(), Fail> {
    let cases: [(u8, (u64, u8), (u64, u8), &[u8], Tag); 2] = [
        (
            1,
            (258, b'd'),
            (0, 0),
            b"\x03\x01\x02\0\0\0\0\0\0\x01\x02\0\0\0\0\0\0\0\0\x01dddddddddddddddddddddddddddddddd\0",
            *b"\x4e\x93\x84\x09\xde\xc3\x2d\xeb\xb9\xbf\x6d\x3d\x64\x88\x60\xca\xad\xfc\x97\x92\xd9\x38\x48\x2d\x0e\xd9\x84\xef\x6b\xaf\x6a\x9e",
        ),
        (
            2,
            (1, b'd'),
            (0xff_ffff_ffff, b'e'),
            b"\x03\x02\x02\0\0\0\0\0\0\0\x01\0\0\0\xff\xff\xff\xff\xff\x01dddddddddddddddddddddddddddddddd\x01eeeeeeeeeeeeeeeeeeeeeeeeeeeeeeee",
            *b"\xc1\x03\x11\x99\xb6\x6e\x80\x62\x6f\xdd\xac\x33\x84\x59\xa5\x37\xdd\x0f\x68\xa6\x9e\x78\x90\xe5\x60\x4c\x67\x1d\x8c\x02\xfb\xca",
        ),
    ];
    for (maker, first, second, body, tag) in cases {
        let version = version(rt.alloc(), first, second)?;
        assert_eq!(rt; commit_body(rt.alloc(), maker, &version)?.as_slice(), body);
        assert_eq!(rt; commit_tag(rt.alloc(), KEY, maker, &version)?, tag);
        let key = PreparedKey::new(KEY);
        assert_eq!(rt; commit_tag_under(rt.alloc(), &key, maker, &version)?, tag);
    }
    Ok(())
}

fn said(from: u8, to: u8, peer: Peer) -> PeerMessage {
    PeerMessage {
        from,
        to,
        peer,
        tag: [b'x'; 32],
    }
}

fn announced(version: Version, maker: u8, byte: u8) -> Peer {
    Peer::Version(Known {
        maker,
        version,
        tag: [byte; 32],
    })
}

#[test]
fn peer_bodies_and_tags(rt: HostRuntime) -> Result<(), Fail> {
    let initial = announced(Version::initial(rt.alloc(), 2)?, 0, 0);
    let later = announced(version(rt.alloc(), (258, b'd'), (0, 0))?, 1, b't');
    let cases: [(PeerMessage, &[u8], Tag); 4] = [
        (
            said(1, 2, Peer::Probe),
            b"\x05\x01\x04\x01\x02",
            *b"\xe0\x72\x8e\xd6\x5e\x31\xa4\xde\x20\x5f\xd4\x5c\xb6\x96\xfb\x65\x8a\xb9\xb2\x4e\x0a\xc2\x21\x5a\x65\xc4\x74\x47\x52\xbc\x12\xf3",
        ),
        (
            said(2, 1, initial),
            b"\x05\x01\x05\x02\x01\0",
            *b"\x27\xc3\xaf\x14\x79\x1e\xdc\x2b\xd4\xc6\x3c\x83\x7e\x31\x22\xd4\x38\x37\xa4\x0d\x0f\x4a\xc2\xe1\x47\xce\x44\x61\xfa\x83\xa7\x0f",
        ),
        (
            said(1, 2, later),
            b"\x05\x01\x05\x01\x02\x01\0\0\0\0\0\0\x01\x02\0\0\0\0\0\0\0\0\x01dddddddddddddddddddddddddddddddd\0tttttttttttttttttttttttttttttttt",
            *b"\xbd\x96\x53\xee\x79\x56\xfb\xd5\x1c\xef\x09\x9b\x05\x78\x44\x7a\x8f\xbe\x87\x77\x6c\xd4\x8d\xe1\x8a\xd5\x89\x4e\x37\xba\xae\x44",
        ),
        (
            said(2, 1, Peer::Failure(12)),
            b"\x05\x01\x06\x02\x01\x0c",
            *b"\x3d\x7a\xb1\xf0\x01\xfa\x24\x6f\x33\xac\x58\xe9\x56\x7e\xdf\xfb\x68\xfe\xb6\xaa\x38\x62\xda\xa8\x69\x94\xe0\x03\x5b\x7e\x30\x94",
        ),
    ];
    for (message, body, tag) in &cases {
        assert_eq!(rt; peer_body(rt.alloc(), 2, message)?.as_slice(), *body);
        assert_eq!(rt; peer_tag(rt.alloc(), KEY, 2, message)?, *tag);
        let key = PreparedKey::new(KEY);
        assert_eq!(rt; peer_tag_under(rt.alloc(), &key, 2, message)?, *tag);
    }
    Ok(())
}
