use crate::places::{link_place, tag_place};
use crate::{PreparedKey, chain, hmac, input_digest, same, value_digest};

// The test cases of RFC 4231 in their order, the fifth of which tells the first 16 bytes alone. Then keys of no
// byte, of a whole block and of one byte more, which Python's `hmac` gave the tags of.
#[test]
fn tags_of_rfc_4231_and_at_the_ends_of_a_block(rt: HostRuntime) {
    let counted: [u8; 25] = [
        1, 2, 3, 4, 5, 6, 7, 8, 9, 10, 11, 12, 13, 14, 15, 16, 17, 18, 19, 20, 21, 22, 23, 24, 25,
    ];
    let cases: [(&[u8], &[u8], &[u8]); 10] = [
        (
            &[0x0b; 20],
            b"Hi There",
            b"\xb0\x34\x4c\x61\xd8\xdb\x38\x53\x5c\xa8\xaf\xce\xaf\x0b\xf1\x2b\x88\x1d\xc2\x00\xc9\x83\x3d\xa7\x26\xe9\x37\x6c\x2e\x32\xcf\xf7",
        ),
        (
            b"Jefe",
            b"what do ya want for nothing?",
            b"\x5b\xdc\xc1\x46\xbf\x60\x75\x4e\x6a\x04\x24\x26\x08\x95\x75\xc7\x5a\x00\x3f\x08\x9d\x27\x39\x83\x9d\xec\x58\xb9\x64\xec\x38\x43",
        ),
        (
            &[0xaa; 20],
            &[0xdd; 50],
            b"\x77\x3e\xa9\x1e\x36\x80\x0e\x46\x85\x4d\xb8\xeb\xd0\x91\x81\xa7\x29\x59\x09\x8b\x3e\xf8\xc1\x22\xd9\x63\x55\x14\xce\xd5\x65\xfe",
        ),
        (
            &counted,
            &[0xcd; 50],
            b"\x82\x55\x8a\x38\x9a\x44\x3c\x0e\xa4\xcc\x81\x98\x99\xf2\x08\x3a\x85\xf0\xfa\xa3\xe5\x78\xf8\x07\x7a\x2e\x3f\xf4\x67\x29\x66\x5b",
        ),
        (
            &[0x0c; 20],
            b"Test With Truncation",
            b"\xa3\xb6\x16\x74\x73\x10\x0e\xe0\x6e\x0c\x79\x6c\x29\x55\x55\x2b",
        ),
        (
            &[0xaa; 131],
            b"Test Using Larger Than Block-Size Key - Hash Key First",
            b"\x60\xe4\x31\x59\x1e\xe0\xb6\x7f\x0d\x8a\x26\xaa\xcb\xf5\xb7\x7f\x8e\x0b\xc6\x21\x37\x28\xc5\x14\x05\x46\x04\x0f\x0e\xe3\x7f\x54",
        ),
        (
            &[0xaa; 131],
            b"This is a test using a larger than block-size key and a larger than block-size data. The key needs to be hashed before being used by the HMAC algorithm.",
            b"\x9b\x09\xff\xa7\x1b\x94\x2f\xcb\x27\x63\x5f\xbc\xd5\xb0\xe9\x44\xbf\xdc\x63\x64\x4f\x07\x13\x93\x8a\x7f\x51\x53\x5c\x3a\x35\xe2",
        ),
        (
            b"",
            b"Hi There",
            b"\xe4\x84\x11\x26\x27\x15\xc8\x37\x0c\xd5\xe7\xbf\x8e\x82\xbe\xf5\x3b\xd5\x37\x12\xd0\x07\xf3\x42\x93\x51\x84\x3b\x77\xc7\xbb\x9b",
        ),
        (
            &[0x0b; 64],
            b"Hi There",
            b"\x21\xcd\x58\x6a\xec\xa0\x57\x9d\x99\xa1\xc9\x38\x12\x7c\x92\x52\x5a\x37\x1f\x80\x7b\xc5\xba\x6e\xb7\x8b\xc8\x25\xbd\x4f\x2b\xe3",
        ),
        (
            &[0x0b; 65],
            b"Hi There",
            b"\x72\x7b\x82\xfb\xa2\x64\x39\x3c\x5d\x67\xfd\x6d\x6a\xd7\x83\xe9\x01\x9a\x1f\xa6\xa8\x57\xfc\xcb\x70\xf5\x85\x2f\x04\xbe\x5d\x5d",
        ),
    ];
    for (key, body, tag) in &cases {
        let prepared = PreparedKey::new(key);
        let copy = prepared.copy();
        for got in [hmac(key, body), prepared.tag(body), copy.tag(body)] {
            assert!(rt; tag.len() <= 32);
            assert_eq!(rt; &got[..tag.len()], *tag);
        }
    }
}

// The digests that Python's `hashlib` gives of the bytes 10 01, of 10 with that digest and 02, and of 10 with
// 32 bytes ff and 20.
#[test]
fn chains_step_by_step(rt: HostRuntime) {
    let first =
        *b"\x27\xc2\x4f\xcb\x84\x74\x77\x3e\x2a\xf7\x99\xd0\x84\x84\x95\xff\x05\x32\x72\xd3\x3c\x43\x2d\xc2\x62\x77\x99\x3d\xf4\x5c\x92\x76";
    let second =
        *b"\xe2\xc7\x68\x49\xae\xc8\x8c\x6e\x3d\x8f\x87\xb3\xdd\xb1\x36\xdd\x1e\x5c\x09\x55\x68\xa8\xbf\xd6\x71\xc9\x6a\x1a\x69\xf0\xa3\x5d";
    let other =
        *b"\x51\x72\xcc\x03\x4b\x7c\xa6\xa1\xec\x62\x09\x0f\x04\x86\xc0\xe0\xff\x1d\x22\xb0\x5d\xd6\x6c\x1a\xef\x81\xbd\xfd\xc6\x66\x0d\xaf";
    assert_eq!(rt; chain(None, 1), first);
    assert_eq!(rt; chain(Some(&first), 2), second);
    assert_eq!(rt; chain(Some(&[0xff; 32]), 32), other);
}

// The digests that Python's `hashlib` gives of the byte 11 and of 11 with each value.
#[test]
fn digests_of_values(rt: HostRuntime) {
    let cases: [(&[u8], &[u8; 32]); 3] = [
        (
            b"",
            b"\x4a\x64\xa1\x07\xf0\xcb\x32\x53\x6e\x5b\xce\x6c\x98\xc3\x93\xdb\x21\xcc\xa7\xf4\xea\x18\x7b\xa8\xc4\xdc\xa8\xb5\x1d\x4e\xa8\x0a",
        ),
        (
            b"abc",
            b"\x7d\x94\x84\x60\x26\x59\x0e\x2c\xe4\x84\x99\x3c\x14\x8f\x39\x7b\x1c\xc3\x02\xb9\x73\x2e\x80\x29\x72\xec\xd1\x31\x0c\xfc\x2f\x7f",
        ),
        (
            &[7; 4096],
            b"\x4e\x2e\x50\xf6\xa8\x1c\xdb\xd9\x3f\x89\xb9\x32\xc4\x9c\x9d\x95\xcf\x1b\xc0\x75\x82\x64\xff\x6a\xb4\xe1\xed\xf4\xfe\x8d\x04\xa6",
        ),
    ];
    for (value, digest) in &cases {
        assert_eq!(rt; value_digest(value), **digest);
    }
}

// The digest of "abc" that FIPS 180-4 gives.
#[test]
fn a_digest_of_any_input(rt: HostRuntime) {
    let digest =
        *b"\xba\x78\x16\xbf\x8f\x01\xcf\xea\x41\x41\x40\xde\x5d\xae\x22\x23\xb0\x03\x61\xa3\x96\x17\x7a\x9c\xb4\x10\xff\x61\xf2\x00\x15\xad";
    assert_eq!(rt; input_digest(b"abc"), digest);
}

#[test]
fn tags_that_differ_at_either_end(rt: HostRuntime) {
    let tag = [0x5a; 32];
    let mut at_first = tag;
    at_first[0] = 0x5b;
    let mut at_last = tag;
    at_last[31] = 0xda;
    assert!(rt; same(&tag, &[0x5a; 32]));
    assert!(rt; !same(&tag, &at_first));
    assert!(rt; !same(&at_last, &tag));
}

// Whether a key with a book gives the tag of one without, when it is asked first and when it is asked again.
fn agrees(book: &PreparedKey, plain: &PreparedKey, body: &[u8]) -> bool {
    let tag = plain.tag(body);
    book.tag(body) == tag && book.tag(body) == tag
}

// More bodies than there are places, under two keys, one of which is asked through a copy too.
#[test]
fn tags_with_a_book_are_those_without(rt: HostRuntime) {
    let (one, other) = (PreparedKey::new(b"one"), PreparedKey::new(b"other"));
    let one_book = PreparedKey::with_book(rt.alloc(), b"one");
    let copy = one_book.copy();
    let other_book = PreparedKey::with_book(rt.alloc(), b"other");
    for i in 0..6000u64 {
        let body = i.to_le_bytes();
        assert!(rt; agrees(&one_book, &one, &body));
        assert!(rt; agrees(&other_book, &other, &body));
        assert!(rt; agrees(&copy, &one, &body));
    }
}

#[test]
fn tags_with_a_book_of_each_length(rt: HostRuntime) {
    let plain = PreparedKey::new(b"key");
    let book = PreparedKey::with_book(rt.alloc(), b"key");
    let body = [0x5a; 200];
    for n in 0..201usize {
        assert!(rt; agrees(&book, &plain, &body[..n]));
    }
}

// The bodies below 100,000 that have the place of the first of them: each takes that place from the one before,
// and the first takes it back.
#[test]
fn bodies_that_fall_on_one_place(rt: HostRuntime) {
    let plain = PreparedKey::new(b"key");
    let book = PreparedKey::with_book(rt.alloc(), b"key");
    let first = 0u64.to_le_bytes();
    let mut met = 0u32;
    for i in 1..100_000u64 {
        let body = i.to_le_bytes();
        if tag_place(&body) == tag_place(&first) {
            met = met.saturating_add(1);
            assert!(rt; agrees(&book, &plain, &first));
            assert!(rt; agrees(&book, &plain, &body));
        }
    }
    assert!(rt; met > 1);
    assert!(rt; agrees(&book, &plain, &first));
}

// Values of one length that agree in their first and last 64 bytes fall on one place.
#[test]
fn digests_with_a_book_are_those_without(rt: HostRuntime) {
    let book = PreparedKey::with_book(rt.alloc(), b"key");
    let copy = book.copy();
    let mut other = [7; 4096];
    other[2048] = 8;
    let values: [&[u8]; 4] = [b"", b"abc", &[7; 4096], &other];
    for value in values {
        assert!(rt; book.shared_value(value).is_none());
        assert_eq!(rt; copy.value_digest(value), value_digest(value));
        assert_eq!(rt; book.value_digest(value), value_digest(value));
        match book.shared_value(value) {
            Some(shared) => assert_eq!(rt; shared.as_slice(), value),
            None => assert!(rt; false),
        }
    }
    assert!(rt; copy.shared_value(&[7; 4096]).is_none());
}

// Whether a key gives the digest that `chain` gives, when it is asked first and when it is asked again.
fn links_agree(key: &PreparedKey, prev: Option<&[u8; 32]>, k: u8) -> bool {
    let digest = chain(prev, k);
    key.chain(prev, k) == digest && key.chain(prev, k) == digest
}

// More links than there are places. A copy is asked for what the key computed, and a key without a book too.
#[test]
fn links_with_a_book_are_those_without(rt: HostRuntime) {
    let book = PreparedKey::with_book(rt.alloc(), b"key");
    let copy = book.copy();
    let plain = PreparedKey::new(b"key");
    let mut prev = None;
    for k in 0..2000u16 {
        let k = (k % 32) as u8;
        assert!(rt; links_agree(&book, prev.as_ref(), k));
        assert!(rt; links_agree(&copy, prev.as_ref(), k));
        assert!(rt; links_agree(&plain, prev.as_ref(), k));
        prev = Some(chain(prev.as_ref(), k));
    }
}

// Digests that agree in their first bytes fall on one place.
#[test]
fn links_that_fall_on_one_place(rt: HostRuntime) {
    let book = PreparedKey::with_book(rt.alloc(), b"key");
    let first = [7; 32];
    let mut other = first;
    other[31] = 8;
    for k in 1..33u8 {
        assert_eq!(rt; link_place(Some(&first), k), link_place(Some(&other), k));
        assert!(rt; links_agree(&book, Some(&first), k));
        assert!(rt; links_agree(&book, Some(&other), k));
        assert!(rt; links_agree(&book, Some(&first), k));
        assert!(rt; links_agree(&book, None, k));
    }
}

#[test]
fn keys_share_with_their_copies_alone(rt: HostRuntime) {
    let one = PreparedKey::with_book(rt.alloc(), b"key");
    let other = PreparedKey::with_book(rt.alloc(), b"key");
    let plain = PreparedKey::new(b"key");
    assert_eq!(rt; one.copy().value_digest(b"abc"), value_digest(b"abc"));
    assert_eq!(rt; plain.value_digest(b"abc"), value_digest(b"abc"));
    assert!(rt; one.shared_value(b"abc").is_some());
    assert!(rt; other.shared_value(b"abc").is_none());
    assert!(rt; plain.shared_value(b"abc").is_none());
    assert!(rt; plain.copy().shared_value(b"abc").is_none());
}

fn is_for_threads<T: Send + Sync>(value: &T) -> bool {
    let _ = value;
    true
}

#[test]
fn a_key_with_a_book_goes_to_threads(rt: HostRuntime) {
    assert!(rt; is_for_threads(&PreparedKey::with_book(rt.alloc(), b"key")));
}
