// The cuts of a message: no front of one is a message, and none goes on behind its end.
use faust_text::hex_bytes;
use faust_wire::{WireError, decode};
use std::process::Abort;
use std::test::Fail;

/// HELLO: the name of a connection, of a run of two clients.
const HELLO: &str = "010702";

/// SUBMIT: a write, of a run of two clients.
const SUBMIT: &str =
    "010101010000000000000001352fbaf1d0763b484ffdd243407dfffdeef23b8c194f9a8c2d0451d034a09d384abcef5c3ca28a617ba6b8ae0bb0b00914422da068d31e676b0e3b7edd24b06e000161";

/// REPLY: what a read found, of a run of two clients.
const REPLY: &str =
    "01020101000000000000000100000000000000000127c24fcb8474773e2af799d0848495ff053272d33c432dc26277993df45c92760043c41b60cb5026b5490bba16cd08bd5b433be5e73edeab89f9d7b6900faee56e0001506bb519525b4145c646b71434a2a9d5508befe5552c7aec37d0be6b7ff72e4c00010101000000000000000100000000000000000127c24fcb8474773e2af799d0848495ff053272d33c432dc26277993df45c92760043c41b60cb5026b5490bba16cd08bd5b433be5e73edeab89f9d7b6900faee56e010000000000000001010001614abcef5c3ca28a617ba6b8ae0bb0b00914422da068d31e676b0e3b7edd24b06e";

/// COMMIT: the end of an operation, of a run of two clients.
const COMMIT: &str =
    "0103000000000000000100000000000000000127c24fcb8474773e2af799d0848495ff053272d33c432dc26277993df45c92760043c41b60cb5026b5490bba16cd08bd5b433be5e73edeab89f9d7b6900faee56e506bb519525b4145c646b71434a2a9d5508befe5552c7aec37d0be6b7ff72e4c";

/// PROBE: a question of one client to another, of a run of two clients.
const PROBE: &str = "01040102e0728ed65e31a4de205fd45cb696fb658ab9b24e0ac2215a65c4744752bc12f3";

/// VERSION: the answer to it, of a run of two clients.
const VERSION: &str =
    "0105020102000000000000000100000000000000010127c24fcb8474773e2af799d0848495ff053272d33c432dc26277993df45c927601e2c76849aec88c6e3d8f87b3ddb136dd1e5c095568a8bfd671c96a1a69f0a35d628c89b5b77d6db9cda8c71a35d9290fa53d5ecaefefe27f16bca3b0f5cd56f31010d260e95883cb53e134b734609adbeee00bab6f93966154369d14255328ae";

/// FAILURE: that a client has a notice, of a run of two clients.
const FAILURE: &str = "010601020efdf88534e66642ab2021d76ea303561003288511bb4dd8c1fe9bce4803c7d133";

/// A message, each of its proper fronts, and the same with one byte more.
fn check_fronts(rt: &(impl Abort + AllocGlobal), digits: &str) -> Result<(), Fail> {
    let Ok(mut bytes) = hex_bytes(rt.alloc(), digits.as_bytes(), 16_384) else {
        panic!(rt; "{digits} are no bytes");
    };
    assert!(rt;
        decode(rt.alloc(), 1, 2, bytes.as_slice()).is_ok(),
        "{digits}"
    );
    for len in 0..bytes.len() {
        let front = bytes.as_slice().split_at(len).0;
        let found = decode(rt.alloc(), 1, 2, front);
        assert!(rt;
            matches!(found, Err(WireError::Malformed)),
            "{digits}, {len}"
        );
    }
    bytes.push(0)?;
    let found = decode(rt.alloc(), 1, 2, bytes.as_slice());
    assert!(rt; matches!(found, Err(WireError::Malformed)), "{digits}");
    Ok(())
}

#[test]
fn no_front_of_a_message_is_one(rt: HostRuntime) -> Result<(), Fail> {
    for digits in [HELLO, SUBMIT, REPLY, COMMIT, PROBE, VERSION, FAILURE] {
        check_fronts(&rt, digits)?;
    }
    Ok(())
}
