ghost use Rattle.std.specs.Prelude.{◌≡◌, ◌^◌, ◌<◌, IfOk, IfSome};
ghost use Rattle.faust_types.specs.Clients.{IsClient};
ghost use Rattle.faust_types.specs.Ranges.{IsOperationNumber, IsVersionFor, IsSubmitFor, IsCommitFor};
ghost use Rattle.faust_server.specs.Rows.{client_count};

use super::*;
use faust_types::Bytes;
use std::process::Abort;

/// What a reply shows. Of a read part it shows the register, the maker of the version, and of the memory, where
/// there is one, the number, a byte of the tag and the value's only byte.
#[derive(Clone, Copy, Debug, PartialEq)]
struct Shown {
    c: u8,
    maker: u8,
    pending: usize,
    proofs: usize,
    read: Option<ShownPart>,
}

#[derive(Clone, Copy, Debug, PartialEq)]
struct ShownPart {
    register: u8,
    maker: u8,
    t: u64,
    tag: u8,
    value: Option<u8>,
}

/// What the reply to a write shows.
fn answered(c: u8, maker: u8, pending: usize, proofs: usize) -> Shown {
    Shown {
        c,
        maker,
        pending,
        proofs,
        read: None,
    }
}

fn summary_of(reply: &Reply) -> Shown {
    let read = match &reply.read {
        Some(part) => Some(part_of(part)),
        None => None,
    };
    Shown {
        c: reply.c,
        maker: reply.version.maker,
        pending: reply.pending.len(),
        proofs: reply
            .proofs
            .as_slice()
            .iter()
            .filter(|proof| proof.is_some())
            .count(),
        read,
    }
}

fn part_of(part: &ReadPart) -> ShownPart {
    let (register, maker) = (part.register, part.version.maker);
    match &part.mem {
        Some(mem) => ShownPart {
            register,
            maker,
            t: mem.t,
            tag: mem.tag[0],
            value: first(&mem.value),
        },
        None => ShownPart {
            register,
            maker,
            t: 0,
            tag: 0,
            value: None,
        },
    }
}

fn first(value: &Option<Bytes>) -> Option<u8> {
    match value {
        Some(bytes) => bytes.as_slice().first().copied(),
        None => None,
    }
}

fn server_for_two(alloc: Global) -> Result<Server, OutOfMemory>
    ensures { IfOk result (λ server. client_count server ≡ 2) }
{
    Server::new(alloc, 2)
}

fn copy_of(server: &Server) -> Result<Server, OutOfMemory>
    requires { client_count server.now ≡ 2 }
    ensures { IfOk result (λ copy. client_count copy ≡ 2) }
{
    server.copy()
}

fn retake(server: &mut Server, i: u8, last: u64, uncommitted: bool)
    requires two { client_count server.old ≡ 2 }
    requires client { IsClient 2 i }
    requires below { last < 2 ^ 40 }
    ensures { client_count server.new ≡ 2 }
{
    server.retake(i, last, uncommitted);
}

/// The SUBMIT of a write of one byte, which its tags repeat, for two clients.
fn written(
    alloc: Global,
    i: u8,
    t: u64,
    byte: u8,
    commit: Option<Commit>,
) -> Result<Submit, OutOfMemory>
    requires client { IsClient 2 i }
    requires number { IsOperationNumber t }
    requires riding { IfSome commit (IsCommitFor 2) }
    ensures { IfOk result (IsSubmitFor 2) }
{
    Ok(Submit {
        kind: Kind::Write,
        register: i,
        t,
        value: Some(Bytes::from_slice(alloc, &[byte])?),
        submit_tag: [byte; 32],
        data_tag: [byte; 32],
        commit,
    })
}

/// Client i of two writes one byte.
fn write(server: &mut Server, alloc: Global, i: u8, t: u64, byte: u8) -> Result<Shown, ServerError>
    requires two { client_count server.old ≡ 2 }
    requires client { IsClient 2 i }
    requires number { IsOperationNumber t }
    ensures { client_count server.new ≡ 2 }
{
    let m = written(alloc, i, t, byte, None)?;
    Ok(summary_of(&server.submit(i, m)?))
}

/// The same with a COMMIT that rides on the SUBMIT.
fn write_behind(
    server: &mut Server,
    alloc: Global,
    i: u8,
    t: u64,
    byte: u8,
    commit: Commit,
) -> Result<Shown, ServerError>
    requires two { client_count server.old ≡ 2 }
    requires client { IsClient 2 i }
    requires number { IsOperationNumber t }
    requires riding { IsCommitFor 2 commit }
    ensures { client_count server.new ≡ 2 }
{
    let m = written(alloc, i, t, byte, Some(commit))?;
    Ok(summary_of(&server.submit(i, m)?))
}

/// Client i of two reads a register.
fn read(server: &mut Server, i: u8, t: u64, register: u8, byte: u8) -> Result<Shown, ServerError>
    requires two { client_count server.old ≡ 2 }
    requires client { IsClient 2 i }
    requires register { IsClient 2 register }
    requires number { IsOperationNumber t }
    ensures { client_count server.new ≡ 2 }
{
    let m = Submit {
        kind: Kind::Read,
        register,
        t,
        value: None,
        submit_tag: [byte; 32],
        data_tag: [byte; 32],
        commit: None,
    };
    Ok(summary_of(&server.submit(i, m)?))
}

/// The COMMIT of a version with these two timestamps and one digest, repeated bytes all.
fn commit_of(
    rt: &impl Abort,
    alloc: Global,
    timestamps: (u64, u64),
    byte: u8,
) -> Result<Commit, OutOfMemory>
    requires first { timestamps.0 < 2 ^ 40 }
    requires second { timestamps.1 < 2 ^ 40 }
    ensures { IfOk result (IsCommitFor 2) }
{
    let mut version = Version::initial(alloc, 2)?;
    put(&mut version, 1, timestamps.0, byte);
    put(&mut version, 2, timestamps.1, byte);
    assert!(rt; !version.is_initial());
    Ok(Commit {
        version,
        commit_tag: [byte; 32],
        proof_tag: [byte; 32],
    })
}

/// Client i of two commits such a version.
fn commit(
    rt: &impl Abort,
    server: &mut Server,
    alloc: Global,
    i: u8,
    timestamps: (u64, u64),
    byte: u8,
) -> Result<Result<(), OutOfTurn>, OutOfMemory>
    requires two { client_count server.old ≡ 2 }
    requires client { IsClient 2 i }
    requires first { timestamps.0 < 2 ^ 40 }
    requires second { timestamps.1 < 2 ^ 40 }
    ensures { client_count server.new ≡ 2 }
{
    let m = commit_of(rt, alloc, timestamps, byte)?;
    Ok(server.commit(i, m))
}

/// Puts a timestamp with a digest into a version for two clients; the timestamp 0 has none.
fn put(version: &mut Version, k: u8, t: u64, byte: u8)
    requires two { IsVersionFor 2 version.old }
    requires client { IsClient 2 k }
    requires below { t < 2 ^ 40 }
    ensures { IsVersionFor 2 version.new }
{
    if t == 0 {
        return;
    }
    version.set(k, t, [byte; 32]);
}

#[test]
fn refuses_out_of_turn(rt: HostRuntime) {
    let alloc = rt.alloc();
    let mut server = server_for_two(alloc).expect(&rt, "memory");
    let early = ServerError::OutOfTurn {
        expected: 1,
        got: 2,
    };
    let nothing = answered(1, 0, 0, 0);
    assert_eq!(rt; write(&mut server, alloc, 1, 2, b'a'), Err(early));
    assert_eq!(rt; write(&mut server, alloc, 1, 1, b'a'), Ok(nothing));
    assert_eq!(rt; write(&mut server, alloc, 1, 2, b'a'), Err(early));
    let late = OutOfTurn {
        expected: 1,
        got: 2,
    };
    assert_eq!(rt;
        commit(&rt, &mut server, alloc, 1, (2, 0), b'a').expect(&rt, "memory"),
        Err(late)
    );
    assert_eq!(rt; server.clients(), 2);
}

#[test]
fn an_incomparable_commit_takes_its_own_tuple(rt: HostRuntime) {
    let alloc = rt.alloc();
    let mut server = server_for_two(alloc).expect(&rt, "memory");
    let _first = write(&mut server, alloc, 1, 1, b'a').expect(&rt, "in turn");
    assert_eq!(rt;
        commit(&rt, &mut server, alloc, 1, (1, 0), b'a').expect(&rt, "memory"),
        Ok(())
    );
    let _second = write(&mut server, alloc, 2, 1, b'b').expect(&rt, "in turn");
    assert_eq!(rt;
        commit(&rt, &mut server, alloc, 2, (0, 1), b'b').expect(&rt, "memory"),
        Ok(())
    );
    let last = answered(1, 1, 0, 2);
    assert_eq!(rt; write(&mut server, alloc, 2, 2, b'c'), Ok(last));
}

#[test]
fn a_riding_commit_comes_first(rt: HostRuntime) {
    let alloc = rt.alloc();
    let mut server = server_for_two(alloc).expect(&rt, "memory");
    let _first = write(&mut server, alloc, 1, 1, b'a').expect(&rt, "in turn");
    let ahead = commit_of(&rt, alloc, (1, 0), b'a').expect(&rt, "memory");
    let settled = answered(1, 1, 0, 1);
    assert_eq!(rt;
        write_behind(&mut server, alloc, 1, 2, b'b', ahead),
        Ok(settled)
    );
    let other = write(&mut server, alloc, 2, 1, b'c').expect(&rt, "in turn");
    assert_eq!(rt; other.pending, 1);
    let apart = commit_of(&rt, alloc, (0, 1), b'c').expect(&rt, "memory");
    let both = answered(1, 1, 1, 2);
    assert_eq!(rt;
        write_behind(&mut server, alloc, 2, 2, b'd', apart),
        Ok(both)
    );
}

#[test]
fn a_riding_commit_is_taken_back(rt: HostRuntime) {
    let alloc = rt.alloc();
    let mut server = server_for_two(alloc).expect(&rt, "memory");
    let _first = write(&mut server, alloc, 1, 1, b'a').expect(&rt, "in turn");
    let late = commit_of(&rt, alloc, (2, 0), b'b').expect(&rt, "memory");
    let not_due = ServerError::OutOfTurn {
        expected: 1,
        got: 2,
    };
    assert_eq!(rt;
        write_behind(&mut server, alloc, 1, 2, b'b', late),
        Err(not_due)
    );
    let due = commit_of(&rt, alloc, (1, 0), b'b').expect(&rt, "memory");
    let too_high = ServerError::OutOfTurn {
        expected: 2,
        got: 3,
    };
    assert_eq!(rt;
        write_behind(&mut server, alloc, 1, 3, b'b', due),
        Err(too_high)
    );
    let idle = commit_of(&rt, alloc, (1, 0), b'c').expect(&rt, "memory");
    let nothing_to_commit = ServerError::OutOfTurn {
        expected: 1,
        got: 0,
    };
    assert_eq!(rt;
        write_behind(&mut server, alloc, 2, 1, b'c', idle),
        Err(nothing_to_commit)
    );
    let as_before = answered(1, 0, 1, 0);
    assert_eq!(rt; write(&mut server, alloc, 2, 1, b'c'), Ok(as_before));
}

#[test]
fn answers_a_read_of_another_register(rt: HostRuntime) {
    let alloc = rt.alloc();
    let mut server = server_for_two(alloc).expect(&rt, "memory");
    let unwritten = read(&mut server, 2, 1, 1, b'q').expect(&rt, "in turn");
    let _written = write(&mut server, alloc, 1, 1, b'a').expect(&rt, "in turn");
    assert_eq!(rt;
        commit(&rt, &mut server, alloc, 2, (0, 1), b'q').expect(&rt, "memory"),
        Ok(())
    );
    let written = read(&mut server, 2, 2, 1, b'r').expect(&rt, "in turn");
    let nothing = ShownPart {
        register: 1,
        maker: 0,
        t: 0,
        tag: 0,
        value: None,
    };
    assert_eq!(rt; unwritten.read, Some(nothing));
    let held = ShownPart {
        register: 1,
        maker: 0,
        t: 1,
        tag: b'a',
        value: Some(b'a'),
    };
    assert_eq!(rt; written.read, Some(held));
    assert_eq!(rt; (written.c, written.pending), (2, 1));
}

#[test]
fn keeps_the_value_at_a_read_of_the_own_register(rt: HostRuntime) {
    let alloc = rt.alloc();
    let mut server = server_for_two(alloc).expect(&rt, "memory");
    let _written = write(&mut server, alloc, 1, 1, b'a').expect(&rt, "in turn");
    assert_eq!(rt;
        commit(&rt, &mut server, alloc, 1, (1, 0), b'a').expect(&rt, "memory"),
        Ok(())
    );
    let own = read(&mut server, 1, 2, 1, b's').expect(&rt, "in turn");
    let held = ShownPart {
        register: 1,
        maker: 1,
        t: 2,
        tag: b's',
        value: Some(b'a'),
    };
    assert_eq!(rt; own.read, Some(held));
}

#[test]
fn retakes_turns(rt: HostRuntime) {
    let alloc = rt.alloc();
    let mut server = server_for_two(alloc).expect(&rt, "memory");
    let _written = write(&mut server, alloc, 1, 1, b'a').expect(&rt, "in turn");
    retake(&mut server, 1, 6, false);
    let next = write(&mut server, alloc, 1, 7, b'c').expect(&rt, "in turn");
    assert_eq!(rt; next.pending, 0);
}

#[test]
fn copies(rt: HostRuntime) {
    let alloc = rt.alloc();
    let mut server = server_for_two(alloc).expect(&rt, "memory");
    let _written = write(&mut server, alloc, 1, 1, b'a').expect(&rt, "in turn");
    let mut copy = copy_of(&server).expect(&rt, "memory");
    let reply = read(&mut copy, 2, 1, 1, b'r').expect(&rt, "in turn");
    assert_eq!(rt; reply.pending, 1);
}
