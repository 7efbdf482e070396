ghost use Rattle.faust_types.specs.Clients.{IsClientCount};

use super::in_range::is_client;
use crate::walk::Walk;
use faust_hash::{PreparedKey, value_digest};
use faust_tags::{commit_tag, data_tag, proof_tag, submit_tag};
use faust_types::{
    Bytes, Digest, Kind, Known, MAX_TIMESTAMP, Mem, OutOfMemory, Proofs, ReadPart, Reply, Sequence,
    Tag, Tuple, Tuples, Version,
};
use std::alloc::Global;

pub const KEY: &[u8] = b"the key of the clients";

/// A version after operations of these clients, made by the last of them, with the commit tag of client `by`.
#[derive(Clone, Copy, Debug)]
pub struct Made {
    pub after: &'static [u8],
    pub by: u8,
}

/// A version after operations of these clients, the last of which is client 2.
pub fn by_2(after: &'static [u8]) -> Made {
    Made { after, by: 2 }
}

/// The memory of a register: what stands there, and what its data tag is over.
#[derive(Clone, Copy, Debug)]
pub struct Held {
    pub t: u64,
    pub value: Option<&'static [u8]>,
    pub tagged_t: u64,
    pub tagged: Option<&'static [u8]>,
}

#[derive(Clone, Copy, Debug)]
pub struct Part {
    pub register: u8,
    pub version: Made,
    pub mem: Option<Held>,
}

/// A reply among four clients. A tuple is a client's write of its own register, with the number that its tag is
/// over. A proof is over the digest after operations of these clients.
#[derive(Clone, Copy, Debug)]
pub struct Row {
    pub version: Made,
    pub tuples: &'static [(u8, u64)],
    pub proofs: [&'static [u8]; 4],
    pub part: Option<Part>,
}

// Client 1 judges. It made its version at its first operation, after operations of these clients.
pub const OWN: &[u8] = &[2, 3, 1];

// After that client 2 completed one more.
pub const DONE: Made = Made {
    after: &[2, 3, 1, 2],
    by: 2,
};

// What client 2 wrote by its operation 3.
pub const TWO: Held = Held {
    t: 3,
    value: Some(b"two"),
    tagged_t: 3,
    tagged: Some(b"two"),
};

// What client 2 wrote by its operation 2.
pub const ONE: Held = Held {
    t: 2,
    value: Some(b"one"),
    tagged_t: 2,
    tagged: Some(b"one"),
};

pub const PART: Part = Part {
    register: 2,
    version: DONE,
    mem: Some(TWO),
};

// The reply of an honest server to a read of register 2, where client 3 and then client 2 submitted one more.
pub const HONEST: Row = Row {
    version: DONE,
    tuples: &[(3, 2), (2, 3)],
    proofs: [&[2, 3, 1], &[2, 3, 1, 2], &[2, 3], &[]],
    part: Some(PART),
};

/// The walk of n clients over operations of these clients from the start on.
pub fn walk_of(alloc: Global, n: u8, clients: &[u8]) -> Result<Walk, OutOfMemory>
    requires { IsClientCount n }
{
    let key = PreparedKey::new(KEY);
    let mut walk = Walk {
        version: Version::initial(alloc, n)?,
        digest: None,
    };
    for k in clients {
        step(&key, &mut walk, *k);
    }
    Ok(walk)
}

fn step(key: &PreparedKey, walk: &mut Walk, k: u8) {
    if is_client(walk.version.clients(), k) && walk.version.at(k) < MAX_TIMESTAMP {
        walk.advance(key, k);
    }
}

fn known_of(alloc: Global, made: Made) -> Result<Known, OutOfMemory> {
    let version = walk_of(alloc, 4, made.after)?.version;
    let (maker, tag) = match made.after.last() {
        None => (0, [0; 32]),
        Some(maker) => (*maker, commit_tag(alloc, KEY, made.by, &version)?),
    };
    Ok(Known {
        maker,
        version,
        tag,
    })
}

fn proof_of(alloc: Global, k: u8, clients: &[u8]) -> Result<Option<Tag>, OutOfMemory> {
    match walk_of(alloc, 4, clients)?.digest {
        None => Ok(None),
        Some(digest) => Ok(Some(proof_tag(KEY, k, &digest))),
    }
}

fn proofs_of(alloc: Global, rows: [&[u8]; 4]) -> Result<Proofs, OutOfMemory> {
    let [one, two, three, four] = rows;
    let proofs = [
        proof_of(alloc, 1, one)?,
        proof_of(alloc, 2, two)?,
        proof_of(alloc, 3, three)?,
        proof_of(alloc, 4, four)?,
    ];
    Sequence::from_slice(alloc, &proofs)
}

pub fn tuple_of(client: u8, t: u64) -> Tuple {
    Tuple {
        client,
        kind: Kind::Write,
        register: client,
        tag: submit_tag(KEY, client, Kind::Write, client, t),
    }
}

fn tuples_of(alloc: Global, rows: &[(u8, u64)]) -> Result<Tuples, OutOfMemory> {
    let mut tuples = Sequence::new(alloc);
    for (client, t) in rows {
        tuples.push(tuple_of(*client, *t))?;
    }
    Ok(tuples)
}

fn mem_of(alloc: Global, j: u8, held: Held) -> Result<Mem, OutOfMemory> {
    let digest = held.tagged.map(|value| value_digest(value));
    let tag = data_tag(KEY, j, held.tagged_t, digest.as_ref());
    let value = match held.value {
        None => None,
        Some(value) => Some(Bytes::from_slice(alloc, value)?),
    };
    Ok(Mem {
        t: held.t,
        value,
        tag,
    })
}

fn part_of(alloc: Global, part: Part) -> Result<ReadPart, OutOfMemory> {
    let mem = match part.mem {
        None => None,
        Some(held) => Some(mem_of(alloc, part.register, held)?),
    };
    Ok(ReadPart {
        register: part.register,
        version: known_of(alloc, part.version)?,
        mem,
    })
}

pub fn reply_of(alloc: Global, row: &Row) -> Result<Reply, OutOfMemory> {
    let read = match row.part {
        None => None,
        Some(part) => Some(part_of(alloc, part)?),
    };
    let version = known_of(alloc, row.version)?;
    Ok(Reply {
        c: version.maker,
        version,
        pending: tuples_of(alloc, row.tuples)?,
        proofs: proofs_of(alloc, row.proofs)?,
        read,
    })
}

/// The version that client 2 made, with client 3 at its last timestamp.
pub fn at_the_end(alloc: Global, digest: Digest) -> Result<Known, OutOfMemory> {
    let mut version = walk_of(alloc, 4, DONE.after)?.version;
    if version.clients() == 4 {
        version.set(3, MAX_TIMESTAMP, digest);
    }
    let tag = commit_tag(alloc, KEY, 2, &version)?;
    Ok(Known {
        maker: 2,
        version,
        tag,
    })
}

/// The reply to the first operation of client 32, where each other client submitted one.
pub fn of_all(alloc: Global) -> Result<Reply, OutOfMemory> {
    let mut pending = Sequence::new(alloc);
    for k in 1..=31 {
        pending.push(tuple_of(k, 1))?;
    }
    Ok(Reply {
        c: 1,
        version: Known::initial(alloc, 32)?,
        pending,
        proofs: Sequence::from_slice(alloc, &[None; 32])?,
        read: None,
    })
}
