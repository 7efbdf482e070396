ghost use Rattle.std.specs.Prelude.{◌≡◌, ◌≤◌, length, IfSome, IsTrue};
ghost use Rattle.std.specs.List.{AllByRecursion};
ghost use Rattle.faust_types.specs.Clients.{IsClient};
ghost use Rattle.faust_types.specs.Ranges.{IsDigest, IsKnownBy, IsMem, IsReadPartFor, IsReplyFor, IsTupleFor, IsValue, IsVersionFor};

use faust_types::{
    Known, MAX_PENDING, MAX_TIMESTAMP, MAX_VALUE_LEN, Mem, ReadPart, Reply, Tag, Tuple, Version,
};

/// Whether a reply is in range for n clients, so that it may be judged.
pub fn is_reply_for(n: u8, reply: &Reply) -> bool
    ensures { IsTrue result → IsReplyFor n reply.now }
{
    is_client(n, reply.c)
        && is_known_by(n, reply.c, &reply.version)
        && reply.pending.len() <= MAX_PENDING
        && are_tuples_for(n, reply.pending.as_slice())
        && reply.proofs.len() == usize::from(n)
        && are_proofs(reply.proofs.as_slice())
        && is_read_for(n, &reply.read)
}

pub fn is_client(n: u8, k: u8) -> bool
    ensures { IsTrue result → IsClient n k }
{
    k >= 1 && k <= n
}

fn is_known_by(n: u8, k: u8, known: &Known) -> bool
    ensures { IsTrue result → IsKnownBy n k known.now }
{
    let made = if known.version.is_initial() {
        known.maker == 0 && known.tag == [0; 32]
    } else {
        known.maker == k
    };
    made && is_version_for(n, &known.version) && is_digest(known.tag)
}

fn is_version_for(n: u8, version: &Version) -> bool
    ensures { IsTrue result → IsVersionFor n version.now }
{
    version.clients() == n
}

fn is_digest(digest: Tag) -> bool
    ensures { IsTrue result → IsDigest digest }
{
    digest.len() == 32
}

fn is_optional_digest(digest: Option<Tag>) -> bool
    ensures { IsTrue result → IfSome digest IsDigest }
{
    match digest {
        None => true,
        Some(digest) => is_digest(digest),
    }
}

fn are_tuples_for(n: u8, tuples: &[Tuple]) -> bool
    ensures { IsTrue result → AllByRecursion (IsTupleFor n) tuples.now }
{
    for tuple in tuples {
        if !is_tuple_for(n, tuple) {
            return false;
        }
    }
    true
}

fn is_tuple_for(n: u8, tuple: &Tuple) -> bool
    ensures { IsTrue result → IsTupleFor n tuple.now }
{
    is_client(n, tuple.client) && is_client(n, tuple.register) && is_digest(tuple.tag)
}

fn are_proofs(proofs: &[Option<Tag>]) -> bool
    ensures { IsTrue result → AllByRecursion (λ proof. IfSome proof IsDigest) proofs.now }
{
    for proof in proofs {
        if !is_optional_digest(*proof) {
            return false;
        }
    }
    true
}

fn is_read_for(n: u8, read: &Option<ReadPart>) -> bool
    ensures { IsTrue result → IfSome read.now (IsReadPartFor n) }
{
    match read {
        None => true,
        Some(part) => is_part_for(n, part),
    }
}

fn is_part_for(n: u8, part: &ReadPart) -> bool
    ensures { IsTrue result → IsReadPartFor n part.now }
{
    is_client(n, part.register)
        && is_known_by(n, part.register, &part.version)
        && is_memory(&part.mem)
}

fn is_memory(mem: &Option<Mem>) -> bool
    ensures { IsTrue result → IfSome mem.now IsMem }
{
    match mem {
        None => true,
        Some(mem) => is_mem(mem),
    }
}

fn is_mem(mem: &Mem) -> bool
    ensures { IsTrue result → IsMem mem.now }
{
    let in_range = match &mem.value {
        None => true,
        Some(value) => is_value(value.as_slice()),
    };
    in_range && mem.t >= 1 && mem.t <= MAX_TIMESTAMP && is_digest(mem.tag)
}

fn is_value(value: &[u8]) -> bool
    ensures { IsTrue result → IsValue value.now }
{
    value.len() <= MAX_VALUE_LEN
}
