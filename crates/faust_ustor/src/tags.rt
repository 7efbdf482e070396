ghost use Rattle.std.specs.Prelude.{◌≡◌, length, IfOk};
ghost use Rattle.faust_types.specs.Clients.{IsClient};
ghost use Rattle.faust_types.specs.Versions.{clients_of};
ghost use Rattle.faust_ustor.specs.Checks.{is_known_right, is_proven, is_proof_of, is_next_submitted, is_mem_right, digest_of};

use faust_hash::{PreparedKey, same};
use faust_tags::{commit_tag_under, data_tag_under, proof_tag_under, submit_tag_under};
use faust_types::{Bytes, Digest, Known, MAX_TIMESTAMP, Mem, OutOfMemory, Tag, Tuple, Version};
use std::alloc::Global;

/// Whether the version is initial, or has the right commit tag of client k.
pub fn is_known_right(
    alloc: Global,
    key: &PreparedKey,
    k: u8,
    known: &Known,
) -> Result<bool, OutOfMemory>
    ensures { IfOk result (λ holds. holds ≡ is_known_right key.now k known.now) }
{
    if known.version.is_initial() {
        return Ok(true);
    }
    let right = commit_tag_under(alloc, key, k, &known.version)?;
    Ok(same(&known.tag, &right))
}

/// Whether client k has no digest in the version, or its right proof tag over it is among the proofs.
pub fn is_proven(key: &PreparedKey, proofs: &[Option<Tag>], version: &Version, k: u8) -> bool
    requires client { IsClient (clients_of version.now) k }
    requires proofs { length proofs.now ≡ clients_of version.now }
    ensures { result ≡ is_proven key.now proofs.now version.now k }
{
    match version.digest(k) {
        None => true,
        Some(digest) => is_proof_of(key, k, &digest, proofs[usize::from(k) - 1]),
    }
}

fn is_proof_of(key: &PreparedKey, k: u8, digest: &Digest, proof: Option<Tag>) -> bool
    ensures { result ≡ is_proof_of key.now k digest.now proof }
{
    match proof {
        None => false,
        Some(proof) => same(&proof, &proof_tag_under(key, k, digest)),
    }
}

/// Whether the tuple has its client's right submit tag over the operation after those in the version.
pub fn is_next_submitted(key: &PreparedKey, version: &Version, tuple: &Tuple) -> bool
    requires { IsClient (clients_of version.now) tuple.now.client }
    ensures { result ≡ is_next_submitted key.now version.now tuple.now }
{
    let t = version.at(tuple.client);
    t < MAX_TIMESTAMP
        && same(
            &tuple.tag,
            &submit_tag_under(key, tuple.client, tuple.kind, tuple.register, t + 1),
        )
}

/// Whether nothing is in memory, or it has the right data tag of client j.
pub fn is_mem_right(key: &PreparedKey, j: u8, mem: &Option<Mem>) -> bool
    ensures { result ≡ is_mem_right key.now j mem.now }
{
    match mem {
        None => true,
        Some(mem) => {
            let digest = digest_of(key, &mem.value);
            same(&mem.tag, &data_tag_under(key, j, mem.t, digest.as_ref()))
        }
    }
}

fn digest_of(key: &PreparedKey, value: &Option<Bytes>) -> Option<Digest>
    ensures { result ≡ digest_of value.now }
{
    match value {
        None => None,
        Some(value) => Some(key.value_digest(value.as_slice())),
    }
}
