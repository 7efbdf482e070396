ghost use Rattle.std.specs.Prelude.{◌≡◌, IfOk};
ghost use Rattle.faust_tags.specs.Bodies.{proof_body, tag_of};

use faust_hash::PreparedKey;
use faust_types::{Bytes, Digest, OutOfMemory, Tag};
use std::alloc::Global;

// The first byte of the body of a proof.
const PROOF: u8 = 4;

/// The tag by which client `maker` says that `d` is the digest in its own place of the version that it
/// completed last.
pub fn proof_tag(key: &[u8], maker: u8, d: &Digest) -> Tag
    ensures { result ≡ tag_of key.now (proof_body maker d.now) }
{
    proof_tag_under(&PreparedKey::new(key), maker, d)
}

/// `proof_tag` under a prepared key.
pub fn proof_tag_under(key: &PreparedKey, maker: u8, d: &Digest) -> Tag
    ensures { result ≡ tag_of key.now (proof_body maker d.now) }
{
    key.tag(&proof_bytes(maker, d))
}

/// The bytes that `proof_tag` tags: 34 of them.
pub fn proof_body(alloc: Global, maker: u8, d: &Digest) -> Result<Bytes, OutOfMemory>
    ensures { IfOk result (λ body. body ≡ proof_body maker d.now) }
{
    Bytes::from_slice(alloc, &proof_bytes(maker, d))
}

#[tactic(auto, unfolding(crate::specs::Bodies::proof_body))]
fn proof_bytes(maker: u8, d: &Digest) -> [u8; 34]
    ensures { result ≡ proof_body maker d.now }
{
    let mut body = [0; 34];
    body[..2].copy_from_slice(&[PROOF, maker]);
    body[2..].copy_from_slice(d);
    body
}
