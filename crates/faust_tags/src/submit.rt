ghost use Rattle.std.specs.Prelude.{◌≡◌, IfOk};
ghost use Rattle.faust_tags.specs.Bodies.{submit_body, tag_of};

use faust_hash::PreparedKey;
use faust_types::spelling::byte_of_kind;
use faust_types::{Bytes, Kind, OutOfMemory, Tag};
use std::alloc::Global;

// The first byte of the body of a SUBMIT.
const SUBMIT: u8 = 1;

/// The tag by which client `maker` says that its operation `t` is a write or a read of `register`.
pub fn submit_tag(key: &[u8], maker: u8, kind: Kind, register: u8, t: u64) -> Tag
    ensures { result ≡ tag_of key.now (submit_body maker kind register t) }
{
    submit_tag_under(&PreparedKey::new(key), maker, kind, register, t)
}

/// `submit_tag` under a prepared key.
pub fn submit_tag_under(key: &PreparedKey, maker: u8, kind: Kind, register: u8, t: u64) -> Tag
    ensures { result ≡ tag_of key.now (submit_body maker kind register t) }
{
    key.tag(&submit_bytes(maker, kind, register, t))
}

/// The bytes that `submit_tag` tags: 12 of them.
pub fn submit_body(
    alloc: Global,
    maker: u8,
    kind: Kind,
    register: u8,
    t: u64,
) -> Result<Bytes, OutOfMemory>
    ensures { IfOk result (λ body. body ≡ submit_body maker kind register t) }
{
    Bytes::from_slice(alloc, &submit_bytes(maker, kind, register, t))
}

#[tactic(auto, unfolding(crate::specs::Bodies::submit_body, faust_types::specs::Spelling::be64))]
fn submit_bytes(maker: u8, kind: Kind, register: u8, t: u64) -> [u8; 12]
    ensures { result ≡ submit_body maker kind register t }
{
    let mut body = [0; 12];
    body[..4].copy_from_slice(&[SUBMIT, maker, byte_of_kind(kind), register]);
    body[4..].copy_from_slice(&t.to_be_bytes());
    body
}
