ghost use Rattle.std.specs.Prelude.{◌≡◌, None, Some, IfOk};
ghost use Rattle.std.specs.Option.{option_copied};
ghost use Rattle.faust_tags.specs.Bodies.{data_body, tag_of};

use faust_hash::PreparedKey;
use faust_types::spelling::{ABSENT, PRESENT};
use faust_types::{Bytes, Digest, OutOfMemory, Tag};
use std::alloc::Global;

// The first byte of the body over a register's memory.
const DATA: u8 = 2;

/// The tag by which client `maker` says what its register holds at its operation `t`: the value whose digest
/// is `value`, or `None` where it never wrote one.
pub fn data_tag(key: &[u8], maker: u8, t: u64, value: Option<&Digest>) -> Tag
    ensures { result ≡ tag_of key.now (data_body maker t (option_copied value.entry)) }
{
    data_tag_under(&PreparedKey::new(key), maker, t, value)
}

/// `data_tag` under a prepared key.
pub fn data_tag_under(key: &PreparedKey, maker: u8, t: u64, value: Option<&Digest>) -> Tag
    ensures { result ≡ tag_of key.now (data_body maker t (option_copied value.entry)) }
{
    match value {
        None => key.tag(&unwritten_bytes(maker, t)),
        Some(digest) => key.tag(&written_bytes(maker, t, digest)),
    }
}

/// The bytes that `data_tag` tags: 43 with a value, and 11 without.
pub fn data_body(
    alloc: Global,
    maker: u8,
    t: u64,
    value: Option<&Digest>,
) -> Result<Bytes, OutOfMemory>
    ensures { IfOk result (λ body. body ≡ data_body maker t (option_copied value.entry)) }
{
    match value {
        None => Bytes::from_slice(alloc, &unwritten_bytes(maker, t)),
        Some(digest) => Bytes::from_slice(alloc, &written_bytes(maker, t, digest)),
    }
}

#[tactic(auto, unfolding(crate::specs::Bodies::data_body, faust_types::specs::Spelling::be64))]
fn unwritten_bytes(maker: u8, t: u64) -> [u8; 11]
    ensures { result ≡ data_body maker t None }
{
    let mut body = [0; 11];
    body[..2].copy_from_slice(&[DATA, maker]);
    body[2..10].copy_from_slice(&t.to_be_bytes());
    body[10] = ABSENT;
    body
}

#[tactic(auto, unfolding(crate::specs::Bodies::data_body, faust_types::specs::Spelling::be64))]
fn written_bytes(maker: u8, t: u64, digest: &Digest) -> [u8; 43]
    ensures { result ≡ data_body maker t (Some digest.now) }
{
    let mut body = [0; 43];
    body[..2].copy_from_slice(&[DATA, maker]);
    body[2..10].copy_from_slice(&t.to_be_bytes());
    body[10] = PRESENT;
    body[11..].copy_from_slice(digest);
    body
}
