ghost use Rattle.std.specs.Prelude.{◌≡◌, IfOk};
ghost use Rattle.faust_tags.specs.Bodies.{commit_body, tag_of};

use faust_hash::PreparedKey;
use faust_types::spelling::version_room;
use faust_types::{Bytes, OutOfMemory, Tag, Version};
use std::alloc::Global;

// The first byte of the body of a COMMIT.
const COMMIT: u8 = 3;

/// The tag by which client `maker` says that it completed an operation with this version.
pub fn commit_tag(
    alloc: Global,
    key: &[u8],
    maker: u8,
    version: &Version,
) -> Result<Tag, OutOfMemory>
    ensures { IfOk result (λ tag. tag ≡ tag_of key.now (commit_body maker version.now)) }
{
    commit_tag_under(alloc, &PreparedKey::new(key), maker, version)
}

/// `commit_tag` under a prepared key.
pub fn commit_tag_under(
    alloc: Global,
    key: &PreparedKey,
    maker: u8,
    version: &Version,
) -> Result<Tag, OutOfMemory>
    ensures { IfOk result (λ tag. tag ≡ tag_of key.now (commit_body maker version.now)) }
{
    let body = commit_body(alloc, maker, version)?;
    Ok(key.tag(body.as_slice()))
}

/// The bytes that `commit_tag` tags: for n clients at most 3 + 41 n of them.
#[tactic(auto, unfolding(crate::specs::Bodies::commit_body))]
pub fn commit_body(alloc: Global, maker: u8, version: &Version) -> Result<Bytes, OutOfMemory>
    ensures { IfOk result (λ body. body ≡ commit_body maker version.now) }
{
    let n = version.clients();
    let mut body = Bytes::new(alloc);
    body.reserve(3 + version_room(n))?;
    body.append(&[COMMIT, maker, n])?;
    version.put(&mut body)?;
    Ok(body)
}
