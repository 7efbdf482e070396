ghost use Rattle.std.specs.Prelude.{◌≡◌, ◌^◌, ◌<◌, ◌↔◌, IsNone, IfOk};
ghost use Rattle.faust_types.specs.Clients.{IsClientCount, IsClient};
ghost use Rattle.faust_types.specs.Versions.{clients_of};
ghost use Rattle.faust_wire.specs.Reading.{Gives, next_digest, next_version, next_known, next_signed, entered};

use crate::error::WireError;
use crate::parts::{next_bytes, next_flag, next_optional, next_tag, next_timestamp};
use faust_types::{Digest, Known, Version};
use std::alloc::Global;

#[tactic(auto, unfolding(crate::specs::Reading::next_digest))]
fn next_digest(t: u64, bytes: &[u8]) -> Result<(Option<Digest>, &[u8]), WireError>
    ensures value { Gives (λ x. (x.0, x.1.now)) result (next_digest t bytes.now) }
    ensures absent { IfOk result (λ x. IsNone x.0 ↔ (t ≡ 0)) }
{
    let (digest, rest) = next_optional(bytes)?;
    if digest.is_none() != (t == 0) {
        return Err(WireError::Malformed);
    }
    Ok((digest, rest))
}

fn enter(version: &mut Version, k: u8, t: u64, digest: Option<Digest>)
    requires client { IsClient (clients_of version.old) k }
    requires below { t < 2 ^ 40 }
    requires absent { IsNone digest ↔ (t ≡ 0) }
    ensures { version.new ≡ entered version.old k t digest }
{
    if let Some(digest) = digest {
        version.set(k, t, digest);
    }
}

#[tactic(auto, unfolding(crate::specs::Reading::next_version))]
pub(crate) fn next_version(
    alloc: Global,
    n: u8,
    bytes: &[u8],
) -> Result<(Version, &[u8]), WireError>
    requires { IsClientCount n }
    ensures { Gives (λ x. (x.0, x.1.now)) result (next_version n bytes.now) }
{
    let (mut timestamps, mut digests) = next_bytes(8 * usize::from(n), bytes)?;
    let mut version = Version::initial(alloc, n)?;
    for before in 0..n {
        let (t, later_timestamps) = next_timestamp(timestamps)?;
        let (digest, later_digests) = next_digest(t, digests)?;
        enter(&mut version, before + 1, t, digest);
        timestamps = later_timestamps;
        digests = later_digests;
    }
    Ok((version, digests))
}

#[tactic(auto, unfolding(crate::specs::Reading::next_known))]
pub(crate) fn next_known(
    alloc: Global,
    n: u8,
    maker: u8,
    bytes: &[u8],
) -> Result<(Known, &[u8]), WireError>
    requires { IsClientCount n }
    ensures { Gives (λ x. (x.0, x.1.now)) result (next_known n maker bytes.now) }
{
    let (version, rest) = next_version(alloc, n, bytes)?;
    let (tag, rest) = next_tag(rest)?;
    if version.is_initial() {
        return Err(WireError::Malformed);
    }
    Ok((
        Known {
            maker,
            version,
            tag,
        },
        rest,
    ))
}

#[tactic(auto, unfolding(crate::specs::Reading::next_signed))]
pub(crate) fn next_signed(
    alloc: Global,
    n: u8,
    maker: u8,
    bytes: &[u8],
) -> Result<(Known, &[u8]), WireError>
    requires { IsClientCount n }
    ensures { Gives (λ x. (x.0, x.1.now)) result (next_signed n maker bytes.now) }
{
    let (there, rest) = next_flag(bytes)?;
    if !there {
        return Ok((Known::initial(alloc, n)?, rest));
    }
    next_known(alloc, n, maker, rest)
}
