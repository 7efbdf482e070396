ghost use Rattle.std.specs.Prelude.{◌≡◌, IfOk};
ghost use Rattle.faust_link.specs.Frames.{IsFrame};
ghost use Rattle.faust_link.specs.Changes.{flipped};

use faust_types::{Bytes, OutOfMemory};
use std::alloc::Global;

/// A frame or a datagram under way.
#[derive(Debug, Drop)]
pub struct Parcel {
    bytes: Bytes,
    ghost in_range: { IsFrame bytes },
}

impl Parcel {
    ghost use Rattle.faust_link.specs.Frames.{IsFrame};

    /// A parcel of these bytes, the last of which has its lowest bit changed where `is_flipped` says so.
    pub fn new(alloc: Global, bytes: &[u8], is_flipped: bool) -> Result<Parcel, OutOfMemory>
        requires { IsFrame bytes.now }
        ensures { IfOk result (λ parcel. parcel.bytes ≡ flipped is_flipped bytes.now) }
    {
        let mut copy = Vec::from_slice(alloc, bytes)?;
        if is_flipped {
            let last = copy.len() - 1;
            copy[last] ^= 1;
        }
        Ok(Parcel {
            bytes: Bytes::from_vec(copy),
        })
    }

    /// Its bytes.
    pub fn into_bytes(self) -> Bytes
        ensures same { result ≡ self.bytes }
        ensures in_range { IsFrame result }
    {
        self.bytes
    }
}
