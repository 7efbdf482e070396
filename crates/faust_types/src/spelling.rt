//! The bytes and lengths that all who spell messages and bodies share.
ghost use Rattle.std.specs.Prelude.{◌≡◌, ◌*◌, ◌++◌, take, length, OnOk, OnErr};
ghost use Rattle.faust_types.specs.Spelling.{kind_byte, optional};

use crate::bytes::Bytes;
use crate::operation::Kind;
use crate::out_of_memory::OutOfMemory;

/// The flag of an optional piece that isn't there.
pub const ABSENT: u8 = 0;

/// The flag of an optional piece that is.
pub const PRESENT: u8 = 1;

/// The byte of a write.
pub const WRITE: u8 = 1;

/// The byte of a read.
pub const READ: u8 = 2;

/// The byte of a PROBE.
pub const PROBE: u8 = 4;

/// The byte of a VERSION.
pub const VERSION: u8 = 5;

/// The byte of a FAILURE.
pub const FAILURE: u8 = 6;

/// The byte of a kind of operation.
pub fn byte_of_kind(kind: Kind) -> u8
    ensures { result ≡ kind_byte kind }
{
    match kind {
        Kind::Write => WRITE,
        Kind::Read => READ,
    }
}

/// The most bytes of a version of n clients: a timestamp of eight bytes and a digest behind a flag for each.
pub fn version_room(n: u8) -> usize
    ensures { result ≡ 41 * n }
{
    41 * usize::from(n)
}

/// Puts optional 32 bytes behind the text. Where memory runs out, a part of them may stand there.
pub fn put_optional(bytes: Option<[u8; 32]>, out: &mut Bytes) -> Result<(), OutOfMemory>
    ensures ok { OnOk result (out.new ≡ out.old ++ optional bytes) }
    ensures err { OnErr result (take (length out.old) out.new ≡ out.old) }
{
    match bytes {
        None => out.push(ABSENT),
        Some(bytes) => {
            let mut piece = [PRESENT; 33];
            piece[1..].copy_from_slice(&bytes);
            out.append(&piece)
        }
    }
}
