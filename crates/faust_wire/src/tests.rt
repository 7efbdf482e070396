ghost use Rattle.faust_types.specs.Clients.{IsClientCount};
ghost use Rattle.faust_types.specs.Ranges.{IsWire};

mod fields;
mod ranges;
mod spellings;

use crate::{WireError, decode, encode};
use faust_types::{Bytes, OutOfMemory};
use std::alloc::Global;
use std::test::Fail;

// The bytes here are written out by hand from the tables of the format.
pub(crate) const TAG: &[u8] = &[7; 32];

pub(crate) const OTHER_TAG: &[u8] = &[8; 32];

pub(crate) const ONE: &[u8] = b"\0\0\0\0\0\0\0\x01";

pub(crate) const ZERO: &[u8] = &[0; 8];

pub(crate) const GREATEST: &[u8] = b"\0\0\0\xff\xff\xff\xff\xff";

// A version of two clients, of which the second has no operation.
pub(crate) const VERSION: &[&[u8]] = &[ONE, ZERO, b"\x01", TAG, b"\0"];

pub(crate) fn joined(alloc: Global, parts: &[&[u8]]) -> Result<Bytes, OutOfMemory> {
    let mut out = Bytes::new(alloc);
    for part in parts {
        out.append(part)?;
    }
    Ok(out)
}

/// The message of these parts with another first byte.
pub(crate) fn begun_with(alloc: Global, first: u8, parts: &[&[u8]]) -> Result<Bytes, Fail> {
    let mut bytes = joined(alloc, parts)?.into_vec()?;
    *bytes.get_mut(0).ok_or("a first byte")? = first;
    Ok(Bytes::from_vec(bytes))
}

pub(crate) fn is_read_back(alloc: Global, wire: u8, n: u8, bytes: &[u8]) -> Result<bool, WireError>
    requires wire { IsWire wire }
    requires count { IsClientCount n }
{
    let message = decode(alloc, wire, n, bytes)?;
    let again = encode(alloc, wire, n, &message)?;
    Ok(again.as_slice() == bytes)
}

pub(crate) fn is_malformed(alloc: Global, wire: u8, n: u8, bytes: &[u8]) -> bool
    requires wire { IsWire wire }
    requires count { IsClientCount n }
{
    matches!(decode(alloc, wire, n, bytes), Err(WireError::Malformed))
}

// One message of each kind for two clients, in parts, as wire 1 spells it.
pub(crate) const READ: &[&[u8]] = &[b"\x01\x01\x02\x01", ONE, TAG, TAG];

pub(crate) const WRITE: &[&[u8]] = &[b"\x01\x01\x01\x02", GREATEST, TAG, TAG, b"\0\x02ab"];

pub(crate) const FIRST_REPLY: &[&[u8]] = &[b"\x01\x02\x01\0\0\0\0\0"];

pub(crate) const COMMIT: &[&[u8]] = &[b"\x01\x03", ONE, ZERO, b"\x01", TAG, b"\0", TAG, OTHER_TAG];

pub(crate) const PROBE: &[&[u8]] = &[b"\x01\x04\x01\x02", TAG];

pub(crate) const NO_VERSION: &[&[u8]] = &[b"\x01\x05\x02\x01\0", TAG];

pub(crate) const A_VERSION: &[&[u8]] = &[
    b"\x01\x05\x02\x01\x02",
    ONE,
    ZERO,
    b"\x01",
    TAG,
    b"\0",
    TAG,
    TAG,
];

pub(crate) const FAILURE: &[&[u8]] = &[b"\x01\x06\x01\x02\x0f", TAG];

pub(crate) const HELLO: &[&[u8]] = &[b"\x01\x07\x02"];

// A reply for two clients with one tuple, one proof and a read part with a value of one byte: 350 bytes.
pub(crate) const FULL_REPLY: &[&[u8]] = &[
    b"\x01\x02\x02\x01",
    ONE,
    GREATEST,
    b"\x01",
    TAG,
    b"\x01",
    TAG,
    TAG,
    b"\x01\x01\x02\x02",
    TAG,
    b"\x01",
    TAG,
    b"\0",
    b"\x01\x01\x01",
    ONE,
    GREATEST,
    b"\x01",
    TAG,
    b"\x01",
    TAG,
    TAG,
    b"\x01",
    ONE,
    b"\x01\0\x01x",
    TAG,
];

// SUBMITs as wire 2 spells them: without a riding COMMIT, and with one of 115 bytes behind the value.
pub(crate) const READ_ALONE: &[&[u8]] = &[b"\x02\x01\x02\x01", ONE, TAG, TAG, b"\0"];

pub(crate) const READ_AND_COMMIT: &[&[u8]] = &[
    b"\x02\x01\x02\x01",
    GREATEST,
    TAG,
    TAG,
    b"\x01",
    ONE,
    ZERO,
    b"\x01",
    TAG,
    b"\0",
    TAG,
    OTHER_TAG,
];

pub(crate) const WRITE_ALONE: &[&[u8]] = &[b"\x02\x01\x01\x02", ONE, TAG, TAG, b"\0\x02ab\0"];

pub(crate) const WRITE_AND_COMMIT: &[&[u8]] = &[
    b"\x02\x01\x01\x02",
    GREATEST,
    TAG,
    TAG,
    b"\0\x02ab",
    b"\x01",
    ONE,
    ZERO,
    b"\x01",
    TAG,
    b"\0",
    TAG,
    OTHER_TAG,
];
