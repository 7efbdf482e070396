//! The bytes that tell messages apart, besides those that wire and tags share.

/// The version of the wire under which no COMMIT rides on a SUBMIT.
pub(crate) const FIRST_WIRE: u8 = 1;

// The second byte of a message, where it isn't one between clients.
pub(crate) const SUBMIT: u8 = 1;

pub(crate) const REPLY: u8 = 2;

pub(crate) const COMMIT: u8 = 3;

pub(crate) const HELLO: u8 = 7;

/// The greatest number of a check.
pub(crate) const LAST_CHECK: u8 = 15;
