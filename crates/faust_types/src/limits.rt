/// The most clients of one run.
pub const MAX_CLIENTS: u8 = 32;

/// The greatest timestamp, and the greatest moment.
pub const MAX_TIMESTAMP: u64 = 0xff_ffff_ffff;

/// The most bytes of a value.
pub const MAX_VALUE_LEN: usize = 4_096;

/// The most bytes of a key.
pub const MAX_KEY_LEN: usize = 128;

/// The most bytes of a message, and so of a frame and of a datagram.
pub const MAX_MESSAGE_LEN: usize = 16_384;

/// The most tuples in the pending list of a reply.
pub const MAX_PENDING: usize = 31;
