//! The digests and tags of the protocol, over SHA-256: `hmac` gives a message's tag, a `PreparedKey` the tags
//! of many messages under one key, `same` compares two tags, `chain` gives the digest of a list of clients step
//! by step, `value_digest` that of a value, and `input_digest` that of any hashed input. Each call always
//! succeeds, and returns exactly what a definition in `specs/` says: read `Hmac` first, then `Chain`. No call
//! takes memory but those of a key that `PreparedKey::with_book` made: such a key and its copies remember a fixed
//! number of tags, of values and of links of chains, and where memory is wanting they remember less and answer the
//! same. `laws` states what those definitions keep. That SHA-256 has no collisions is no promise of this crate.
#![tactic(auto)]

mod book;
mod compare;
mod digests;
mod ghost_bytes;
mod keyed;
pub mod laws;
mod places;
#[cfg(test)]
mod tests;

pub use compare::same;
pub use digests::{chain, input_digest, value_digest};
pub use keyed::{PreparedKey, hmac};
