//! The bytes of messages, both ways, under both versions of the wire. `decode` answers a message exactly where the
//! bytes spell one for n clients, and `encode` answers the one spelling of a message; so what is sent is read as it
//! was sent, and whatever else comes is refused. Under version 2 the COMMIT of an operation may ride on the next
//! SUBMIT, and each message begins with another byte, so that bytes of one version spell nothing under the other.
//!
//! `specs/Grammar.antt` comes first: the spelling of each piece and message, apart from both calls.
//! `specs/Reading.antt` says in which steps bytes are read, and helps proofs. `laws` says what follows for spellings:
//! bytes spell at most one message, what is spelled is read back, and none is longer than 8,977 bytes.
//!
//! Which messages are in range is `faust_types`' business, and no tag is made or looked at here.
#![tactic(auto)]

mod error;
pub mod laws;
mod message;
mod numbers;
mod parts;
mod pieces;
mod put;
mod reading;
mod room;
mod submit;
#[cfg(test)]
mod tests;
mod version;
mod writing;

pub use error::WireError;
pub use reading::{decode, read_version};
pub use writing::{encode, encode_commit};
