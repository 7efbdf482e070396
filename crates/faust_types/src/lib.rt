//! The values of the protocol: versions and their order, operations, messages, outcomes, and the small lists
//! that they are made of. A message is seen by contracts as a plain value, a list as a list, and a version
//! as two lists, one of timestamps and one of digests, of which a digest is absent exactly at timestamp 0.
//!
//! `specs/Versions.antt` comes first: the order of versions, and what a step changes; `laws` says that it is an
//! order. `specs/Clients.antt` says what a client's number is, `specs/Bytes.antt` what bytes and digests are,
//! `specs/Ranges.antt` which configs and messages are in range, `specs/Messages.antt` what is said of the parts of
//! messages besides, and `specs/Spelling.antt` the bytes of versions and of peer messages, which the wire and the
//! tags share.
//!
//! Of messages only the parts that wire and tags share are spelled here; none is read, and nothing is hashed.
#![tactic(auto)]

mod arrival;
mod bytes;
mod config;
pub mod laws;
mod limits;
mod message;
mod operation;
mod out_of_memory;
mod outcome;
mod sequence;
pub mod spelling;
mod status;
#[cfg(test)]
mod tests;
mod version;

pub use arrival::{Arrival, Arrivals, Closing};
pub use bytes::Bytes;
pub use config::Config;
pub use limits::{
    MAX_CLIENTS, MAX_KEY_LEN, MAX_MESSAGE_LEN, MAX_PENDING, MAX_TIMESTAMP, MAX_VALUE_LEN,
};
pub use message::{
    Commit, Known, Mem, Message, Peer, PeerMessage, Proofs, ReadPart, Reply, Submit, Tuple, Tuples,
};
pub use operation::{Answer, Kind, Names, Notice, OpName, Operation};
pub use out_of_memory::OutOfMemory;
pub use outcome::{Clients, Cut, Outcome, Post, Posts};
pub use sequence::{Numbers, Sequence};
pub use status::Status;
pub use version::{Compared, Digest, Tag, Version};
