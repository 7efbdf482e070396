//! Streams that carry frames, posts that carry datagrams, and nets that make them. Over a source that tells its
//! bytes, the frames that come out of a stream are those of its bytes, however it is cut into pieces, and it
//! answers that it ended only between two frames. It fails only where a stream goes on with no frame, where its
//! source failed, or where an earlier call failed. Each fault raises a count, and nothing else does.
//!
//! `specs/Frames.antt` comes first: what a frame is, and the bytes of a stream. `specs/Links.antt` says what each
//! call does to these bytes, `specs/Counts.antt` what it does to the counts, and `specs/Views.antt` why a call of
//! a stream over a source or a sink fails. `laws` has what a stream's bytes tell of its frames.
//!
//! That a message arrives, and what a socket carries, is not promised.
#![tactic(auto)]

mod answers;
mod finding;
pub mod laws;
mod lines;
mod mailbox;
mod memory_net;
mod memory_post;
mod memory_stream;
mod net;
mod parcel;
mod pipe;
mod posts;
mod reader;
mod streams;
#[cfg(test)]
mod tests;
mod writer;

pub use answers::{Got, LinkError};
pub use memory_net::MemNet;
pub use memory_post::{MemPostIn, MemPostOut};
pub use memory_stream::{MemIn, MemOut};
pub use net::Net;
pub use posts::{PostIn, PostOut};
pub use reader::FrameReader;
pub use streams::{FrameIn, FrameOut};
pub use writer::FrameWriter;
