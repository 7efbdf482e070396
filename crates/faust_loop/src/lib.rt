//! A net over sockets on loopback: TCP streams that send each frame at once, and a UDP socket for each client's post.
//! It keeps what `faust_link` says of every net: a call fails only where its count rises, what it makes starts with the
//! count 0, and a count that comes back raises that of the net.
//!
//! It tells nothing of what the sockets carry, so no clause speaks of it. That a frame arrives whole is shown by a test.
#![tactic(auto)]

mod loop_in;
mod loop_net;
mod loop_out;
mod loop_post;
#[cfg(test)]
mod tests;

pub use loop_in::LoopIn;
pub use loop_net::LoopNet;
pub use loop_out::LoopOut;
pub use loop_post::{LoopPostIn, LoopPostOut};
