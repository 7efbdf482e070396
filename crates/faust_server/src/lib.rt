//! The honest server: it keeps what clients submit and commit, and answers each submission with what the other
//! clients did. It has no path to a key and looks at no tag. A message that comes out of turn is refused, and
//! leaves the state as it was.
//!
//! `specs/Rows.antt` comes first: the state, and its two rows `committed` and `submitted`, step by step. Each call
//! below is its row. A COMMIT that rides on a SUBMIT has its row first: `laws` states that, and when each row is
//! out of turn. `specs/States.antt` says what every state keeps: each client has at most one pending operation, and
//! only while it is uncommitted, so that no reply is out of range.
#![tactic(auto)]

mod ahead;
pub mod laws;
mod memory;
mod pending;
mod per_client;
mod refusal;
mod server;
mod turn;

pub use refusal::{OutOfTurn, ServerError};
pub use server::Server;
