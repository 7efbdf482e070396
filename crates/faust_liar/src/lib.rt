//! The server that lies by script. It runs up to 8 branches of the honest server side by side, decides for each
//! client which of them sees its messages, and hands out the replies, as they were made, once more, or edited.
//!
//! `specs/Lies.antt` comes first: the state, and what each call makes of it. `specs/Branches.antt` says what a branch
//! does with a message: the rows of the honest server, but never out of turn. `specs/Edits.antt` is the table of
//! edits: what each makes of a reply, when it can't be made, and which tag a forged one makes anew.
//! `specs/InRange.antt` says which messages may arrive, and what every state keeps. `specs/Sessions.antt` says what is
//! kept of each client, in messages; `specs/Spelled.antt`, how a message is kept as its bytes, helps proofs.
//!
//! Each refusal leaves all as before, want of memory included. A branch has no path to a key; only a forged edit is
//! given one. What a client makes of a lie isn't said here.
#![tactic(auto)]

mod branch;
mod change;
mod error;
mod flip;
mod forging;
mod kept_message;
pub mod laws;
mod liar;
mod pending;
mod read_part;
mod session;
#[cfg(test)]
mod tests;
mod versions;

pub use error::LiarError;
pub use liar::{Liar, MAX_BRANCHES};
