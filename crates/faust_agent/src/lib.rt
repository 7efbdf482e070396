//! A client of the protocol: it begins operations, checks replies and messages of other clients, and keeps the
//! greatest version that it heard from each of them. `Agent` is that client. Each of its calls is one row of the
//! client's table: what it holds then, and what it gives, are those that the table says, under both versions of
//! the wire; and where memory runs out, it is as before.
//!
//! `specs/Table.antt` comes first: what a client does at an event, and what follows. `specs/State.antt` says what
//! a client holds, `specs/Deeds.antt` in which words the table is written, `specs/Outcomes.antt` what an outcome
//! is and what each call owes, and `specs/InRange.antt` what every client keeps.
//!
//! Whether a message arrives is not its business, nor what all clients together may conclude from what each does.
#![tactic(auto)]

mod agent;
mod client;
mod deciding;
mod deed;
mod doing;
mod identity;
pub mod laws;
mod reading;
#[cfg(test)]
mod tests;
mod ticking;

pub use agent::Agent;
