//! The server's host: the cell behind its lock, and the loop that serves one connection. The cell keeps that its server is the
//! replay of the messages that arrived, each accepted in its turn, that these have the numbers that its seat drew, in this order,
//! and that each client has at most 200,000 of them. A message that is refused draws no number, and leaves all as it was.
//!
//! `specs/Requests.antt` comes first: what a client's bytes ask, and what the server does then. `specs/Arriving.antt` says what the
//! arrivals and the seat of a host keep, `specs/Cells.antt` what each call does to the cell, and `specs/Connections.antt` why a
//! connection stopped.
//!
//! No key comes here: the crate stands on none that hashes or makes tags. That a host's calls return, and what one of them did
//! under its lock, is not promised.
#![tactic(auto)]

mod arrival_log;
mod gate;
mod greeting;
mod host;
mod host_cell;
mod request;
mod servers;
mod service;
#[cfg(test)]
mod tests;

pub use gate::{Gate, NoGate};
pub use host::Host;
pub use host_cell::HostCell;
pub use service::Service;
