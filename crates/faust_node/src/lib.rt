//! A client of a live run: its cell, and the node through which threads share it. Behind the node's lock stands the
//! cell: the client's journal, and the seat that draws the numbers of its entries. Each change is one call of the cell,
//! and each of its refusals has its cause. A cell that found no memory after it drew a number is closed with `Memory`;
//! in every other one the journal's numbers are those that its seat drew. A user's receipt has the answer and the
//! number of the entry that completed its operation, and the kind and the register that were asked for.
//!
//! `specs/Cells.antt` comes first: what a cell keeps, and when it begins nothing more. `specs/Steps.antt` says what its
//! steps do, `specs/Receipts.antt` what a receipt is, `specs/Sending.antt` which message goes out next, and
//! `specs/Serving.antt` why a loop that serves a node stops.
//!
//! A node takes the lock, waits and hands on. That a call returns, and what a call did under a lock that was given back,
//! no clause says: tests show it.
#![tactic(auto)]

mod cell;
mod error;
mod node;
mod receipt;
mod searching;
mod sending;
mod serving;
mod session;
#[cfg(test)]
mod tests;

pub use cell::NodeCell;
pub use error::NodeError;
pub use node::Node;
pub use receipt::Receipt;
pub use sending::{Batch, Dispatch};
pub use session::Session;
