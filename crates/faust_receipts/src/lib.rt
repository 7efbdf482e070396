//! Runs of clients and a server beside one another, judged when all have ended. `differs` compares what users were told
//! with the merged record, and names the first receipt that isn't the completion of the operation that its user began
//! at that place. `short` names the first user that was told of fewer operations than it was to make, though nothing
//! in the record says why.
//!
//! `specs/UserOperations.antt` comes first: which operations of a record are a user's, and when each completed.
//! `faust_node` says which answers a user may get, and `specs/Receipts.antt` that receipts are completions;
//! `specs/Lines.antt` has the lines that name what is wrong. `laws` says that no line comes exactly where every receipt
//! is right.
//!
//! How receipts come to users, and what the record says besides, is not the business of this crate.
#![tactic(auto)]

mod differing;
pub mod laws;
mod receipt;
mod shortage;
#[cfg(test)]
mod tests;

pub use differing::differs;
pub use receipt::Receipts;
pub use shortage::short;
