//! The honest server and clients that keep to their table: the state that the server's rows make stands for one history,
//! the operations in the order in which they arrived. Each row keeps that, and each reply breaks none of the checks 3
//! to 12 of the client that gets it: its next version is that of the history with its operation, and a read answers
//! what was written last.
//!
//! This crate has no code. `specs/World.antt` comes first: what the clients do and which messages they send.
//! `specs/Honest.antt` says what the server holds, `IsHonest`, and what an accepted reply is. `laws` has the promise, row
//! by row, for both versions of the wire: a COMMIT may come alone or ride on the next SUBMIT. Who hands the messages
//! over, and check 13, are not its business.
#![tactic(auto)]

pub mod laws;
