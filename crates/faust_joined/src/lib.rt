//! Runs in which no reply departs from the protocol: the honest server and all clients agree on one history, the order in
//! which SUBMITs arrived. So each reply completes the operation that its client waits for, a notice comes only at or after
//! the first departure, and the operations in the order of their arrival are a linearization. Of tags it is asked only that
//! those of messages between clients aren't forged; nothing is asked of digests.
//!
//! This crate has no code. `specs/Promised.antt` comes first: what is asked of a run and what it keeps.
//! `specs/Histories.antt` says what is seen of a run from outside. `specs/Joined.antt` says how the server and each client
//! stand to the history behind each entry, and helps proofs. `laws` has the promises, for both versions of the wire.
//!
//! What clients may conclude where the server lied is not its business.
#![tactic(auto)]

pub mod laws;
