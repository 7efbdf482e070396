//! The checks that a client of USTOR makes of the reply to its operation, those that need only the reply, the
//! operation and the own version: check 3 to check 12. `judge` makes them in their order, and gives the first
//! broken condition with its place, or the next version of the client with what a read found. `hashed` lists what
//! it hashes on the way, for who asks whether two inputs of a run have one digest. `Walk` goes over the pending
//! tuples as `judge` does, for who looks at the tags of a reply beside it. A client that judges many replies
//! prepares its key once, and takes `judge_under` and `hashed_under`.
//!
//! `specs/Checks.antt` comes first: one condition a check, the walk over the pending tuples, and `judged`, which
//! `judge` equals in both answers. `specs/Passed.antt` says the same of a reply that passes, whatever the order.
//! `specs/Hashed.antt` lists what is hashed, and `specs/InRange.antt` says what may be judged and which ranges the
//! answer keeps. `laws` states how these go together, what the next version counts, and where hashing stops.
//!
//! Whether the bytes are a reply, whether one is awaited, and how the versions compare with those that the
//! client holds, is not asked here. That nobody without the key makes a right tag is no promise of this crate.
#![tactic(auto)]

mod hashing;
mod judgement;
pub mod laws;
mod part;
mod refusal;
mod tags;
#[cfg(test)]
mod tests;
mod verdict;
mod walk;

pub use hashing::{hashed, hashed_under};
pub use judgement::{Judged, judge, judge_under};
pub use refusal::JudgeError;
pub use walk::Walk;
