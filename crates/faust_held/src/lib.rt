//! What clients of a clean run hold, give away and announce. Each version that a client holds is initial or that of an
//! operation that its maker completed; the versions of one client are pairwise comparable; and what it gives away, in
//! messages or in its own operations, is comparable with all its own operations, whichever came first. Therefore every
//! announced cut is right: for each own operation that the cut counts, the client and those that it covers there agree on
//! what happened up to it, and none of them completed anything before that is missing.
//!
//! This crate has no code. `specs/Cuts.antt` comes first: which cuts a record has; what a right cut is stands in
//! faust_names. `specs/Held.antt` has the versions that clients hold and give away. `laws` states what holds, and
//! `proofs/` has the lemmas that crates above cite. How a client checks versions is the business of faust_agent.
#![tactic(auto)]

pub mod laws;
