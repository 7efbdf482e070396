//! Histories as lists of clients, and what versions say of them. A history is the list of the clients whose operations
//! it has, the last one first: operation t of client k is the t-th k in time. So a front of a history in time is a tail
//! of its list, and the names of its operations are read off at the end.
//!
//! This crate has no code. Its definitions are what promises on views, cuts and the honest server speak of:
//! `specs/Lists.antt` comes first, with counts and fronts; `specs/Names.antt` has the names of operations and their
//! order, and `specs/Walks.antt` the version that a history has. `laws` states what they keep, and `proofs/` has the
//! lemmas that crates above cite. Which histories a run has is not its business.
#![tactic(auto)]

pub mod laws;
