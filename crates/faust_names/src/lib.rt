//! Views and right cuts, and that those of sound completions are so. A view of a client is a list of names of operations;
//! weak fork-linearizability and causality are properties of such lists against a history, that is what began, what
//! completed and what was answered. The fork view of a completed operation has the names of its fork; the view of a
//! client is what stays of the fork view of its last completed operation: the writes, and those reads that completed
//! with the front that ends with them as their own fork.
//!
//! This crate has no code. `specs/Histories.antt` comes first, with operations and real time; `specs/Views.antt` has
//! what a view is and the four properties, `specs/Cuts.antt` when a cut is right, and `specs/ForkViews.antt` the lists
//! that a book of completions has. `specs/Chronicles.antt` names what the proofs need of a run. `laws` states what holds
//! of them, and `proofs/` has the lemmas that crates above cite. Why completions are sound is not its business.
#![tactic(auto)]

pub mod laws;
