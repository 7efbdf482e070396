//! What every clean run promises, read off its record: no tag is forged in it, and no two hashed inputs have one digest.
//! Each completed operation has a fork view, the operations that its client takes to have happened up to it. A fork view
//! names operations that began, each client's from the first on, and its last one; versions count fork views, and are
//! ordered as these are by being fronts of each other. What stays of the fork view of a client's last completed
//! operation is its view. The views of all clients are weak fork-linearizable and causal.
//!
//! This crate has no code. `specs/ForkViews.antt` comes first: fork views and views, off the replies and answers of a
//! record. `specs/Histories.antt` has the history of a record, of which the properties of views speak. Both are defined of
//! every record, clean or not. `specs/Ledgers.antt` has what entries leave behind, and `specs/Sound.antt` when that is
//! sound, which is the ground of all promises on runs. `laws` states what holds, and `proofs/` has the lemmas that
//! crates above cite. What clients may conclude from cuts, and what a notice means, is not its business.
#![tactic(auto)]

pub mod laws;
