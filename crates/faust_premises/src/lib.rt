//! The two premises under which promises on runs are stated: no tag of the run is forged, and no two inputs that its
//! clients hashed have one digest. A run that keeps both is clean. What the first forgery and the first collision are
//! is read off the whole run; no client knows it.
//!
//! This crate has no code. `specs/Premises.antt` says which pairs of a body and a tag an entry has to answer for, when
//! one is forged, what clients hash, when two inputs collide, and when a run is clean. `laws` states what a clean run
//! keeps, and `proofs/` has the lemmas that crates above cite. Deciding whether a run is clean, and what clean runs
//! promise, is not its business.
#![tactic(auto)]

pub mod laws;
