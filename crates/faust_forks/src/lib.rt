//! What is known of operations that completed while the server lied: the history that each stands at the end of, its
//! fork. A fork begins with the fork of the operation whose version the reply showed, goes on with the operations of
//! the reply's tuples, and ends with the own one. Where no tag is forged and no two hashed inputs have one digest, a
//! version is that of its fork, every operation in a fork but the last of its client completed with the front that ends
//! with it as its fork, and versions are ordered as forks are by being fronts. A read answers the value that its
//! register's client wrote last in the fork.
//!
//! This crate has no code. Its definitions are what promises on views and cuts speak of: `specs/Books.antt` comes first,
//! with operations that began and that completed; `specs/Sources.antt` and `specs/Pairs.antt` say which bodies were
//! made and which tags a reply has to answer for; `specs/Pasts.antt` has the fork of a completion and what each entry
//! leaves behind it, `specs/Forks.antt` what is kept of all that, and `specs/Answers.antt` what reads answer. `laws`
//! states what holds, and `proofs/` has the lemmas that crates above cite. Which messages come to which client, and
//! whether a tag is forged, is not its business.
#![tactic(auto)]

pub mod laws;
