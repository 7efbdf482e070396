//! The bodies that clients tag, and the tags over them: of a SUBMIT, of the memory that it writes, of a
//! COMMIT's version, of its proof, and of a message between clients. A tag call gives HMAC with SHA-256 of
//! exactly the bytes that the body call beside it gives, and both are what `specs/Bodies.antt` says: read it
//! first. Who makes many tags under one key prepares it once, and takes the call of the same name with `_under`.
//! `laws` states that a body tells which of the five it is and every field that went into it, so that who
//! checks a tag knows what its maker said. That nobody without the key makes a right tag is no promise of this
//! crate.
#![tactic(auto)]

mod commit;
pub mod laws;
mod memory;
mod peer;
mod proof;
mod submit;
#[cfg(test)]
mod tests;

pub use commit::{commit_body, commit_tag, commit_tag_under};
pub use memory::{data_body, data_tag, data_tag_under};
pub use peer::{peer_body, peer_tag, peer_tag_under};
pub use proof::{proof_body, proof_tag, proof_tag_under};
pub use submit::{submit_body, submit_tag, submit_tag_under};
