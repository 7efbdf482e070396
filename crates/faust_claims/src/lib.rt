//! What clients of a clean run may rely on where the server lies: an entry in which incomparable versions meet gives its
//! client a notice in that entry.
//!
//! This crate has no code and no definitions. What it is that incomparable versions meet is defined in faust_audit, in
//! specs/Meetings.antt; read that first. `laws` states what holds. That no notice comes where the server keeps to its
//! protocol is the business of faust_joined.
#![tactic(auto)]

pub mod laws;
