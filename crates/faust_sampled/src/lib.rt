//! A generated script is never refused: each of its events can be played. In the run that comes of it the server keeps to
//! its protocol, and nothing is forged.
//!
//! This crate has no code and no definitions. What a generated script is stands in faust_script, in specs/Generated.antt,
//! and what it is to play one in faust_sim, in specs/Play.antt; read these first. `laws` states what holds, and
//! proofs/Lib.antt has the proof in reading order. That every cut of the run is whole isn't shown here.
#![tactic(auto)]

pub mod laws;
