//! Scripts are played here: users begin, messages arrive, replies and messages between clients are handed over, the
//! lying server is told its lies. The answer is the run that came of it, or the first event that can't be played, by
//! its line and its cause.
//!
//! `specs/Play.antt` comes first: what each event makes of the run so far and of what the liar holds. `specs/Mail.antt`
//! says which messages the clients sent to one another, and `specs/Playing.antt` what a call answers. `laws` states
//! that what a client of a run sends is read as it was sent, in the words of `specs/Sent.antt`. `specs/Kept.antt` says
//! how the code finds messages, and helps proofs.
//!
//! What the clients make of what comes to them is a matter of their table, what the liar does of its own crate, and
//! what the run tells of other crates.
#![tactic(auto)]

mod error;
pub mod laws;
mod letters;
mod mail;
mod playing;
mod refusing;
mod stage;
#[cfg(test)]
mod tests;

pub use error::PlayError;
pub use playing::play;
