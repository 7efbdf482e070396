//! What is found of a run that was recorded, and that no client knows. `premises` says whether both premises hold under
//! which promises on runs are stated, or names the first forged tag, or the first two hashed inputs that collide.
//! `departure` names the first reply that isn't the one that an honest server, run over the messages that arrived,
//! gives; `findings` gathers that and all else that a report of the run shows.
//!
//! `specs/Departure.antt` and `specs/Findings.antt` come first, and `specs/Audited.antt`, which says what `premises`
//! answers in the words of `faust_premises`. `specs/Meetings.antt` says when incomparable versions meet. The other
//! files of `specs/` say how one pass over a run finds all that, and help proofs.
//!
//! What clients see of a run isn't found here, the lists are handed in; and what a clean run promises is not the
//! business of this crate.
#![tactic(auto)]

mod answers;
mod body_set;
mod book;
mod breaking;
mod checked;
mod collected;
mod completing;
mod completion;
mod deciding;
mod departing;
mod finding;
mod hashed_input;
mod input_table;
mod listing;
mod making;
mod ordering;
mod owing;
mod pass;
mod reading;
#[cfg(test)]
mod tests;
mod watched;

pub use answers::{Bodies, Pair, Pairs, Premises};
pub use deciding::premises;
pub use departing::departure;
pub use finding::findings;
pub use listing::{made, pairs};
