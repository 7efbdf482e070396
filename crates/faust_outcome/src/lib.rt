//! What a live run comes to, once all have ended. `LiveCommand::of` reads the words of a live run. `outcome` takes what
//! was gathered: the clients' journals, what arrived at the server, and what each user was told. It merges the first two
//! into a record, compares the receipts with it, and judges it, and gives the text that is written, with its status.
//!
//! `specs/Words.antt` comes first: the words, and what the clients share. `specs/UserLists.antt` has what the users do,
//! `specs/Gathering.antt` what is gathered, `specs/Outcomes.antt` which text is written at which status, and
//! `specs/Told.antt` what a run has shown that is told of. `laws` says that each gathering has one text, and that a run
//! that is told of is as `Told` has it. `specs/Forms.antt` and `specs/Deciding.antt` say the same of words and gatherings
//! as functions, and help the proofs.
//!
//! How a live run is made, and who writes the text, is not the business of this crate.
#![tactic(auto)]

mod deciding;
mod gathered;
pub mod laws;
mod lines;
mod numbers;
mod status;
#[cfg(test)]
mod tests;
mod words;

pub use deciding::{Output, outcome};
pub use gathered::Gathered;
pub use lines::{link_fault_line, start_fault_line};
pub use status::LiveStatus;
pub use words::{Detail, LiveCommand};
