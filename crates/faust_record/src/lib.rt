//! Runs as they are kept: one client's entries as a journal, a whole run as a record. Only true runs get into a
//! record, and every run does: each client's entries are those of its table, and what arrives at the server is what
//! its sender sent, in order. Journals and arrivals that were numbered by one counter are merged into one record, or
//! the first thing that doesn't fit is named. After a refusal all is as before.
//!
//! `specs/Runs.antt` comes first: what a run is. `specs/Entries.antt` says what an entry is at its client,
//! `specs/Operations.antt` which operations a record has and which precede which, `specs/Made.antt` which bodies are
//! made, `specs/Journals.antt` what a journal keeps, `specs/Refusals.antt` when a further entry is refused, and
//! `specs/Merging.antt` what merging answers. `laws` states what follows for runs, on the definitions alone. The
//! other files of `specs/` say how the code keeps all this in memory, and help proofs.
//!
//! Whether a run is clean, what its clients see, and what may be concluded from it is not the business of this crate.
#![tactic(auto)]

mod acting;
mod entry;
mod errors;
mod feeding;
mod findings;
mod first;
mod given;
mod journal;
pub mod laws;
mod merging;
mod outbox;
mod placing;
mod run_record;
#[cfg(test)]
mod tests;

pub use entry::{Entry, Input};
pub use errors::{MergeError, PushError, StepError};
pub use findings::{Fact, Facts, Findings, Views};
pub use given::Given;
pub use journal::{Journal, Journals, MAX_ENTRIES};
pub use run_record::{PushInput, RunRecord};
