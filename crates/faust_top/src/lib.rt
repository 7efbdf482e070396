//! One call from bytes to bytes: `run` does what the words of the program say. It plays a script, or reads a record, or
//! plays the script that is made from a seed; judges the run; and writes a report, a record or a summary to a sink, or why
//! there is none.
//!
//! `specs/Answer.antt` comes first: what each status promises. `specs/Commands.antt` has the words and what each command
//! reads, `specs/Accepting.antt` the run that a command speaks of, `specs/Texts.antt` what is told of it and the lines that
//! stand in place of that, and `Headline` of faust_verdict what is promised of each run. `specs/Forms.antt` and
//! `specs/Output.antt` say the same of words and inputs as functions, and help the proofs, as `specs/RecordInput.antt` does:
//! a record is read as it comes, and its text isn't held.
//!
//! What a script is, how it is played, how a record reads, when a run is clean and what a report says are the business of
//! the crates below: `parsed`, `played`, `generated`, `read`, `record_text`, `premises_of`, `findings_of`,
//! `report_text`, `json_text` and `summary_text`.
#![tactic(auto)]

mod accepting;
mod input;
pub mod laws;
mod lines;
mod output;
mod record_input;
#[cfg(test)]
mod tests;
mod top;
mod words;

pub use top::run;
