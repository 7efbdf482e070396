//! The report of a run as text. `text` gives the whole report of findings, `body` its lines from the number of
//! clients to the last view, `json` the report as one JSON object, and `summary` the few lines on a run that was made
//! from a seed. `put_done_line`, `put_departure` and `put_failures` put one line behind a text. Each is exactly the text
//! that the definitions say, of any findings.
//!
//! `specs/Text.antt` comes first: one definition a line of the report, in the order of the lines. `specs/Summary.antt`
//! says the lines of the summary, and what is counted in them, and `specs/Json.antt` the data of the object.
//!
//! Where findings come from, and whether they are true of a run, is not the business of this crate.
#![tactic(auto)]

mod entry_lines;
mod json_report;
mod lines;
mod pieces;
mod report;
#[cfg(test)]
mod tests;
mod totals;

pub use entry_lines::put_done_line;
pub use json_report::json;
pub use lines::put_departure;
pub use report::{body, text};
pub use totals::{put_failures, summary};
