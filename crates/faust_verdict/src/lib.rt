//! A run that was judged: all that is found of it, the line that stands in place of that where the run isn't clean, and
//! what is promised of every run. It has the usage line of the programs, too.
//!
//! `specs/Headline.antt` comes first: the words of the main promise, a field each. `specs/Texts.antt` has what is found of
//! a run, and the lines of one that isn't clean. `laws` says that the promise holds of every run.
//!
//! Where a run comes from, and at which status its text is written, is the business of the programs.
#![tactic(auto)]

mod finding;
pub mod laws;
mod lines;

pub use finding::found;
pub use lines::{collision_line, forged_line, usage_line};
