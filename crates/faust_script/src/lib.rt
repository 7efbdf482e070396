//! Scripts as text: `parse` answers exactly the script that the bytes are, or the first line that breaks the grammar,
//! with its cause. `generate` makes the script of a seed, a number of clients and a number of operations.
//!
//! `specs/Forms.antt` comes first: each event and each edit is a word and its fields. `specs/Parsing.antt` has the
//! machine over lines, whose fold is `parsed`. `specs/Scripts.antt` says in other words which bytes are a script's text,
//! `specs/Refusals.antt` which line is refused and why, and `specs/InRange.antt` which scripts are in range, as all that
//! are read are. `specs/Words.antt` has the words. `specs/Generated.antt` has the generated script.
//!
//! What an event does when it is played is not said here.
#![tactic(auto)]

mod edit;
mod error;
mod event;
mod generator;
mod laws;
mod line;
mod parser;
mod progress;
mod script;
mod stage;
mod word;

pub use edit::Edit;
pub use error::ScriptError;
pub use event::Event;
pub use generator::generate;
pub use laws::{
    first_refused_lines, generated_scripts_are_in_range, scripts_are_in_range,
    scripts_are_their_texts, steps_end_where_no_client_can_act,
};
pub use line::read_event;
pub use parser::parse;
pub use script::{Events, MAX_EVENTS, Script};
pub use stage::Stage;
pub use word::{EditWord, EventWord};

#[cfg(test)]
mod tests;
