//! Runs as text: `read_record` answers exactly the run that the bytes are the record of, or the first line that is
//! refused, with its cause; `print_record` prints a run. What is printed of a run is read as this run again. A `Feed` takes
//! the bytes of a record piece by piece, cut anywhere, and answers what `read_record` answers of them all.
//!
//! `specs/Texts.antt` comes first: the text of a run. `specs/Forms.antt` says what each line of an entry says, and
//! `specs/Reading.antt` has the machine over lines, whose fold is `read`. `specs/Records.antt` says in other words which
//! bytes are a run's record, `specs/Refusals.antt` which line is refused and why, and `specs/InRange.antt` what callers
//! of single steps owe. `specs/Words.antt` has the words; `specs/Feeding.antt` says what a feed answers with whatever
//! follows; `specs/Kept.antt` helps proofs.
//!
//! Version 1 of the text names an arrival alone, and stands for runs of wire 1; version 2 names the wire, and has the
//! bytes of each message that arrives. Outcomes aren't written: they are replayed. What a run tells is not said here.
#![tactic(auto)]

mod entry_line;
mod error;
mod feed;
mod laws;
mod printing;
mod reading;
mod sharing;
mod stage;
mod word;

pub use entry_line::{EntryLine, end_number, is_number_of, read_entry, taken};
pub use error::StoreError;
pub use feed::Feed;
pub use laws::{
    printed_records_are_read, records_are_runs, records_are_their_texts, refused_records,
};
pub use printing::print_record;
pub use reading::read_record;
pub use stage::{MAX_RECORD_ENTRIES, Stage};
pub use word::EntryWord;

#[cfg(test)]
mod tests;
