//! `live`: clients and a server beside one another, each in threads of its own, over links that a net makes, and what
//! their run comes to. Where it ends with status 0, what was written is the text of the record that all journals and
//! arrivals merge to, that record is a clean run, and each user was told what the record has.
//!
//! `specs/Answer.antt` comes first: what each status promises. `specs/Casting.antt` says what those who take part leave,
//! `specs/Counting.antt` and `specs/Ending.antt` what becomes of the counts of faults. The words, what is gathered and the
//! texts are those of `faust_outcome`.
//!
//! That a call returns, and that links carry what they are given, is not promised: tests show runs that end well.
#![tactic(auto)]

mod calling;
mod cast;
mod clocks;
mod health;
mod jobs;
mod links;
mod running;
mod stage;
#[cfg(test)]
mod tests;
mod user;

pub use calling::live;
pub use clocks::Clocks;
