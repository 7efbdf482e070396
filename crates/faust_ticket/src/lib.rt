//! The one counter, from which seats draw numbers. A number that a seat draws is above each one that it drew before, and no
//! number is drawn twice, by whichever threads. After all seats came back, the lists of the seats together hold each number below
//! the counter's answer exactly once. A draw is one atomic step: it waits for nobody and takes no memory.
//!
//! `specs/Numbers.antt` comes first: what it means to hold each number once. `specs/Holders.antt` says what contracts see of a root
//! and of a seat, and `specs/Rule.antt` what holds of the counter between any two steps.
//!
//! Nothing is said of the order between threads beyond these numbers.
#![tactic(auto)]

mod blank;
mod counter;
mod laws;
mod root;
mod seat;
mod table;
#[cfg(test)]
mod tests;

pub use blank::{Blank, start};
pub use counter::Counter;
pub use laws::each_number_once;
pub use root::Root;
pub use seat::Seat;
