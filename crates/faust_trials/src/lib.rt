//! Tests that cross crates: `tests/live.rt` runs clients and a server beside one another, in threads and over links in
//! memory, and `tests/faults.rt` lets each read and each write of `run` fail. What each crate promises stands there, and
//! is proved there; here is seen that their parts fit together.
#![tactic(auto)]

#[cfg(test)]
mod tests;
