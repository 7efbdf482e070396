//! How another program uses the crates below: a client over links of its own (`tests/client.rt`), a server
//! (`tests/server.rt`), the checks of a reply alone (`tests/checks.rt`), and the audit of a run that was kept
//! (`tests/audit.rt`). Each is a short test, and `docs/library.md` shows the same code. What each crate promises
//! stands there, and is proved there.
#![tactic(auto)]

#[cfg(test)]
mod tests;
