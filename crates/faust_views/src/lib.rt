//! What clients see of a run. The fork view of a completed operation is the list of operations that its client takes to
//! have happened up to it; the view of a client is what stays of the fork view of its last completed operation. All fork
//! views of a record are kept in one tree of shared paths, with one end for each, and views are walked off that tree.
//!
//! Which lists these are is defined over records in `faust_runs`, in its `specs/ForkViews.antt`. `specs/Forks.antt` says
//! what the tree has to do with them, and what the list of all views is. `specs/Grown.antt` and `specs/Noted.antt` say
//! what is kept while a record is read, and help proofs.
//!
//! All of this holds of every record, clean or not. Where a record is clean, the views of all clients are weak
//! fork-linearizable and causal, which is proved in `faust_runs`. Whether it is clean is not the business of this crate.
#![tactic(auto)]

mod calls;
mod ends;
mod forest;
mod key;
mod pending;
mod reading;
mod seen;
#[cfg(test)]
mod tests;
mod writes;

pub use calls::{forks, view, views};
pub use ends::{Ends, Forks};
