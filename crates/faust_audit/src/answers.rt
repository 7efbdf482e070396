//! What the calls of this crate answer.
use faust_types::{Bytes, Sequence};

/// What is found of the premises on a run: none is broken; or the first entry with a right tag of a body that nobody
/// made before, and the body; or two hashed inputs of one digest, the second one being the first that has an earlier
/// partner.
#[derive(Debug, Drop)]
pub enum Premises {
    Clean,
    Forged { entry: u64, body: Bytes },
    Collision { first: Bytes, second: Bytes },
}

/// A checked pair: the body, and whether the tag that came for it is right.
#[derive(Debug, Drop)]
pub struct Pair {
    pub body: Bytes,
    pub right: bool,
}

/// Checked pairs, in the order in which they are checked.
pub type Pairs = Sequence<Pair>;

/// Bodies.
pub type Bodies = Sequence<Bytes>;
