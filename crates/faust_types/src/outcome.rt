ghost use Rattle.std.specs.Prelude.{◌≡◌, [], None};
ghost use Rattle.faust_types.specs.Outcomes.{nothing};

use crate::bytes::Bytes;
use crate::operation::{Answer, Notice, Operation};
use crate::sequence::Sequence;
use std::alloc::Global;

/// A cut: entry j, counted from 1, is the number of own operations that client j is known to have in common.
pub type Cut = Sequence<u64>;

/// Client numbers.
pub type Clients = Sequence<u8>;

/// A message from one client to another.
#[derive(Debug, Drop)]
pub struct Post {
    pub to: u8,
    pub bytes: Bytes,
}

/// Messages to other clients, in the order sent.
pub type Posts = Sequence<Post>;

/// What one event at a client gave: messages to the server and to other clients, the answer to its user, the
/// cut where it changed, the clients probed, the dummy read that a tick began, and the notice of a broken check.
#[derive(Debug, Drop)]
pub struct Outcome {
    pub to_server: Option<Bytes>,
    pub to_peers: Posts,
    pub answer: Option<Answer>,
    pub cut: Option<Cut>,
    pub probed: Clients,
    pub began: Option<Operation>,
    pub notice: Option<Notice>,
}

impl Outcome {
    /// The outcome of an event that gave nothing. It takes no memory.
    pub fn nothing(alloc: Global) -> Outcome
        ensures { result ≡ nothing }
    {
        Outcome {
            to_server: None,
            to_peers: Sequence::new(alloc),
            answer: None,
            cut: None,
            probed: Sequence::new(alloc),
            began: None,
            notice: None,
        }
    }
}
