use faust_types::{Bytes, Kind, Known, Notice, Operation};
use faust_ustor::Judged;

/// What a user asks for, or a tick by itself: a write has a value, a read has none.
#[derive(Debug, Drop)]
pub struct Order {
    pub kind: Kind,
    pub register: u8,
    pub value: Option<Bytes>,
    pub dummy: bool,
}

/// The end of the pending operation, with what its reply tells.
#[derive(Debug, Drop)]
pub struct Completion {
    pub op: Operation,
    pub judged: Judged,
}

/// What a client does at an event, once all is checked: it takes no notice of it, begins an operation, completes
/// the pending one, keeps the notice of a broken check for good, answers the PROBE of a client, takes the version
/// that a client says, or lets a moment come.
#[derive(Debug, Drop)]
pub enum Deed {
    Ignores,
    Begins(Order),
    Completes(Completion),
    Breaks(Notice),
    Answers(u8),
    Hears(u8, Known),
    Ticks(u64),
}
