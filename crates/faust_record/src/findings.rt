use faust_types::{Answer, Clients, Cut, Names, Notice, Operation, Sequence};

/// The lists of operations that clients saw, one for each client: that of client i stands at place i, counted from 1.
pub type Views = Sequence<Names>;

/// What one entry gave its client, as a report shows it: the operation that completed, the cut where it changed, the
/// clients that were probed, the dummy read that a tick began, and the notice of a broken check.
#[derive(Debug, Drop)]
pub struct Fact {
    pub entry: u64,
    pub client: u8,
    pub done: Option<Answer>,
    pub cut: Option<Cut>,
    pub probed: Clients,
    pub dummy: Option<Operation>,
    pub notice: Option<Notice>,
}

/// One fact for each entry that isn't an arrival, in order.
pub type Facts = Sequence<Fact>;

/// All that a report of a run shows, as plain data: the numbers of clients, of entries and of operations that began,
/// what each entry gave, the clients' views, the number of the first reply that departed from the protocol, and the
/// operations in the order in which their SUBMITs arrived.
#[derive(Debug, Drop)]
pub struct Findings {
    pub clients: u8,
    pub entries: u64,
    pub begun: u64,
    pub facts: Facts,
    pub views: Views,
    pub departure: Option<u64>,
    pub order: Names,
}
