use faust_receipts::Receipts;
use faust_record::Journals;
use faust_types::Arrivals;

/// What a live run leaves when all have ended: the clients' journals, what arrived at the server, and what each user was
/// told.
#[derive(Drop)]
pub struct Gathered {
    pub journals: Journals,
    pub arrivals: Arrivals,
    pub receipts: Receipts,
}
