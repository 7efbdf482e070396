// What users were told.
use faust_node::Receipt;
use faust_types::Sequence;

/// The receipts of users, those of client i's user at place i, counted from 1, each in the order of its calls.
pub type Receipts = Sequence<Sequence<Receipt>>;
