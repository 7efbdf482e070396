use crate::bytes::Bytes;
use crate::operation::Notice;
use crate::sequence::Sequence;

/// A message of a client that the server accepted, with the number that the one counter gave to this event.
#[derive(Debug, Drop)]
pub struct Arrival {
    pub number: u64,
    pub client: u8,
    pub message: Bytes,
}

/// Messages that the server accepted, in the order in which it did.
pub type Arrivals = Sequence<Arrival>;

/// Why a loop over a connection, or a client's cell, stopped: the first cause that stopped it.
#[derive(Clone, Copy, Debug, PartialEq, Eq)]
pub enum Closing {
    /// The cell was closed by `close` or by another call, and it holds no notice.
    Asked,
    /// As `Asked`, and the cell holds this notice.
    Failed(Notice),
    /// The stream or the clock ended.
    Ended,
    /// A count of faults rose.
    Link,
    /// A frame isn't HELLO, SUBMIT or COMMIT at its place.
    Malformed,
    /// An earlier connection named this client.
    Named(u8),
    /// The server refused a message out of turn: the number that was due, and that of the message.
    Turn { expected: u64, got: u64 },
    /// There is no room for a further arrival of the client, or for a further entry of the node.
    Full,
    /// There was no memory.
    Memory,
}
