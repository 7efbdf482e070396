use crate::edit::Edit;
use faust_types::Bytes;

/// An event of a script. Clients are numbered from 1, branches from 0 to 7; `k` counts messages or replies from 1 to
/// 20,000; a moment is at most 2^40 - 1.
#[derive(Debug, Drop)]
pub enum Event {
    /// The client's user begins a write.
    Write { client: u8, value: Bytes },
    /// The client's user begins a read of a register.
    Read { client: u8, register: u8 },
    /// The next message that the client sent to the server is handled.
    Arrive { client: u8 },
    /// The next reply in the client's queue is handed to it.
    Reply { client: u8 },
    /// A moment is handed to the client.
    Tick { client: u8, moment: u64 },
    /// The k-th message from the sender to the receiver is handed over.
    Peer { sender: u8, receiver: u8, k: usize },
    /// Bytes are handed to the receiver as a message of a client.
    Post { receiver: u8, bytes: Bytes },
    /// Branch `to` becomes a copy of branch `from`.
    Branch { from: usize, to: usize },
    /// The client's messages are handled by branch `to` from then on.
    Route { client: u8, to: usize },
    /// The client's k-th message that arrived is handled by branch `to` as well.
    Echo { client: u8, k: usize, to: usize },
    /// The k-th reply that was put into the client's queue is handed to it again.
    Again { client: u8, k: usize },
    /// The next reply in the client's queue is edited and handed to it.
    Edited { client: u8, edit: Edit },
    /// The same, and the tag over the edited part is made anew.
    Forged { client: u8, edit: Edit },
    /// Bytes are handed to the client as a reply.
    Raw { client: u8, bytes: Bytes },
}
