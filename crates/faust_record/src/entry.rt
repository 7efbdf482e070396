ghost use Rattle.std.specs.Prelude.{◌≡◌, is_none};
ghost use Rattle.faust_record.specs.Runs.{arriving};

use crate::given::Given;
use faust_types::Bytes;

/// What comes to a client of a run: its user begins to write a value or to read a register, bytes come as a reply of
/// the server or as a message of another client, or a moment comes. `Arrive` is the server's: this message of the
/// client arrives there.
#[derive(Debug, Drop)]
pub enum Input {
    Write(Bytes),
    Read(u8),
    Reply(Bytes),
    Peer(Bytes),
    Tick(u64),
    Arrive(Bytes),
}

impl Input {
    /// Whether it comes to the client, and is no arrival at the server.
    pub fn is_act(&self) -> bool
        ensures { result ≡ is_none (arriving self.now) }
    {
        match self {
            Input::Arrive(_) => false,
            Input::Write(_) | Input::Read(_) | Input::Reply(_) | Input::Peer(_) | Input::Tick(_) =>
                true,
        }
    }
}

/// One event of a run, with its number, the client that it came to or whose message arrived, and what it gave. The
/// outcome of an arrival is empty.
#[derive(Debug, Drop)]
pub struct Entry {
    pub number: u64,
    pub client: u8,
    pub input: Input,
    pub outcome: Given,
}

impl Entry {
    /// An entry that holds a place for another one. It takes no memory.
    pub(crate) fn blank() -> Entry {
        Entry {
            number: 0,
            client: 0,
            input: Input::Tick(0),
            outcome: Given::nothing(),
        }
    }
}
