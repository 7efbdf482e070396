// How a run went, as its links and cells tell it.
ghost use Rattle.std.specs.Prelude.{◌≡◌};
ghost use Rattle.faust_cluster.specs.Ending.{health_at, health_of, health_of_user, worse};

use faust_node::NodeError;
use faust_types::Closing;

/// How a run went so far: the later the worse.
#[derive(Clone, Copy, Debug, PartialEq, Eq)]
pub enum Health {
    /// No link failed, and there was memory.
    Sound,
    /// A link failed.
    LinkFailed,
    /// There was no memory for something.
    Starved,
}

impl Health {
    /// What the cause that stopped a loop says.
    pub fn of(cause: Closing) -> Health
        ensures { result ≡ health_of cause }
    {
        match cause {
            Closing::Link => Health::LinkFailed,
            Closing::Memory => Health::Starved,
            Closing::Asked
            | Closing::Failed(_)
            | Closing::Ended
            | Closing::Malformed
            | Closing::Named(_)
            | Closing::Turn { .. }
            | Closing::Full => Health::Sound,
        }
    }

    /// The same, where a loop stopped.
    pub fn at(stopped: Option<Closing>) -> Health
        ensures { result ≡ health_at stopped }
    {
        match stopped {
            Some(cause) => Health::of(cause),
            None => Health::Sound,
        }
    }

    /// What a user's error says: only want of memory counts, as the causes of its cell come with its loops.
    pub fn of_user(stopped: Option<NodeError>) -> Health
        ensures { result ≡ health_of_user stopped }
    {
        match stopped {
            Some(NodeError::OutOfMemory) => Health::Starved,
            _ => Health::Sound,
        }
    }

    /// The worse of two.
    pub fn worse(self, other: Health) -> Health
        ensures { result ≡ worse self other }
    {
        match (self, other) {
            (Health::Starved, _) | (_, Health::Starved) => Health::Starved,
            (Health::LinkFailed, _) | (_, Health::LinkFailed) => Health::LinkFailed,
            (Health::Sound, Health::Sound) => Health::Sound,
        }
    }
}
