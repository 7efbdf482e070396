ghost use Rattle.std.specs.Prelude.{◌≡◌, IsTrue, IfOk, option_copied};
ghost use Rattle.faust_types.specs.Outcomes.{nothing};

use faust_types::{Answer, Bytes, Cut, Notice, Operation, OutOfMemory, Outcome, Post};
use std::alloc::Global;
use std::marker::Model;

/// What an entry gave, seen as its outcome. One that gave nothing takes no memory.
#[derive(Debug, Drop)]
pub struct Given {
    held: Option<Box<Outcome>>,
}

impl Model for Given {
    ghost use Rattle.faust_types.specs.declared.outcome.Outcome.{Outcome};
    ghost use Rattle.faust_record.specs.Given.{outcome_of};

    ghost Value = { Outcome };

    ghost view = { λ given. outcome_of given.held };
}

/// Room for an outcome, made before there is one.
#[derive(Drop)]
pub(crate) struct Room {
    place: Box<Outcome>,
}

impl Room {
    pub(crate) fn new(alloc: Global) -> Result<Room, OutOfMemory> {
        Ok(Room {
            place: Box::new(alloc, Outcome::nothing(alloc))?,
        })
    }

    /// The outcome in this room, which is given back where nothing was given.
    pub(crate) fn filled(self, outcome: Outcome) -> Given
        ensures { result ≡ outcome }
    {
        if is_nothing(&outcome) {
            return Given::nothing();
        }
        let mut place = self.place;
        *place = outcome;
        Given { held: Some(place) }
    }
}

fn is_nothing(outcome: &Outcome) -> bool
    ensures { IsTrue result → outcome.now ≡ nothing }
{
    outcome.to_server.is_none()
        && outcome.to_peers.is_empty()
        && outcome.answer.is_none()
        && outcome.cut.is_none()
        && outcome.probed.is_empty()
        && outcome.began.is_none()
        && outcome.notice.is_none()
}

impl Given {
    /// Nothing.
    pub(crate) fn nothing() -> Given
        ensures { result ≡ nothing }
    {
        Given { held: None }
    }

    /// The message to the server.
    pub fn to_server(&self) -> Option<&Bytes>
        ensures { option_copied result ≡ self.now.to_server }
    {
        match &self.held {
            None => None,
            Some(outcome) => outcome.to_server.as_ref(),
        }
    }

    /// The messages to other clients, in the order sent.
    pub fn to_peers(&self) -> &[Post]
        ensures { result.now ≡ self.now.to_peers }
    {
        match &self.held {
            None => &[],
            Some(outcome) => outcome.to_peers.as_slice(),
        }
    }

    /// The answer to the user of the client.
    pub fn answer(&self) -> Option<&Answer>
        ensures { option_copied result ≡ self.now.answer }
    {
        match &self.held {
            None => None,
            Some(outcome) => outcome.answer.as_ref(),
        }
    }

    /// The cut where it changed.
    pub fn cut(&self) -> Option<&Cut>
        ensures { option_copied result ≡ self.now.cut }
    {
        match &self.held {
            None => None,
            Some(outcome) => outcome.cut.as_ref(),
        }
    }

    /// The clients that were probed.
    pub fn probed(&self) -> &[u8]
        ensures { result.now ≡ self.now.probed }
    {
        match &self.held {
            None => &[],
            Some(outcome) => outcome.probed.as_slice(),
        }
    }

    /// The dummy read that a tick began.
    pub fn began(&self) -> Option<Operation>
        ensures { result ≡ self.now.began }
    {
        match &self.held {
            None => None,
            Some(outcome) => outcome.began,
        }
    }

    /// The notice of a broken check.
    pub fn notice(&self) -> Option<Notice>
        ensures { result ≡ self.now.notice }
    {
        match &self.held {
            None => None,
            Some(outcome) => outcome.notice,
        }
    }
}
