// The server of a host, on which a request is tried before it is done.
ghost use Rattle.std.specs.Prelude.{◌≡◌, ◌⊎◌, Ok, Err, Some, IfOk, IfSome, MatchResult};
ghost use Rattle.faust_types.specs.Clients.{IsClientCount, IsClient};
ghost use Rattle.faust_types.specs.Ranges.{IsSubmitFor, IsCommitFor};
ghost use Rattle.faust_types.specs.declared.arrival.Closing.TheVariants as closings;
ghost use Rattle.faust_link.specs.Frames.{IsFrame};
ghost use Rattle.faust_server.specs.Rows.{State, client_count, first_state, submitted, committed};
ghost use Rattle.faust_host.specs.Requests.{Deed, IsRequestFor, deed, deed_of_submit, deed_of_commit};
ghost use Rattle.faust_host.specs.Arriving.{state_of};
ghost use Rattle.faust_host.specs.Cells.{deed_or_turn};

use crate::request::{Request, WIRE};
use faust_server::{Server, ServerError};
use faust_types::{Bytes, Closing, Commit, Message, OutOfMemory, Submit};
use faust_wire::encode;
use std::alloc::Global;
use std::marker::Model;

/// The server, and beside it an equal one where there was memory for it. A request is tried on that one, so that the server
/// stands as before until the reply is spelled and the arrival has its place. No request copies a server as long as memory is found.
#[derive(Debug, Drop)]
pub struct Servers {
    alloc: Global,
    server: Server,
    spare: Option<Server>,
}

impl Model for Servers {
    ghost use Rattle.std.specs.Prelude.{◌≡◌, IfSome};
    ghost use Rattle.faust_server.specs.Rows.{State};

    ghost Value = { State };

    ghost view = { λ s. s.server };

    ghost invariant = { λ s. IfSome s.spare (λ spare. spare ≡ s.server) };
}

/// A request that was tried: the server after it, and the spelling of its reply.
#[derive(Debug, Drop)]
pub struct Tried {
    pub server: Server,
    pub reply: Option<Bytes>,
}

impl Servers {
    /// The server of n clients that no message reached.
    pub fn new(alloc: Global, n: u8) -> Result<Servers, OutOfMemory>
        requires { IsClientCount n }
        ensures { IfOk result (λ servers. servers ≡ first_state n) }
    {
        Ok(Servers {
            alloc,
            server: Server::new(alloc, n)?,
            spare: None,
        })
    }

    /// For how many clients the server is.
    pub fn clients(&self) -> u8
        ensures count { result ≡ client_count self.now }
        ensures in_range { IsClientCount result }
    {
        self.server.clients()
    }

    /// What a request of client i would do. `Turn` comes exactly where the server refuses it. The server is as before.
    #[tactic(auto, unfolding(crate::specs::Requests::deed))]
    pub fn tried(&mut self, i: u8, request: &Request) -> Result<Tried, Closing>
        requires client { IsClient (client_count self.old) i }
        requires request { IsRequestFor (client_count self.old) request.now }
        ensures same { self.new ≡ self.old }
        ensures count { IfOk result (λ tried. client_count tried.server ≡ client_count self.old) }
        ensures sendable { IfOk result (λ tried. IfSome tried.reply IsFrame) }
        ensures due { MatchResult result
            (λ tried. deed self.old i request.now ≡ Ok (record { state = tried.server; reply = tried.reply }))
            (λ closing. (closing ≡ closings.Memory) ⊎ (deed_or_turn (deed self.old i request.now) ≡ Err closing)) }
    {
        let Ok(draft) = self.draft() else {
            return Err(Closing::Memory);
        };
        match request {
            Request::Submit(m) => tried_submit(self.alloc, draft, i, m),
            Request::Commit(m) => tried_commit(draft, i, m),
        }
    }

    /// Does a request of client i that was tried, lets the server from before follow, and answers the reply.
    pub fn settle(&mut self, i: u8, request: Request, tried: Tried) -> Option<Bytes>
        requires client { IsClient (client_count self.old) i }
        requires request { IsRequestFor (client_count self.old) request }
        requires tried { deed self.old i request ≡ Ok (record { state = tried.server; reply = tried.reply }) }
        ensures after { self.new ≡ tried.server }
        ensures reply { result ≡ tried.reply }
    {
        let before = std::mem::replace(&mut self.server, tried.server);
        self.spare = followed(before, i, request);
        tried.reply
    }

    /// A server that is equal to this one.
    fn draft(&mut self) -> Result<Server, OutOfMemory>
        ensures equal { IfOk result (λ draft. draft ≡ self.old) }
        ensures same { self.new ≡ self.old }
    {
        match self.spare.take() {
            Some(spare) => Ok(spare),
            None => self.server.copy(),
        }
    }
}

/// Tries a SUBMIT on this server.
fn tried_submit(alloc: Global, server: Server, i: u8, m: &Submit) -> Result<Tried, Closing>
    requires client { IsClient (client_count server) i }
    requires message { IsSubmitFor (client_count server) m.now }
    ensures count { IfOk result (λ tried. client_count tried.server ≡ client_count server) }
    ensures sendable { IfOk result (λ tried. IfSome tried.reply IsFrame) }
    ensures due { MatchResult result
        (λ tried. deed_of_submit (submitted server i m.now) ≡ Ok (record { state = tried.server; reply = tried.reply }))
        (λ closing. (closing ≡ closings.Memory) ⊎ (deed_or_turn (deed_of_submit (submitted server i m.now)) ≡ Err closing)) }
{
    let mut server = server;
    let n = server.clients();
    let Ok(copy) = m.copy() else {
        return Err(Closing::Memory);
    };
    let reply = match server.submit(i, copy) {
        Ok(reply) => reply,
        Err(ServerError::OutOfTurn { expected, got }) => return Err(Closing::Turn {
            expected,
            got,
        }),
        Err(ServerError::OutOfMemory) => return Err(Closing::Memory),
    };
    let Ok(bytes) = encode(alloc, WIRE, n, &Message::Reply(reply)) else {
        return Err(Closing::Memory);
    };
    Ok(Tried {
        server,
        reply: Some(bytes),
    })
}

/// Tries a COMMIT on this server.
fn tried_commit(server: Server, i: u8, m: &Commit) -> Result<Tried, Closing>
    requires client { IsClient (client_count server) i }
    requires message { IsCommitFor (client_count server) m.now }
    ensures count { IfOk result (λ tried. client_count tried.server ≡ client_count server) }
    ensures sendable { IfOk result (λ tried. IfSome tried.reply IsFrame) }
    ensures due { MatchResult result
        (λ tried. deed_of_commit (committed server i m.now) ≡ Ok (record { state = tried.server; reply = tried.reply }))
        (λ closing. (closing ≡ closings.Memory) ⊎ (deed_or_turn (deed_of_commit (committed server i m.now)) ≡ Err closing)) }
{
    let mut server = server;
    let Ok(copy) = m.copy() else {
        return Err(Closing::Memory);
    };
    match server.commit(i, copy) {
        Ok(()) => Ok(Tried {
            server,
            reply: None,
        }),
        Err(refused) => Err(Closing::Turn {
            expected: refused.expected,
            got: refused.got,
        }),
    }
}

/// The server after a request that it accepts, where memory is found.
#[tactic(auto, unfolding(crate::specs::Requests::deed))]
fn followed(server: Server, i: u8, request: Request) -> Option<Server>
    requires client { IsClient (client_count server) i }
    requires request { IsRequestFor (client_count server) request }
    ensures { IfSome result (λ after. state_of (deed server i request) ≡ Some after) }
{
    let mut server = server;
    match request {
        Request::Submit(m) => match server.submit(i, m) {
            Ok(_) => Some(server),
            Err(_) => None,
        },
        Request::Commit(m) => match server.commit(i, m) {
            Ok(()) => Some(server),
            Err(_) => None,
        },
    }
}
