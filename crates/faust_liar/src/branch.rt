//! What a branch does with a message.
ghost use Rattle.std.specs.Prelude.{◌≡◌, IfOk, OnErr};
ghost use Rattle.faust_types.specs.Clients.{IsClient};
ghost use Rattle.faust_types.specs.Ranges.{IsSubmitFor, IsCommitFor};
ghost use Rattle.faust_server.specs.Rows.{client_count};
ghost use Rattle.faust_server.specs.States.{IsState};
ghost use Rattle.faust_liar.specs.Branches.{after_commit, answered, handled, turn_set};
ghost use Rattle.faust_liar.specs.InRange.{IsBehind, IsForServer};

use faust_server::{Server, ServerError};
use faust_types::{Commit, Message, OutOfMemory, Reply, Submit};

/// Handles a message of client i, and gives the reply to a SUBMIT. Where memory runs out, the branch is as before.
pub fn handle(server: &mut Server, i: u8, message: &Message) -> Result<Option<Reply>, OutOfMemory>
    requires state { IsState server.old }
    requires client { IsClient (client_count server.old) i }
    requires message { IsForServer (client_count server.old) i message.now }
    ensures ok { IfOk result (λ reply. (record { state = server.new; reply = reply }) ≡ handled server.old i message.now) }
    ensures err { OnErr result (server.new ≡ server.old) }
    ensures count { client_count server.new ≡ client_count server.old }
{
    match message {
        Message::Submit(m) => Ok(Some(answer(server, i, m)?)),
        Message::Commit(m) => {
            settle(server, i, m.copy()?);
            Ok(None)
        }
        Message::Reply(_) | Message::Peer(_) | Message::Hello(_) => Ok(None),
    }
}

/// A COMMIT. The client's turn is set to it first; where it is the client's turn, that changes nothing.
fn settle(server: &mut Server, i: u8, m: Commit)
    requires state { IsState server.old }
    requires client { IsClient (client_count server.old) i }
    requires message { IsCommitFor (client_count server.old) m }
    ensures row { server.new ≡ after_commit server.old i m }
    ensures count { client_count server.new ≡ client_count server.old }
{
    server.retake(i, m.version.at(i), true);
    let _in_turn = server.commit(i, m);
}

/// A SUBMIT. In turn it is the honest server's row. Otherwise the turn is set first: on a copy, since that may take a
/// tuple out, and the reply may find no memory.
fn answer(server: &mut Server, i: u8, m: &Submit) -> Result<Reply, OutOfMemory>
    requires state { IsState server.old }
    requires client { IsClient (client_count server.old) i }
    requires message { IsSubmitFor (client_count server.old) m.now }
    requires behind { IsBehind i m.now m.now.commit }
    ensures ok { IfOk result (λ reply. (record { state = server.new; reply = reply }) ≡ answered server.old i m.now) }
    ensures err { OnErr result (server.new ≡ server.old) }
    ensures count { client_count server.new ≡ client_count server.old }
{
    match server.submit(i, m.copy()?) {
        Ok(reply) => Ok(reply),
        Err(ServerError::OutOfTurn { .. }) => answer_out_of_turn(server, i, m),
        Err(ServerError::OutOfMemory) => Err(OutOfMemory),
    }
}

fn answer_out_of_turn(server: &mut Server, i: u8, m: &Submit) -> Result<Reply, OutOfMemory>
    requires state { IsState server.old }
    requires client { IsClient (client_count server.old) i }
    requires message { IsSubmitFor (client_count server.old) m.now }
    requires behind { IsBehind i m.now m.now.commit }
    ensures ok { IfOk result (λ reply. (record { state = server.new; reply = reply }) ≡ answered server.old i m.now) }
    ensures err { OnErr result (server.new ≡ server.old) }
    ensures count { client_count server.new ≡ client_count server.old }
{
    let mut branch = server.copy()?;
    let m = m.copy()?;
    set_turn(&mut branch, i, &m);
    match branch.submit(i, m) {
        Ok(reply) => {
            *server = branch;
            Ok(reply)
        }
        Err(_) => Err(OutOfMemory),
    }
}

/// Sets the turn of client i to what the SUBMIT needs.
fn set_turn(branch: &mut Server, i: u8, m: &Submit)
    requires client { IsClient (client_count branch.old) i }
    requires message { IsSubmitFor (client_count branch.old) m.now }
    ensures row { branch.new ≡ turn_set branch.old i m.now m.now.commit }
    ensures count { client_count branch.new ≡ client_count branch.old }
{
    match &m.commit {
        None => branch.retake(i, m.t - 1, false),
        Some(commit) => branch.retake(i, commit.version.at(i), true),
    }
}
