ghost use Rattle.std.specs.Prelude.{◌≡◌, ◌≤◌, length};
ghost use Rattle.faust_types.specs.Clients.{IsClient};
ghost use Rattle.faust_types.specs.Ranges.{IsConfig};
ghost use Rattle.faust_server.specs.Rows.{client_count};

use super::client::{Link, finish};
use super::config;
use faust_agent::Agent;
use faust_server::{Server, ServerError};
use faust_types::{Answer, Bytes, Config, Message, OutOfMemory};
use faust_wire::{WireError, decode, encode};
use std::alloc::Global;
use std::test::Fail;

/// What a server does with the bytes of a client: it replies to a SUBMIT, and takes a COMMIT. Other bytes are strange.
#[derive(Debug, Drop)]
enum Handled {
    Replied(Bytes),
    Taken,
    Strange,
}

/// Does what the bytes of client i ask, under wire 1. A message out of turn is refused, and leaves the server as before.
fn handle(alloc: Global, server: &mut Server, i: u8, bytes: &[u8]) -> Result<Handled, ServerError>
    requires { IsClient (client_count server.old) i }
{
    let n = server.clients();
    match decode(alloc, 1, n, bytes) {
        Ok(Message::Submit(submit)) => {
            let reply = server.submit(i, submit)?;
            let bytes = encode(alloc, 1, n, &Message::Reply(reply))?;
            Ok(Handled::Replied(bytes))
        }
        Ok(Message::Commit(commit)) => {
            server.commit(i, commit)?;
            Ok(Handled::Taken)
        }
        Ok(Message::Reply(_)) | Ok(Message::Peer(_)) | Ok(Message::Hello(_)) => Ok(
            Handled::Strange,
        ),
        Err(WireError::Malformed) => Ok(Handled::Strange),
        Err(WireError::OutOfMemory) => Err(ServerError::OutOfMemory),
    }
}

/// A link to a server in the same memory, for the messages of one client at a time.
#[derive(Drop)]
struct Near {
    alloc: Global,
    server: Server,
    client: u8,
}

impl Link for Near {
    fn exchange(&mut self, message: &[u8]) -> Result<Option<Bytes>, OutOfMemory> {
        if self.client < 1 || self.client > self.server.clients() {
            return Ok(None);
        }
        match handle(self.alloc, &mut self.server, self.client, message) {
            Ok(Handled::Replied(reply)) => Ok(Some(reply)),
            Ok(Handled::Taken) | Ok(Handled::Strange) => Ok(None),
            Err(ServerError::OutOfTurn { .. }) => Ok(None),
            Err(ServerError::OutOfMemory) => Err(OutOfMemory),
        }
    }
}

/// Client 1 of two writes a value.
fn write(config: &Config, link: &mut Near, value: &[u8]) -> Result<(), OutOfMemory>
    requires config { IsConfig config.now }
    requires two { config.now.clients ≡ 2 }
    requires value { length value.now ≤ 4096 }
{
    link.client = 1;
    let mut agent = Agent::new(link.alloc, config, 1)?;
    if agent.is_idle() {
        let begun = agent.begin_write(value)?;
        let _written = finish(link, &mut agent, begun)?;
    }
    Ok(())
}

/// Client 2 of two reads the register of client 1.
fn read(config: &Config, link: &mut Near) -> Result<Option<Answer>, OutOfMemory>
    requires config { IsConfig config.now }
    requires two { config.now.clients ≡ 2 }
{
    link.client = 2;
    let mut agent = Agent::new(link.alloc, config, 2)?;
    if !agent.is_idle() {
        return Ok(None);
    }
    let begun = agent.begin_read(1)?;
    Ok(finish(link, &mut agent, begun)?.answer)
}

/// A server for two clients that no message reached.
fn near_server(alloc: Global) -> Result<Near, OutOfMemory> {
    Ok(Near {
        alloc,
        server: Server::new(alloc, 2)?,
        client: 1,
    })
}

#[test]
fn a_client_reads_what_another_wrote(rt: HostRuntime) -> Result<(), Fail> {
    let config = config(rt.alloc())?;
    let mut link = near_server(rt.alloc())?;
    write(&config, &mut link, b"buy milk")?;
    let answer = read(&config, &mut link)?.ok_or("no answer")?;
    assert_eq!(rt; answer.asof, 1);
    let value = answer.value.ok_or("no value")?;
    assert!(rt; value.as_slice() == b"buy milk".as_slice());
    Ok(())
}
