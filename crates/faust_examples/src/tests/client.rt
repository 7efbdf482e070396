use super::config;
use faust_agent::Agent;
use faust_types::{Bytes, Notice, OutOfMemory, Outcome};
use std::test::Fail;

/// What carries a message of a client to the server, and the reply back, where one comes.
pub trait Link {
    fn exchange(&mut self, message: &[u8]) -> Result<Option<Bytes>, OutOfMemory>;
}

/// Carries an operation that began over the link, and gives what the client says at its end.
pub fn finish<L: Link>(
    link: &mut L,
    agent: &mut Agent,
    begun: Outcome,
) -> Result<Outcome, OutOfMemory> {
    let Some(submit) = &begun.to_server else {
        return Ok(begun);
    };
    let Some(reply) = link.exchange(submit.as_slice())? else {
        return Ok(begun);
    };
    let outcome = agent.on_reply(reply.as_slice())?;
    if let Some(commit) = &outcome.to_server {
        let _nothing = link.exchange(commit.as_slice())?;
    }
    Ok(outcome)
}

/// A link that answers each SUBMIT with the reply to the very first one.
#[derive(Drop)]
struct Replaying {
    reply: Bytes,
}

impl Link for Replaying {
    fn exchange(&mut self, message: &[u8]) -> Result<Option<Bytes>, OutOfMemory> {
        if message.get(1) == Some(&1) {
            Ok(Some(self.reply.copy()?))
        } else {
            Ok(None)
        }
    }
}

#[test]
fn a_client_completes_a_write_and_then_refuses_a_reply(rt: HostRuntime) -> Result<(), Fail> {
    let alloc = rt.alloc();
    let mut link = Replaying {
        reply: Bytes::from_slice(alloc, &[1, 2, 1, 0, 0, 0, 0, 0])?,
    };
    let mut agent = Agent::new(alloc, &config(alloc)?, 1)?;
    assert!(rt; agent.is_idle());
    let begun = agent.begin_write(b"buy milk")?;
    let first = finish(&mut link, &mut agent, begun)?;
    assert_eq!(rt; first.answer.map(|answer| answer.op.name.t), Some(1));
    assert!(rt; agent.is_idle());
    let begun = agent.begin_write(b"buy bread")?;
    let second = finish(&mut link, &mut agent, begun)?;
    assert!(rt; second.answer.is_none());
    assert_eq!(rt; agent.notice(), Some(Notice { check: 5, place: 0 }));
    assert!(rt; !agent.is_idle());
    Ok(())
}
