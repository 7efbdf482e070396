//! What a record without entries holds for its clients.
ghost use Rattle.std.specs.Prelude.{◌≡◌, replicate, IfOk};
ghost use Rattle.faust_types.specs.Ranges.{IsConfig};
ghost use Rattle.faust_record.specs.Kept.{empty_outbox, first_members};

use crate::outbox::Outbox;
use faust_agent::Agent;
use faust_hash::PreparedKey;
use faust_types::{Config, OutOfMemory};
use std::alloc::Global;

/// The agents of all clients before any event. Their keys have one book.
pub fn first_agents(alloc: Global, config: &Config) -> Result<Vec<Agent>, OutOfMemory>
    requires { IsConfig config.now }
    ensures { IfOk result (λ agents. agents.items ≡ first_members config.now config.now.clients) }
{
    let key = PreparedKey::with_book(alloc, config.key.as_slice());
    let mut agents = Vec::with_capacity(alloc, usize::from(config.clients))?;
    for before in 0..config.clients {
        agents.push(Agent::with_key(alloc, config, before + 1, &key)?)?;
    }
    Ok(agents)
}

/// Outboxes from which nothing was sent.
pub fn first_outboxes(alloc: Global, n: u8) -> Result<Vec<Outbox>, OutOfMemory>
    ensures { IfOk result (λ outboxes. outboxes.items ≡ replicate n empty_outbox) }
{
    let mut outboxes = Vec::with_capacity(alloc, usize::from(n))?;
    for _ in 0..n {
        outboxes.push(Outbox::new(alloc))?;
    }
    Ok(outboxes)
}
