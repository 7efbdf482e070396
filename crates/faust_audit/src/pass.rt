//! One pass over the entries of a run.
ghost use Rattle.std.specs.Prelude.{◌≡◌, ◌++◌, ◌∷◌, [], List, length, replicate, IfOk};
ghost use Rattle.faust_types.specs.Clients.{IsClient, IsClientCount};
ghost use Rattle.faust_types.specs.Ranges.{IsConfig};
ghost use Rattle.faust_record.specs.Runs.{IsRun};
ghost use Rattle.faust_record.specs.declared.entry.Entry.{Entry};
ghost use Rattle.faust_audit.specs.Watching.{IsWatchedFor, first_watched, watched_in};

use crate::checked::checked_of;
use crate::collected::Collected;
use crate::reading::reply_of;
use crate::watched::Watched;
use faust_hash::PreparedKey;
use faust_record::Entry;
use faust_types::{Bytes, Config, OutOfMemory};
use std::alloc::Global;

/// What was read off the entries so far: the bodies and inputs, and what is kept of each client.
#[derive(Drop)]
pub struct Pass {
    pub collected: Collected,
    pub watched: Vec<Watched>,
}

impl Pass {
    ghost use Rattle.faust_audit.specs.Passing.{IsPassAt, Steps};

    /// The pass before the first entry of a run with this config.
    pub fn new(alloc: Global, config: &Config) -> Result<Pass, OutOfMemory>
        requires { IsConfig config.now }
        ensures { IfOk result (λ pass. IsPassAt config.now pass []) }
    {
        Ok(Pass {
            collected: Collected::new(alloc),
            watched: all_first(alloc, config.clients)?,
        })
    }

    /// Takes one more entry: the body of its first forged pair, if there is one.
    pub fn step(
        &mut self,
        alloc: Global,
        config: &Config,
        key: &PreparedKey,
        entry: &Entry,
    ) -> Result<Option<Bytes>, OutOfMemory>
        requires config { IsConfig config.now }
        requires key { key.now ≡ config.now.key }
        requires client { IsClient config.now.clients entry.now.client }
        requires counted { length self.old.watched.items ≡ config.now.clients }
        requires watched { IsWatchedFor config.now.clients entry.now.client (watched_in self.old.watched.items entry.now.client) }
        ensures { (before rest : List Entry) → IsRun config.now (before ++ entry.now ∷ rest) → IsPassAt config.now self.old before →
            Steps result config.now before entry.now self.new }
    {
        let reply = reply_of(alloc, config, &entry.input)?;
        let checked = checked_of(
            alloc,
            &mut self.collected.book,
            config,
            &entry.input,
            &reply,
        )?;
        if let Some(body) = self.collected.first_forged(key, &checked)? {
            return Ok(Some(body));
        }
        let watched = &mut self.watched[usize::from(entry.client) - 1];
        self.collected.note(alloc, key, watched, entry, &reply)?;
        Ok(None)
    }
}

fn all_first(alloc: Global, n: u8) -> Result<Vec<Watched>, OutOfMemory>
    requires { IsClientCount n }
    ensures { IfOk result (λ watched. watched.items ≡ replicate n (first_watched n)) }
{
    let mut watched = Vec::with_capacity(alloc, usize::from(n))?;
    for _ in 0..n {
        watched.push(Watched::new(alloc, n)?)?;
    }
    Ok(watched)
}
