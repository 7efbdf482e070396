//! The bodies that were made and the inputs that were hashed in the entries so far.
ghost use Rattle.std.specs.Prelude.{◌≡◌, ◌++◌, [], ℕ, List, IfOk, IfSome, OnOk};
ghost use Rattle.faust_types.specs.Clients.{IsClient};
ghost use Rattle.faust_types.specs.Versions.{clients_of};
ghost use Rattle.faust_premises.specs.Premises.{forged_among};
ghost use Rattle.faust_audit.specs.Watching.{IsCameFor, IsWatchedFor, bodies_seen, hashed_breaking, seen_by, watched_after};
ghost use Rattle.faust_audit.specs.Tables.{HoldsBodies, HoldsInputs};

use crate::body_set::BodySet;
use crate::book::Book;
use crate::breaking::hashed_at_break;
use crate::checked::Checked;
use crate::input_table::{Colliding, InputTable};
use crate::making::bodies_made;
use crate::watched::Watched;
use faust_hash::{PreparedKey, same};
use faust_record::Entry;
use faust_types::{Bytes, OutOfMemory, Reply, Sequence};
use std::alloc::Global;

/// Bodies and inputs that are looked up, and the digests of inputs.
#[derive(Drop)]
pub struct Collected {
    pub made: BodySet,
    pub inputs: InputTable,
    pub book: Book,
}

impl Collected {
    /// None.
    pub fn new(alloc: Global) -> Collected
        ensures made { HoldsBodies result.made [] }
        ensures inputs { HoldsInputs result.inputs [] }
    {
        Collected {
            made: BodySet::new(alloc),
            inputs: InputTable::new(alloc),
            book: Book::new(alloc),
        }
    }

    /// The body of the first pair whose tag is right and whose body wasn't made. A body is looked up first, so that
    /// where all were made no tag is computed.
    pub fn first_forged(
        &self,
        key: &PreparedKey,
        pairs: &Sequence<Checked>,
    ) -> Result<Option<Bytes>, OutOfMemory>
        ensures { (made : List (List ℕ)) → HoldsBodies self.now.made made →
            IfOk result (λ body. body ≡ forged_among key.now made pairs.now) }
    {
        for pair in pairs.as_slice() {
            let body = pair.body();
            if !self.made.has(body.as_slice()) && same(pair.tag(), &key.tag(body.as_slice())) {
                return Ok(Some(body.copy()?));
            }
        }
        Ok(None)
    }

    /// Takes what an entry makes and hashes, with which this REPLY comes or none, and keeps what it changed.
    pub fn note(
        &mut self,
        alloc: Global,
        key: &PreparedKey,
        watched: &mut Watched,
        entry: &Entry,
        reply: &Option<Reply>,
    ) -> Result<(), OutOfMemory>
        requires client { IsClient (clients_of watched.old.own) entry.now.client }
        requires watched { IsWatchedFor (clients_of watched.old.own) entry.now.client watched.old }
        requires reply { IfSome reply.now (IsCameFor (clients_of watched.old.own)) }
        ensures watched { OnOk result (let me = entry.now.client in
            watched.new ≡ watched_after watched.old (seen_by me watched.old entry.now.input entry.now.outcome reply.now).moved) }
        ensures made { OnOk result ((made : List (List ℕ)) → HoldsBodies self.old.made made → let me = entry.now.client in
            HoldsBodies self.new.made (made ++ bodies_seen me watched.old (seen_by me watched.old entry.now.input entry.now.outcome reply.now).moved entry.now.outcome)) }
        ensures inputs { OnOk result ((all : List (List ℕ)) → HoldsInputs self.old.inputs all → let me = entry.now.client in
            HoldsInputs self.new.inputs ((all ++ (seen_by me watched.old entry.now.input entry.now.outcome reply.now).hashed)
            ++ hashed_breaking key.now me watched.old reply.now entry.now.outcome.notice)) }
    {
        let me = entry.client;
        let seen = watched.see(alloc, &mut self.book, me, entry, reply)?;
        let bodies = bodies_made(alloc, me, watched, &seen.moved, &entry.outcome)?;
        let broken = hashed_at_break(alloc, key, me, watched, reply, entry.outcome.notice())?;
        self.made.add_all(bodies)?;
        self.inputs.add_all(&seen.hashed)?;
        self.inputs.add_all(&broken)?;
        watched.go_on(seen.moved);
        Ok(())
    }

    /// The first two inputs that collide, if there are such.
    pub fn into_found(self) -> Option<Colliding>
        ensures { result ≡ self.inputs.found }
    {
        self.inputs.into_found()
    }
}
