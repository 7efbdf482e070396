//! The digests of the inputs that were hashed so far.
ghost use Rattle.std.specs.Prelude.{◌≡◌, IfOk, IfSome};
ghost use Rattle.faust_hash.specs.Chain.{chain_input, input_digest, value_input};

use crate::hashed_input::{Hashed, chain_input, value_input};
use faust_hash::input_digest;
use faust_types::{Bytes, Digest, OutOfMemory};
use std::alloc::Global;
use std::collections::BTreeMap;
use std::marker::Model;

/// The digest of each value that was asked for, by its input, and the link that was put behind a chain last for each
/// client, so that a value is hashed once, and a link once as long as its client has no other one. Clauses see nothing
/// of it: what it answers doesn't depend on what it holds.
#[derive(Drop)]
pub struct Book {
    values: BTreeMap<Vec<u8>, Digest>,
    links: BTreeMap<u8, Hashed>,
}

impl Model for Book {
    ghost use Rattle.faust_audit.specs.Digests.{AreDigests};

    ghost Value = { Unit {0} };

    ghost view = { λ book. tt };

    ghost invariant = { λ book. AreDigests book.values.entries };
}

impl Book {
    /// Nothing was asked for.
    pub fn new(alloc: Global) -> Book {
        Book {
            values: BTreeMap::new(alloc),
            links: BTreeMap::new(alloc),
        }
    }

    /// The input of the digest of a value, with its digest.
    pub fn value(&mut self, alloc: Global, value: &[u8]) -> Result<Hashed, OutOfMemory>
        ensures { IfOk result (λ hashed. hashed ≡ value_input value.now) }
    {
        let input = value_input(alloc, value)?;
        match self.known_value(&input) {
            Some(digest) => Ok(Hashed::new(input, digest)),
            None => self.put_value(input),
        }
    }

    fn known_value(&self, input: &Bytes) -> Option<Digest>
        ensures { IfSome result (λ digest. digest ≡ input_digest input.now) }
    {
        self.values.get(input.as_slice()).copied()
    }

    fn put_value(&mut self, input: Bytes) -> Result<Hashed, OutOfMemory>
        ensures { IfOk result (λ hashed. hashed ≡ input) }
    {
        let digest = input_digest(input.as_slice());
        self.values.insert(input.copy()?.into_vec()?, digest)?;
        Ok(Hashed::new(input, digest))
    }

    /// The input of the digest of a chain with client k behind it, with its digest.
    pub fn link(
        &mut self,
        alloc: Global,
        before: Option<Digest>,
        k: u8,
    ) -> Result<Hashed, OutOfMemory>
        ensures { IfOk result (λ hashed. hashed ≡ chain_input before k) }
    {
        let input = chain_input(alloc, before, k)?;
        match self.known_link(k, &input) {
            Some(digest) => Ok(Hashed::new(input, digest)),
            None => self.put_link(k, input),
        }
    }

    fn known_link(&self, k: u8, input: &Bytes) -> Option<Digest>
        ensures { IfSome result (λ digest. digest ≡ input_digest input.now) }
    {
        match self.links.get(&k) {
            None => None,
            Some(last) => last.digest_of(input),
        }
    }

    fn put_link(&mut self, k: u8, input: Bytes) -> Result<Hashed, OutOfMemory>
        ensures { IfOk result (λ hashed. hashed ≡ input) }
    {
        let last = Hashed::of(input.copy()?);
        let digest = *last.digest();
        self.links.insert(k, last)?;
        Ok(Hashed::new(input, digest))
    }
}
