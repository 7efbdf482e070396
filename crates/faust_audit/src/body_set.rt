//! The bodies that were made, in a set.
ghost use Rattle.std.specs.Prelude.{◌≡◌, ◌++◌, ◌∷◌, [], ℕ, List, OnOk};
ghost use Rattle.faust_premises.specs.Premises.{is_among};

use crate::answers::Bodies;
use faust_types::{Bytes, OutOfMemory};
use std::alloc::Global;
use std::collections::HashSet;

/// Bodies that are looked up.
#[derive(Drop)]
pub struct BodySet {
    bodies: HashSet<Vec<u8>>,
}

impl BodySet {
    ghost use Rattle.faust_audit.specs.Tables.{HoldsBodies};

    /// None.
    pub fn new(alloc: Global) -> BodySet
        ensures { HoldsBodies result [] }
    {
        BodySet {
            bodies: HashSet::new(alloc),
        }
    }

    /// Whether the body is one of them.
    pub fn has(&self, body: &[u8]) -> bool
        ensures { (made : List (List ℕ)) → HoldsBodies self.now made → result ≡ is_among made body.now }
    {
        self.bodies.contains(body)
    }

    /// One more.
    pub fn add(&mut self, body: Bytes) -> Result<(), OutOfMemory>
        ensures { OnOk result ((made : List (List ℕ)) → HoldsBodies self.old made → HoldsBodies self.new (made ++ body ∷ [])) }
    {
        self.bodies.insert(body.into_vec()?)?;
        Ok(())
    }

    /// All of these.
    pub fn add_all(&mut self, bodies: Bodies) -> Result<(), OutOfMemory>
        ensures { OnOk result ((made : List (List ℕ)) → HoldsBodies self.old made → HoldsBodies self.new (made ++ bodies)) }
    {
        for body in bodies.into_vec() {
            self.add(body)?;
        }
        Ok(())
    }
}
