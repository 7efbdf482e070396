//! The inputs that were hashed, in a map by their digests.
ghost use Rattle.std.specs.Prelude.{◌≡◌, ◌++◌, ◌∷◌, [], ℕ, List, OnOk};

use crate::hashed_input::Hashed;
use faust_types::{Bytes, Digest, OutOfMemory, Sequence};
use std::alloc::Global;
use std::collections::HashMap;

/// Two inputs of one digest, in the order in which they were hashed.
#[derive(Debug, Drop)]
pub struct Colliding {
    pub first: Bytes,
    pub second: Bytes,
}

/// The first input of each digest, until two collide: then these two.
#[derive(Drop)]
pub struct InputTable {
    pub firsts: HashMap<Digest, Bytes>,
    pub found: Option<Colliding>,
}

impl InputTable {
    ghost use Rattle.faust_audit.specs.Tables.{HoldsInputs};

    /// No inputs.
    pub fn new(alloc: Global) -> InputTable
        ensures { HoldsInputs result [] }
    {
        InputTable {
            firsts: HashMap::new(alloc),
            found: None,
        }
    }

    /// One more input.
    pub fn add(&mut self, hashed: &Hashed) -> Result<(), OutOfMemory>
        ensures { OnOk result ((all : List (List ℕ)) → HoldsInputs self.old all → HoldsInputs self.new (all ++ hashed.now ∷ [])) }
    {
        if self.found.is_some() {
            return Ok(());
        }
        match self.firsts.get(hashed.digest()) {
            None => {
                let input = hashed.input().copy()?;
                self.firsts.insert(*hashed.digest(), input)?;
            }
            Some(first) => {
                if first.as_slice() != hashed.input().as_slice() {
                    self.found = Some(Colliding {
                        first: first.copy()?,
                        second: hashed.input().copy()?,
                    });
                }
            }
        }
        Ok(())
    }

    /// All of these.
    pub fn add_all(&mut self, inputs: &Sequence<Hashed>) -> Result<(), OutOfMemory>
        ensures { OnOk result ((all : List (List ℕ)) → HoldsInputs self.old all → HoldsInputs self.new (all ++ inputs.now)) }
    {
        for hashed in inputs.as_slice() {
            self.add(hashed)?;
        }
        Ok(())
    }

    /// The first two inputs that collide, if there are such.
    pub fn into_found(self) -> Option<Colliding>
        ensures { result ≡ self.found }
    {
        self.found
    }
}
