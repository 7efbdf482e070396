ghost use Rattle.std.specs.Prelude.{◌≡◌, ◌==◌, ◌<◌, [], ◌∷◌, ◌++◌, List, length, position, IfOk, IfSome, OnOk, OnErr};
ghost use Rattle.faust_types.specs.declared.message.Tuple.{Tuple};
ghost use Rattle.faust_types.specs.Messages.{tuples_by};
ghost use Rattle.faust_server.specs.Rows.{without, behind};

use faust_types::{OutOfMemory, Tuple, Tuples};
use std::alloc::Global;
use std::marker::Model;

/// The submitted operations that no committed version stands for, in the order in which they came.
#[derive(Debug, Drop)]
pub struct Pending {
    tuples: Vec<Tuple>,
}

impl Model for Pending {
    ghost use Rattle.std.specs.Prelude.{List};
    ghost use Rattle.faust_types.specs.declared.message.Tuple.{Tuple};

    ghost Value = { List Tuple };

    ghost view = { λ p. p.tuples.items };
}

impl Pending {
    /// No operation. It takes no memory.
    pub fn new(alloc: Global) -> Pending
        ensures { result ≡ [] }
    {
        Pending {
            tuples: Vec::new(alloc),
        }
    }

    /// Puts an operation at the end.
    pub fn push(&mut self, tuple: Tuple) -> Result<(), OutOfMemory>
        ensures ok { OnOk result (self.new ≡ self.old ++ tuple ∷ []) }
        ensures err { OnErr result (self.new ≡ self.old) }
    {
        self.tuples.push(tuple)?;
        Ok(())
    }

    /// Takes out the tuple of client i and all before it, where there is one.
    pub fn leave_through(&mut self, i: u8)
        ensures value { self.new ≡ behind i self.old }
        ensures found { (before rest : List Tuple) (tuple : Tuple) → self.old ≡ before ++ tuple ∷ rest → tuples_by i before ≡ 0
            → tuple.client ≡ i → self.new ≡ rest }
        ensures absent { tuples_by i self.old ≡ 0 → self.new ≡ self.old }
    {
        if let Some(place) = place_of(&self.tuples, i) {
            let rest = self.tuples.len() - place - 1;
            self.tuples.rotate_left(place + 1);
            self.tuples.truncate(rest);
        }
    }

    /// Takes out the tuple of client i, where there is one.
    pub fn leave(&mut self, i: u8)
        ensures value { self.new ≡ without i self.old }
        ensures absent { tuples_by i self.old ≡ 0 → self.new ≡ self.old }
    {
        self.tuples.retain(|tuple| tuple.client != i);
    }

    /// The operations, for a reply.
    pub fn to_tuples(&self) -> Result<Tuples, OutOfMemory>
        ensures { IfOk result (λ tuples. tuples ≡ self.now) }
    {
        Tuples::from_slice(*self.tuples.allocator(), &self.tuples)
    }

    /// An equal list of its own.
    pub fn copy(&self) -> Result<Pending, OutOfMemory>
        ensures { IfOk result (λ copy. copy ≡ self.now) }
    {
        Ok(Pending {
            tuples: Vec::from_slice(*self.tuples.allocator(), &self.tuples)?,
        })
    }
}

/// Where the first tuple of client i stands.
fn place_of(tuples: &[Tuple], i: u8) -> Option<usize>
    ensures value { result ≡ position (λ (tuple : Tuple). tuple.client == i) tuples.now }
    ensures within { IfSome result (λ place. place < length tuples.now) }
{
    tuples.iter().position(|tuple| tuple.client == i)
}
