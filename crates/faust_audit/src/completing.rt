ghost use Rattle.std.specs.Prelude.{◌≡◌, ◌<◌, [], length, option_copied, IfOk, OnOk, replicate};
ghost use Rattle.faust_types.specs.Clients.{IsClient};
ghost use Rattle.faust_audit.specs.Completing.{AreCompleted, completed_as, completed_with, has_name, has_number, with_number};

use faust_record::RunRecord;
use faust_types::{Answer, OpName, OutOfMemory};
use std::alloc::Global;
use std::collections::BTreeSet;
use std::marker::Model;

/// Numbers of operations of one client.
#[derive(Drop)]
struct Numbers {
    numbers: BTreeSet<u64>,
}

impl Model for Numbers {
    ghost use Rattle.std.specs.Prelude.{ℕ, List};

    ghost Value = { List ℕ };

    ghost view = { λ n. n.numbers.keys };
}

impl Numbers {
    fn new(alloc: Global) -> Numbers
        ensures { result ≡ [] }
    {
        Numbers {
            numbers: BTreeSet::new(alloc),
        }
    }

    fn put(&mut self, t: u64) -> Result<(), OutOfMemory>
        ensures { OnOk result (self.new ≡ with_number self.old t) }
    {
        self.numbers.insert(t)?;
        Ok(())
    }

    fn has(&self, t: u64) -> bool
        ensures { result ≡ has_number self.now t }
    {
        self.numbers.contains(&t)
    }
}

/// The operations that completed in a run.
#[derive(Drop)]
pub struct Completed {
    numbers: Vec<Numbers>,
}

impl Model for Completed {
    ghost use Rattle.std.specs.Prelude.{ℕ, List};

    ghost Value = { List (List ℕ) };

    ghost view = { λ c. c.numbers.items };
}

impl Completed {
    /// Those of the entries of a record.
    pub fn of(alloc: Global, rec: &RunRecord) -> Result<Completed, OutOfMemory>
        ensures { IfOk result (AreCompleted rec.now.config.clients rec.now.entries) }
    {
        let mut completed = Completed {
            numbers: no_numbers(alloc, rec.config().clients)?,
        };
        for q in 0..rec.len() {
            let entry = rec.entry_at(q);
            completed.note(entry.client, entry.outcome.answer())?;
        }
        Ok(completed)
    }

    /// Whether the operation of this name is among them.
    pub fn has(&self, name: OpName) -> bool
        requires { IsClient (length self.now) name.client }
        ensures { result ≡ has_name self.now name }
    {
        self.numbers[usize::from(name.client) - 1].has(name.t)
    }

    /// Client i was given this answer, if any.
    fn note(&mut self, i: u8, answer: Option<&Answer>) -> Result<(), OutOfMemory>
        requires { IsClient (length self.old) i }
        ensures { OnOk result (self.new ≡ completed_with self.old i (option_copied answer.entry)) }
    {
        match answer {
            None => Ok(()),
            Some(answer) => self.put(i, answer.op.name),
        }
    }

    fn put(&mut self, i: u8, name: OpName) -> Result<(), OutOfMemory>
        requires { IsClient (length self.old) i }
        ensures { OnOk result (self.new ≡ completed_as self.old i name) }
    {
        if name.client != i {
            return Ok(());
        }
        self.numbers[usize::from(i) - 1].put(name.t)
    }
}

fn no_numbers(alloc: Global, n: u8) -> Result<Vec<Numbers>, OutOfMemory>
    ensures { IfOk result (λ list. list.items ≡ replicate n []) }
{
    let mut numbers = Vec::with_capacity(alloc, usize::from(n))?;
    for _ in 0..n {
        numbers.push(Numbers::new(alloc))?;
    }
    Ok(numbers)
}
