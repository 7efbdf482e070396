ghost use Rattle.std.specs.Prelude.{◌≡◌, ◌-◌, ◌≤◌, [], option_copied, slice_get, IfOk, OnOk};
ghost use Rattle.faust_types.specs.Clients.{IsClient};
ghost use Rattle.faust_record.specs.Runs.{IsRun};
ghost use Rattle.faust_sim.specs.Kept.{letter_at};

use crate::letters::{Letters, Place};
use faust_record::RunRecord;
use faust_types::{Bytes, OutOfMemory};
use std::alloc::Global;
use std::marker::Model;

/// What the clients of a run sent to one another, found by sender, receiver and number without a search.
#[derive(Drop)]
pub struct Mail {
    letters: Vec<Letters>,
}

impl Model for Mail {
    ghost use Rattle.std.specs.Prelude.{List};
    ghost use Rattle.faust_sim.specs.declared.letters.Place.{Place};

    ghost Value = { List (List (List Place)) };

    ghost view = { λ s. s.letters.items };
}

impl Mail {
    ghost use Rattle.faust_sim.specs.Kept.{IsMailBefore, IsMailOf};
    ghost use Rattle.faust_sim.specs.Mail.{mailed};

    /// Nothing was sent by any of n clients.
    pub fn new(alloc: Global, n: u8) -> Result<Mail, OutOfMemory>
        ensures { IfOk result (λ mail. IsMailOf n mail []) }
    {
        let mut letters = Vec::with_capacity(alloc, usize::from(n))?;
        for _ in 0..n {
            letters.push(Letters::new(alloc, n)?)?;
        }
        Ok(Mail { letters })
    }

    /// Takes what the last entry of a run sent.
    pub fn note(&mut self, run: &RunRecord) -> Result<(), OutOfMemory>
        requires { IsMailBefore run.now.config.clients self.old run.now.entries }
        ensures run { IsRun run.now.config run.now.entries }
        ensures mail { OnOk result (IsMailOf run.now.config.clients self.new run.now.entries) }
    {
        let _config = run.config();
        let number = run.len() - 1;
        let Some(entry) = run.entry(number) else {
            return Ok(());
        };
        let sender = usize::from(entry.client) - 1;
        self.letters[sender].note(number, entry.outcome.to_peers())
    }

    /// The k-th message that client i sent to client j, from 1 on: none exactly where there is none.
    pub fn letter<'a>(&self, run: &'a RunRecord, i: u8, j: u8, k: usize) -> Option<&'a Bytes>
        requires mail { IsMailOf run.now.config.clients self.now run.now.entries }
        requires sender { IsClient run.now.config.clients i }
        requires receiver { IsClient run.now.config.clients j }
        requires counted { 1 ≤ k }
        ensures { option_copied result ≡ slice_get (mailed i j run.now.entries) (k - 1) }
    {
        match self.letters[usize::from(i) - 1].place(j, k) {
            Some(place) => letter_at(run, place),
            None => None,
        }
    }
}

// The message at a place.
fn letter_at(run: &RunRecord, place: Place) -> Option<&Bytes>
    ensures { option_copied result ≡ letter_at run.now.entries place }
{
    let entry = run.entry(place.entry)?;
    let post = entry.outcome.to_peers().get(place.index)?;
    Some(&post.bytes)
}
