ghost use Rattle.std.specs.Prelude.{◌≡◌, ◌+◌, ◌<◌, ◌≤◌, [], length, IfOk, OnOk, vec_len};
ghost use Rattle.faust_views.specs.Noted.{AreNoted, is_noted_write, kind_in, noted};

use crate::reading::entry_at;
use faust_record::{Entry, Input, RunRecord};
use faust_types::{OpName, OutOfMemory, Sequence};
use std::alloc::Global;

/// For each client, by its number, whether each operation that it began is a write.
#[derive(Drop)]
pub(crate) struct Writes {
    pub kinds: Vec<Sequence<bool>>,
}

/// Whether the operation that begins in an entry is a write, if one begins.
fn kind_of(entry: &Entry) -> Option<bool>
    ensures { result ≡ kind_in entry.now }
{
    match &entry.input {
        Input::Write(_) => Some(true),
        Input::Read(_) => Some(false),
        Input::Tick(_) => entry.outcome.began().map(|_| false),
        Input::Reply(_) | Input::Peer(_) | Input::Arrive(_) => None,
    }
}

impl Writes {
    /// Of n clients without operations.
    fn new(alloc: Global, n: u8) -> Result<Writes, OutOfMemory>
        ensures noted { IfOk result (λ writes. AreNoted writes.kinds.items []) }
        ensures count { IfOk result (λ writes. vec_len writes.kinds ≡ n + 1) }
    {
        let count = usize::from(n) + 1;
        let mut kinds = Vec::with_capacity(alloc, count)?;
        for _client in 0..count {
            kinds.push(Sequence::new(alloc))?;
        }
        Ok(Writes { kinds })
    }

    /// Of the operations that began in a record.
    pub(crate) fn of(alloc: Global, rec: &RunRecord) -> Result<Writes, OutOfMemory>
        ensures { IfOk result (λ writes. AreNoted writes.kinds.items rec.now.entries) }
    {
        let mut writes = Writes::new(alloc, rec.config().clients)?;
        for q in 0..rec.len() {
            writes.note(entry_at(rec, q))?;
        }
        Ok(writes)
    }

    /// Takes one more entry.
    fn note(&mut self, entry: &Entry) -> Result<(), OutOfMemory>
        requires { entry.now.client < vec_len self.old.kinds }
        ensures noted { OnOk result (self.new.kinds.items ≡ noted self.old.kinds.items entry.now) }
        ensures count { vec_len self.new.kinds ≡ vec_len self.old.kinds }
    {
        if let Some(kind) = kind_of(entry) {
            let own = &mut self.kinds[usize::from(entry.client)];
            own.push(kind)?;
        }
        Ok(())
    }

    /// Whether an operation is a write.
    pub(crate) fn is_write(&self, name: OpName) -> bool
        ensures { result ≡ is_noted_write self.now.kinds.items name }
    {
        let Some(own) = self.kinds.as_slice().get(usize::from(name.client)) else {
            return false;
        };
        let before = name.t.saturating_sub(1);
        own.as_slice()
            .get(before as usize)
            .copied()
            .unwrap_or(false)
    }
}
