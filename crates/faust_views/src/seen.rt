ghost use Rattle.std.specs.Prelude.{◌≡◌, ◌^◌, ◌<◌, length, IfOk};
ghost use Rattle.std.specs.BTreeMap.{get};
ghost use Rattle.faust_record.specs.Runs.{Run};
ghost use Rattle.faust_runs.specs.ForkViews.{view_of};
ghost use Rattle.faust_views.specs.Keys.{key_of, key_order};
ghost use Rattle.faust_views.specs.Noted.{stays_at};
ghost use Rattle.faust_views.specs.Forests.{IsSeen, IsSeenOf, last_end};

use crate::forest::Forest;
use crate::writes::Writes;
use faust_record::RunRecord;
use faust_types::{Names, OpName, OutOfMemory};
use std::alloc::Global;

/// What views are read off: the fork views of a record, and which operations are writes.
#[derive(Drop)]
pub(crate) struct Seen {
    pub forest: Forest,
    pub writes: Writes,
}

/// The end of the last completed operation of a client.
fn last_of(ends: &[(OpName, u32)], i: u8) -> Option<u32>
    ensures { result ≡ last_end ends.now i }
{
    let mut before = ends.len();
    while before > 0 {
        before -= 1;
        let (name, end) = ends[before];
        if name.client == i {
            return Some(end);
        }
    }
    None
}

impl Seen {
    pub(crate) fn of(alloc: Global, rec: &RunRecord) -> Result<Seen, OutOfMemory>
        requires { length rec.now.entries < 2 ^ 27 }
        ensures { IfOk result (λ seen. IsSeenOf rec.now seen) }
    {
        Ok(Seen {
            forest: Forest::of(alloc, rec)?,
            writes: Writes::of(alloc, rec)?,
        })
    }

    /// Whether the operation of a node stays in a view: it is a write, or its own fork view ends at the node.
    fn stays(&self, name: OpName, node: u32) -> bool
        ensures { result ≡ stays_at self.now.writes.kinds.items (get key_order self.now.forest.places (key_of name)) name node }
    {
        if self.writes.is_write(name) {
            return true;
        }
        match self.forest.place(name) {
            Some(end) => end == node,
            None => false,
        }
    }

    /// The view of a client: what stays of the path of its last end.
    pub(crate) fn view_of(&self, alloc: Global, i: u8) -> Result<Names, OutOfMemory>
        requires { IsSeen self.now }
        ensures { (run : Run) → IsSeenOf run self.now → IfOk result (λ names. names ≡ view_of run.config run.entries i) }
    {
        let mut place = last_of(self.forest.ends.as_slice(), i);
        let mut names = Vec::new(alloc);
        while let Some(number) = place {
            let node = self.forest.tree.node(number);
            if self.stays(node.name, number) {
                names.push(node.name)?;
            }
            place = node.under;
        }
        names.reverse();
        Ok(Names::from_vec(names))
    }
}
