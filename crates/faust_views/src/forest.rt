ghost use Rattle.std.specs.Prelude.{◌≡◌, ℕ, ◌+◌, ◌*◌, ◌^◌, ◌<◌, ◌≤◌, [], ◌∷◌, ◌++◌, List, length, IfOk, OnOk};
ghost use Rattle.std.specs.BTreeMap.{get};
ghost use Rattle.faust_types.specs.Ranges.{IsConfig};
ghost use Rattle.faust_runs.specs.ForkViews.{ForkView, fork_views, view_by, viewed_in};
ghost use Rattle.faust_views.specs.Keys.{key_of, key_order};
ghost use Rattle.faust_views.specs.Grown.{IsReply, base_at};
ghost use Rattle.faust_views.specs.Forests.{HasRoom, IsForest};

use crate::ends::Ends;
use crate::key::Key;
use crate::pending::add_tuples;
use crate::reading::{entry_at, read_reply};
use faust_record::{Entry, Input, RunRecord};
use faust_tree::Tree;
use faust_types::{Config, OpName, OutOfMemory, Reply};
use std::alloc::Global;
use std::collections::BTreeMap;

/// The fork views of the entries read so far: a tree of them, the end of each in the order of completion, and a map from
/// the name of an operation to the node at which its fork view ends.
#[derive(Drop)]
pub(crate) struct Forest {
    pub tree: Tree,
    pub ends: Ends,
    pub places: BTreeMap<Key, u32>,
}

impl Forest {
    fn new(alloc: Global) -> Result<Forest, OutOfMemory>
        ensures { IfOk result (λ forest. IsForest forest []) }
    {
        Ok(Forest {
            tree: Tree::new(alloc)?,
            ends: Ends::new(alloc),
            places: BTreeMap::new(alloc),
        })
    }

    /// The fork views of a record.
    pub(crate) fn of(alloc: Global, rec: &RunRecord) -> Result<Forest, OutOfMemory>
        requires { length rec.now.entries < 2 ^ 27 }
        ensures { IfOk result (λ forest. IsForest forest (fork_views rec.now.config rec.now.entries)) }
    {
        let mut forest = Forest::new(alloc)?;
        let config = rec.config();
        for q in 0..rec.len() {
            forest.take(alloc, config, entry_at(rec, q))?;
        }
        Ok(forest)
    }

    /// Takes one more entry: a fork view comes with it where an operation completes in it.
    fn take(&mut self, alloc: Global, config: &Config, entry: &Entry) -> Result<(), OutOfMemory>
        requires config { IsConfig config.now }
        requires room { HasRoom self.old }
        ensures forest { (views : List ForkView) → IsForest self.old views →
            OnOk result (IsForest self.new (viewed_in config.now views entry.now)) }
        ensures count { OnOk result (length self.new.ends ≤ length self.old.ends + 1) }
    {
        let Input::Reply(bytes) = &entry.input else {
            return Ok(());
        };
        let Some(answer) = entry.outcome.answer() else {
            return Ok(());
        };
        match read_reply(alloc, config, bytes.as_slice())? {
            Some(reply) => self.grow(answer.op.name, &reply),
            None => Ok(()),
        }
    }

    /// Adds the fork view of an operation that completed by a reply.
    fn grow(&mut self, op: OpName, reply: &Reply) -> Result<(), OutOfMemory>
        requires reply { IsReply reply.now }
        requires room { HasRoom self.old }
        ensures forest { (views : List ForkView) → IsForest self.old views →
            OnOk result (IsForest self.new (views ++ view_by views op reply.now ∷ [])) }
        ensures count { OnOk result (length self.new.ends ≡ length self.old.ends + 1) }
    {
        let base = self.base(reply);
        let pending = reply.pending.as_slice();
        let place = add_tuples(&mut self.tree, base, &reply.version.version, pending)?;
        let end = self.tree.add(place, op)?;
        self.places.insert(Key::of(op), end)?;
        self.ends.push((op, end))?;
        Ok(())
    }

    /// Where the fork view ends that the version of a reply stands for: at the top where the version is initial.
    fn base(&self, reply: &Reply) -> Option<u32>
        requires { IsReply reply.now }
        ensures { result ≡ base_at (λ name. get key_order self.now.places (key_of name)) reply.now }
    {
        let version = &reply.version.version;
        if version.is_initial() {
            return None;
        }
        let client = reply.c;
        let t = version.at(client);
        self.place(OpName { client, t })
    }

    /// The node at which the fork view of an operation ends: none where it didn't complete.
    pub(crate) fn place(&self, name: OpName) -> Option<u32>
        ensures { result ≡ get key_order self.now.places (key_of name) }
    {
        self.places.get(&Key::of(name)).copied()
    }
}
