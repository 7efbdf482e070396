ghost use Rattle.std.specs.Prelude.{◌≡◌, ℕ, ◌+◌, ◌-◌, ◌^◌, ◌<◌, ◌≤◌, ◌↔◌, suc, [], ◌∷◌, ◌++◌, length, slice_get, Some, IsTrue, IsOkAnd, IfOk, OnErr, IfSome, MatchOption};
ghost use Rattle.faust_tree.specs.Trees.{Adds, IsNew, IsPrefix, IsTree, IsUnder, path_of, path_under};
ghost use Rattle.faust_tree.specs.Kept.{IsJump, IsSlotFor};

use crate::node::{Child, Node, Slot};
use faust_types::{Names, OpName, OutOfMemory};
use std::alloc::Global;
use std::collections::BTreeMap;
use std::marker::Model;

/// A tree of names, seen by contracts as the list of its nodes: node k stands at place k, counted from 0.
#[derive(Drop)]
pub struct Tree {
    slots: Vec<Slot>,
    children: BTreeMap<Child, u32>,
}

impl Model for Tree {
    ghost use Rattle.std.specs.Prelude.{List};
    ghost use Rattle.faust_tree.specs.declared.node.Node.{Node};

    ghost Value = { List Node };

    ghost use Rattle.faust_tree.specs.KeptTree.{tree_of, IsKeptTree};

    ghost view = { tree_of };

    ghost invariant = { IsKeptTree };
}

impl Tree {
    /// The tree without nodes. It takes no memory.
    pub fn new(alloc: Global) -> Result<Tree, OutOfMemory>
        ensures { IsOkAnd result (λ tree. tree ≡ []) }
    {
        Ok(Tree {
            slots: Vec::new(alloc),
            children: BTreeMap::new(alloc),
        })
    }

    /// How many nodes it has.
    pub fn len(&self) -> u32
        ensures len { result ≡ length self.now }
        ensures tree { IsTree self.now }
    {
        self.slots.len() as u32
    }

    /// The node of this name under a node, or at the top: it is made only where there was none. There are fewer than
    /// 2^32 - 1 nodes.
    pub fn add(&mut self, under: Option<u32>, name: OpName) -> Result<u32, OutOfMemory>
        requires place { IsUnder self.old under }
        requires few { length self.old < 2 ^ 32 - 1 }
        ensures ok { IfOk result (λ k. Adds self.old (record { under = under; name = name }) self.new k) }
        ensures path { IfOk result (λ k. path_of self.new k ≡ path_under self.old under ++ name ∷ []) }
        ensures kept { (k : ℕ) → k < length self.old → path_of self.new k ≡ path_of self.old k }
        ensures err { OnErr result (self.new ≡ self.old) }
    {
        let node = Node { under, name };
        if let Some(number) = self.find(node) {
            return Ok(number);
        }
        let slot = self.slot_of(node);
        self.put(slot)
    }

    /// Whether the path of node a is a prefix of the path of node b.
    pub fn is_prefix(&self, a: u32, b: u32) -> bool
        requires a { a < length self.now }
        requires b { b < length self.now }
        ensures { IsTrue result ↔ IsPrefix (path_of self.now a) (path_of self.now b) }
    {
        let depth = self.depth(a);
        depth <= self.depth(b) && self.ancestor(b, depth) == a
    }

    /// The path of a node: the names from the top to it.
    pub fn path(&self, a: u32) -> Result<Names, OutOfMemory>
        requires { a < length self.now }
        ensures { IfOk result (λ names. names ≡ path_of self.now a) }
    {
        let mut names = Vec::with_capacity(*self.slots.allocator(), self.depth(a) as usize)?;
        let mut place = Some(a);
        while let Some(number) = place {
            let node = self.node(number);
            names.push(node.name)?;
            place = node.under;
        }
        names.reverse();
        Ok(Names::from_vec(names))
    }

    /// A node, which stands under an earlier one or at the top.
    pub fn node(&self, a: u32) -> Node
        requires { a < length self.now }
        ensures node { slice_get self.now a ≡ Some result }
        ensures earlier { IfSome result.under (λ above. above < a) }
        ensures path { path_of self.now a ≡ path_under self.now result.under ++ result.name ∷ [] }
        ensures tree { IsTree self.now }
    {
        self.slots[a as usize].node
    }

    /// How many names the path of a node has.
    fn depth(&self, a: u32) -> u32
        requires { a < length self.now }
        ensures depth { result ≡ length (path_of self.now a) }
        ensures some { 1 ≤ result }
        ensures few { result ≤ a + 1 }
        ensures tree { IsTree self.now }
    {
        self.slots[a as usize].depth
    }

    /// A node on the path of a node, from which longer steps towards the top are taken.
    fn jump(&self, a: u32) -> u32
        requires { a < length self.now }
        ensures { IsJump self.now a result }
    {
        self.slots[a as usize].jump
    }

    /// A node on the path of a node, nearer to the top and no nearer than the given depth.
    fn step(&self, a: u32, depth: u32) -> u32
        requires a { a < length self.now }
        requires some { 1 ≤ depth }
        requires deeper { depth < length (path_of self.now a) }
        ensures within { result < length self.now }
        ensures prefix { IsPrefix (path_of self.now result) (path_of self.now a) }
        ensures nearer { length (path_of self.now result) < length (path_of self.now a) }
        ensures deep { depth ≤ length (path_of self.now result) }
    {
        let jump = self.jump(a);
        match self.node(a).under {
            Some(above) if self.depth(jump) < depth => above,
            _ => jump,
        }
    }

    /// The node on the path of a node whose path has the given length.
    fn ancestor(&self, a: u32, depth: u32) -> u32
        requires a { a < length self.now }
        requires some { 1 ≤ depth }
        requires deep { depth ≤ length (path_of self.now a) }
        ensures within { result < length self.now }
        ensures prefix { IsPrefix (path_of self.now result) (path_of self.now a) }
        ensures depth { length (path_of self.now result) ≡ depth }
    {
        let mut node = a;
        while self.depth(node) > depth {
            node = self.step(node, depth);
        }
        node
    }

    /// The node of that name at that place, if there is one.
    fn find(&self, node: Node) -> Option<u32>
        ensures found { MatchOption result (IsNew self.now node) (λ k. slice_get self.now k ≡ Some node) }
        ensures tree { IsTree self.now }
    {
        self.children.get(&node.child()).copied()
    }

    /// What is kept of one more node.
    fn slot_of(&self, node: Node) -> Slot
        requires place { IsUnder self.now node.under }
        requires few { length self.now < 2 ^ 32 - 1 }
        ensures { IsSlotFor self.now node result }
    {
        match node.under {
            None => Slot {
                node,
                depth: 1,
                jump: self.len(),
            },
            Some(above) => Slot {
                node,
                depth: self.depth(above) + 1,
                jump: self.jump_under(above),
            },
        }
    }

    /// Where a node under the given one jumps to: past the next jump where two jumps span as much as each other, and
    /// else to the node above it. So jumps double in length.
    fn jump_under(&self, above: u32) -> u32
        requires { above < length self.now }
        ensures within { result < length self.now }
        ensures prefix { IsPrefix (path_of self.now result) (path_of self.now above) }
    {
        let first = self.jump(above);
        let second = self.jump(first);
        let depth = self.depth(first);
        if self.depth(above) - depth == depth - self.depth(second) {
            second
        } else {
            above
        }
    }

    /// Puts one more node at the end.
    fn put(&mut self, slot: Slot) -> Result<u32, OutOfMemory>
        requires few { length self.old < 2 ^ 32 - 1 }
        requires absent { IsNew self.old slot.node }
        requires slot { IsSlotFor self.old slot.node slot }
        ensures ok { IfOk result (λ k. (k ≡ length self.old) × (self.new ≡ self.old ++ slot.node ∷ [])) }
        ensures err { OnErr result (self.new ≡ self.old) }
    {
        let number = self.slots.len() as u32;
        self.slots.reserve(1)?;
        self.children.insert(slot.node.child(), number)?;
        self.slots.push(slot)?;
        Ok(number)
    }
}
