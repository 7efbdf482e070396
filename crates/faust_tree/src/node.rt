ghost use Rattle.std.specs.Prelude.{◌≡◌};
ghost use Rattle.faust_tree.specs.Kept.{child_of};

use faust_types::OpName;

/// A node of a tree: its name, and the node that it stands under, or none at the top.
#[derive(Clone, Copy, Debug, PartialEq, Eq)]
pub struct Node {
    pub under: Option<u32>,
    pub name: OpName,
}

/// A node as it is kept: with the length of its path, and a node on its path from which longer steps towards the top
/// are taken.
#[derive(Clone, Copy)]
pub(crate) struct Slot {
    pub node: Node,
    pub depth: u32,
    pub jump: u32,
}

/// A name under a place, as it is looked up.
#[derive(Drop, PartialEq, Eq, PartialOrd, Ord)]
pub(crate) struct Child {
    pub under: Option<u32>,
    pub client: u8,
    pub t: u64,
}

impl Node {
    pub(crate) fn child(self) -> Child
        ensures { result ≡ child_of self }
    {
        Child {
            under: self.under,
            client: self.name.client,
            t: self.name.t,
        }
    }
}
