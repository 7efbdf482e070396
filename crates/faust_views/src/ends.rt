use faust_tree::Tree;
use faust_types::{OpName, Sequence};

/// Operations with the nodes at which their fork views end.
pub type Ends = Sequence<(OpName, u32)>;

/// All fork views of a record: the path of each end in the tree is the fork view of its operation.
#[derive(Drop)]
pub struct Forks {
    pub tree: Tree,
    pub ends: Ends,
}
