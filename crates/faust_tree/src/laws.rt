//! What follows for trees, on the definitions. Each function has an empty body, and its contract is the law.
ghost use Rattle.std.specs.Prelude.{◌≡◌, ℕ, ◌<◌, List, length};
ghost use Rattle.faust_tree.specs.Trees.{IsTree, path_of};
ghost use Rattle.faust_tree.specs.declared.node.Node.{Node};

/// Two nodes with equal paths are one node.
#[tactic(auto, using(crate::proofs::Paths::one_node_a_path))]
pub fn equal_paths_are_one_node()
    ensures { (tree : List Node) (a b : ℕ) → IsTree tree → a < length tree → b < length tree →
        path_of tree a ≡ path_of tree b → a ≡ b }
{}
