//! A tree of operation names, which keeps many lists that begin alike as shared paths: each node has a name and stands
//! at the top or under an earlier node, and no two nodes of one name stand at one place. So equal paths are one node,
//! and a list that is in the tree takes one number. Whether one path begins another is told in a number of steps that
//! grows with the logarithm of their lengths.
//!
//! `specs/Trees.antt` comes first: what the path of a node is, when one path is a prefix of another, and what adding a
//! name does. `laws` says that equal paths are one node. `specs/Kept.antt` says what the code keeps besides the tree,
//! and helps proofs.
//!
//! Which paths are put into a tree, and what they mean, is not the business of this crate.
#![tactic(auto)]

pub mod laws;
mod node;
#[cfg(test)]
mod tests;
mod tree;

pub use node::Node;
pub use tree::Tree;
