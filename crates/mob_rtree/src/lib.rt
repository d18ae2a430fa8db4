//! An R-tree over boxes of space and time: the entries whose box meets a given one.
//!
//! The tree is after Guttman (1984): nodes have at most 16 children, and each has the bounding box
//! of its own children. Each call finds the entries that it should, whatever the tree looks like;
//! its speed depends on the boxes.
#![tactic(auto)]

pub mod laws;
mod tree;

pub use mob_rtree_nodes::node::Child;
pub use tree::RTree;
