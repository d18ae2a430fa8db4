//! The nodes of a tree and their children.
ghost use Rattle.std.specs.Prelude.{◌≡◌};
ghost use Rattle.mob_rtree_nodes.specs.Tree.{target};
ghost use Rattle.mob_rtree_nodes.specs.declared.node.Child.TheVariants.{Node};

use arrayvec::ArrayVec;
use mob_stbox::StBox;

/// A child below a box in a node: a node by its number, or an entry by its id.
#[derive(Clone, Copy, Debug)]
pub enum Child {
    Node(u32),
    Entry(u32),
}

impl Default for Child {
    ghost is_default = { λ c. c ≡ Node 0 };

    /// The node 0, which fills the unused slots of an array.
    fn default() -> Child {
        Child::Node(0)
    }
}

impl Child {
    /// The number or the id.
    pub fn number(&self) -> u32
        ensures target { result ≡ target self.now }
    {
        match self {
            Child::Node(number) => *number,
            Child::Entry(id) => *id,
        }
    }
}

/// A node: its box, its height above the leaves, and its children. A node without children is not
/// part of the tree.
#[derive(Drop)]
pub struct TreeNode {
    pub area: StBox,
    pub height: u32,
    pub kids: ArrayVec<(StBox, Child), 16>,
}

/// The root: its box, its number and its height.
#[derive(Clone, Copy, Default)]
pub struct Root {
    pub area: StBox,
    pub node: u32,
    pub height: u32,
}
