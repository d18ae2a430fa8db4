//! Laws of every tree. No code runs here.

ghost use Rattle.std.specs.Prelude.{◌≡◌, All};
ghost use Rattle.mob_rtree_nodes.specs.Reach.{HaveOneDepth};
ghost use Rattle.mob_rtree.specs.Shape.{HasLeastBox, boxes_of};

use crate::{Child, RTree};
use mob_list::laws::crosses_threads;

/// The box of each node is the bounding box of its children's boxes. The steps of a search are
/// bounded by these boxes.
pub fn boxes_are_least(tree: &RTree)
    ensures least { All HasLeastBox tree.now.nodes }
    ensures areas { tree.now.areas ≡ boxes_of tree.now.nodes }
{
    tree.has_root();
}

/// All leaves have one depth: the path from the root has the same length to each of them.
pub fn leaves_have_one_depth(tree: &RTree)
    ensures depth { HaveOneDepth tree.now.nodes tree.now.root }
{
    tree.has_root();
}

/// Trees cross threads.
pub fn trees_cross_threads() {
    crosses_threads::<RTree>();
    crosses_threads::<Child>();
}
