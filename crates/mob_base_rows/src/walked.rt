//! A walk over a tree from its root.

use crate::boxes::boxed;
use mob_rtree::{Child, RTree};
use std::alloc::Global;

/// How many children the root has.
fn children_of_root(tree: &RTree) -> usize {
    match tree.root() {
        Some(root) => tree.children(root).len(),
        None => 0,
    }
}

/// How many children the root's first child has.
fn children_below(tree: &RTree) -> usize {
    let Some(root) = tree.root() else {
        return 0;
    };
    let kid = tree.children(root)[0];
    match kid.1 {
        Child::Entry(_) => 0,
        Child::Node(number) => tree.children(number).len(),
    }
}

fn filled(tree: &mut RTree, count: u32) -> bool {
    for id in 0..count {
        let Some(b) = boxed((0, 1), (0, 1), (0, 1)) else {
            return false;
        };
        if tree.insert(b, id).is_err() {
            return false;
        }
    }
    true
}

fn right(alloc: Global) -> bool {
    let mut tree = RTree::new(alloc);
    if tree.root().is_some() || !filled(&mut tree, 16) {
        return false;
    }
    if children_of_root(&tree) != 16 || children_below(&tree) != 0 {
        return false;
    }
    filled(&mut tree, 1) && children_of_root(&tree) == 2 && children_below(&tree) > 7
}

#[test]
fn seventeen_entries(rt: HostRuntime) {
    assert!(rt; right(rt.alloc()));
}
