//! A tree of points on a line, inserted one by one: nodes are split, entries are removed and
//! inserted again.
ghost use Rattle.std.specs.Prelude.{true};

use crate::boxes::boxed;
use crate::found::finds;
use mob_rtree::RTree;
use std::alloc::Global;

fn puts(tree: &mut RTree, id: u32) -> bool {
    let at = id as i64;
    match boxed((at, at), (0, 0), (7, 7)) {
        Some(b) => tree.insert(b, id).is_ok(),
        None => false,
    }
}

pub fn takes(tree: &mut RTree, id: u32) -> bool {
    let at = id as i64;
    match boxed((at, at), (0, 0), (7, 7)) {
        Some(b) => tree.remove(&b, id),
        None => false,
    }
}

pub fn all_put(tree: &mut RTree, from: u32, to: u32) -> bool {
    for id in from..to {
        if !puts(tree, id) {
            return false;
        }
    }
    true
}

fn all_taken(tree: &mut RTree, from: u32, to: u32) -> bool {
    for id in from..to {
        if !takes(tree, id) {
            return false;
        }
    }
    true
}

fn finds_at(alloc: Global, tree: &RTree, from: i64, to: i64, ids: &[u32]) -> bool {
    match boxed((from, to), (0, 0), (0, 9)) {
        Some(asked) => finds(alloc, tree, &asked, ids),
        None => false,
    }
}

fn right(alloc: Global) -> bool {
    let mut tree = RTree::new(alloc);
    all_put(&mut tree, 0, 1000)
        && finds_at(alloc, &tree, 498, 500, [498, 499, 500].as_slice())
        && all_taken(&mut tree, 100, 900)
        && finds_at(alloc, &tree, 98, 901, [98, 99, 900, 901].as_slice())
        && all_put(&mut tree, 899, 900)
        && finds_at(alloc, &tree, 98, 901, [98, 99, 899, 900, 901].as_slice())
        && all_taken(&mut tree, 0, 100)
        && all_taken(&mut tree, 899, 1000)
        && finds_at(alloc, &tree, 0, 1000, [].as_slice())
        && all_put(&mut tree, 5, 6)
        && finds_at(alloc, &tree, 0, 1000, [5].as_slice())
}

#[test]
fn points_on_a_line(rt: HostRuntime) {
    assert!(rt; right(rt.alloc()));
}
