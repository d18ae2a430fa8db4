//! Entries of many ids that are removed in one pass, and the same ones one by one.
ghost use Rattle.std.specs.Prelude.{true, IfSome};
ghost use Rattle.std.specs.List.Sorted.{IsNonDecreasing};

use crate::boxes::boxed;
use crate::found::finds;
use crate::grown::{all_put, takes};
use mob_rtree::RTree;
use std::alloc::Global;

// The ids below `end` that are divisible by three, or those that are not.
fn ids_below(alloc: Global, end: u32, thirds: bool) -> Option<Vec<u32>>
    ensures rising { IfSome result (λ ids. IsNonDecreasing ids.items) }
{
    let mut ids = Vec::new(alloc);
    for id in 0..end {
        if (id % 3 == 0) == thirds {
            ids.push(id).ok()?;
        }
    }
    ids.sort_unstable();
    Some(ids)
}

fn each_taken(tree: &mut RTree, ids: &[u32]) -> bool {
    for id in ids {
        if !takes(tree, *id) {
            return false;
        }
    }
    true
}

// Whether a search over the whole line finds exactly these ids.
fn has_only(alloc: Global, tree: &RTree, ids: &[u32]) -> bool {
    match boxed((0, 1000), (0, 0), (0, 9)) {
        Some(asked) => finds(alloc, tree, &asked, ids),
        None => false,
    }
}

// Whether a tree of 600 entries keeps the others when each third entry is removed in one pass.
fn sifts(alloc: Global, tree: &mut RTree, gone: &[u32], left: &[u32]) -> bool
    requires rising { IsNonDecreasing gone.now }
{
    if !all_put(tree, 0, 600) {
        return false;
    }
    tree.remove_ids(gone);
    has_only(alloc, tree, left)
}

// Whether it keeps the same entries when these are removed one by one.
fn takes_each(alloc: Global, tree: &mut RTree, gone: &[u32], left: &[u32]) -> bool {
    all_put(tree, 0, 600) && each_taken(tree, gone) && has_only(alloc, tree, left)
}

// Whether the tree is empty without these, and an entry can be inserted again.
fn empties(alloc: Global, tree: &mut RTree, left: &[u32]) -> bool
    requires rising { IsNonDecreasing left.now }
{
    tree.remove_ids(left);
    if !has_only(alloc, tree, [].as_slice()) || tree.root().is_some() {
        return false;
    }
    all_put(tree, 5, 6) && has_only(alloc, tree, [5].as_slice())
}

fn right(alloc: Global) -> bool {
    let Some(gone) = ids_below(alloc, 600, true) else {
        return false;
    };
    let Some(left) = ids_below(alloc, 600, false) else {
        return false;
    };
    let mut tree = RTree::new(alloc);
    let mut other = RTree::new(alloc);
    sifts(alloc, &mut tree, &gone, &left)
        && takes_each(alloc, &mut other, &gone, &left)
        && empties(alloc, &mut tree, &left)
}

#[test]
fn each_third_taken_out(rt: HostRuntime) {
    assert!(rt; right(rt.alloc()));
}
