//! Removes the entries of many ids in one pass, level by level from the leaves.
ghost use Rattle.std.specs.Prelude.{◌≡◌, ℕ, ◌+◌, ◌^◌, ◌<◌, ◌≤◌, count_by, sum_by, length, List, All, not, ◌++◌, []};
ghost use Rattle.std.specs.List.{cons_option, filter_map};
ghost use Rattle.std.specs.List.Sorted.{IsNonDecreasing};
ghost use Rattle.std.specs.Vec.{vec_len, vec_capacity};
ghost use Rattle.arrayvec.specs.ArrayVec.{array_vec_len};
ghost use Rattle.mob_rtree_nodes.specs.Tree.{IsTree, IsSoundNode, IsFree, Ref, if_dropped, is_fit, kids_at};
ghost use Rattle.mob_rtree_nodes.specs.Sifts.{IsSifted, IsSiftedAt, IsSiftedUpTo, left_entry, left_kid, left_node};

use crate::insert::cover_all;
use crate::node::{Child, TreeNode};
use arrayvec::ArrayVec;
use mob_list::live::is_among;
use mob_stbox::StBox;

/// An entry, unless it is removed.
fn entry_after(kid: &(StBox, Child), ids: &[u32]) -> Option<(StBox, Child)>
    requires rising { IsNonDecreasing ids.now }
    ensures left { result ≡ left_entry ids.now kid.now }
{
    if is_among(ids, kid.1.number()) {
        return None;
    }
    Some(*kid)
}

/// A child that is a node, with the node's new box, unless the node is empty now.
fn node_after(nodes: &[TreeNode], kid: &(StBox, Child)) -> Option<(StBox, Child)>
    ensures left { result ≡ left_node nodes.now kid.now }
{
    let part = nodes.get(kid.1.number() as usize)?;
    if part.kids.is_empty() {
        return None;
    }
    Some((part.area, kid.1))
}

/// A child of a node of this height after the removal, if it is left.
fn kid_after(
    nodes: &[TreeNode],
    height: u32,
    kid: &(StBox, Child),
    ids: &[u32],
) -> Option<(StBox, Child)>
    requires rising { IsNonDecreasing ids.now }
    ensures left { result ≡ left_kid ids.now nodes.now height kid.now }
{
    if height == 0 {
        return entry_after(kid, ids);
    }
    node_after(nodes, kid)
}

/// Adds a child that is left to the others.
fn push_left(left: &mut ArrayVec<(StBox, Child), 16>, kid: Option<(StBox, Child)>)
    requires room { array_vec_len left.old < 16 }
    ensures items { left.new.items ≡ left.old.items ++ cons_option kid [] }
    ensures len { array_vec_len left.new ≤ array_vec_len left.old + 1 }
{
    match kid {
        Some(kid) => left.push(kid),
        None => {}
    }
}

/// The children of a node that are left.
fn kids_after(nodes: &[TreeNode], part: &TreeNode, ids: &[u32]) -> ArrayVec<(StBox, Child), 16>
    requires rising { IsNonDecreasing ids.now }
    ensures left { result.items ≡ filter_map (left_kid ids.now nodes.now part.now.height) part.now.kids.items }
{
    let mut left = ArrayVec::new();
    for kid in part.kids.as_slice() {
        let after = kid_after(nodes, part.height, kid, ids);
        push_left(&mut left, after);
    }
    left
}

/// Gives a node the children that are left, and their bounding box.
fn settle_left(part: &mut TreeNode, left: ArrayVec<(StBox, Child), 16>)
    requires sound { IsSoundNode part.old }
    requires fit { count_by (λ k. not (is_fit part.old.height k)) left.items ≡ 0 }
    ensures height { part.new.height ≡ part.old.height }
    ensures sound { IsSoundNode part.new }
    ensures kids { part.new.kids.items ≡ left.items }
{
    part.kids = left;
    if part.kids.is_empty() {
        return;
    }
    part.area = cover_all(part.kids.as_slice());
}

/// Sifts the node of this number.
fn sift_node(nodes: &mut Vec<TreeNode>, node: usize, ids: &[u32])
    requires there { node < length nodes.old.items }
    requires sound { All IsSoundNode nodes.old.items }
    requires rising { IsNonDecreasing ids.now }
    ensures sifted { IsSiftedAt ids.now nodes.old.items node nodes.new.items }
    ensures capacity { vec_capacity nodes.new ≡ vec_capacity nodes.old }
{
    let before = &nodes[node];
    let left = kids_after(nodes, before, ids);
    let part = &mut nodes[node];
    settle_left(part, left);
}

/// Sifts the node of this number if it has this height.
fn sift_at(nodes: &mut Vec<TreeNode>, node: usize, height: u32, ids: &[u32])
    requires there { node < length nodes.old.items }
    requires sound { All IsSoundNode nodes.old.items }
    requires rising { IsNonDecreasing ids.now }
    ensures sound { All IsSoundNode nodes.new.items }
    ensures size { length nodes.new.items ≡ length nodes.old.items }
    ensures sifted { (root : Ref) → (old : List TreeNode) → IsTree root old → IsSiftedUpTo ids.now old height node nodes.old.items → IsSiftedUpTo ids.now old height (node + 1) nodes.new.items }
    ensures capacity { vec_capacity nodes.new ≡ vec_capacity nodes.old }
{
    if nodes[node].height != height {
        return;
    }
    sift_node(nodes, node, ids);
}

/// Sifts the nodes of a height.
fn sift_level(nodes: &mut Vec<TreeNode>, height: u32, ids: &[u32])
    requires sound { All IsSoundNode nodes.old.items }
    requires rising { IsNonDecreasing ids.now }
    ensures sound { All IsSoundNode nodes.new.items }
    ensures sifted { (root : Ref) → (old : List TreeNode) → IsTree root old → IsSiftedUpTo ids.now old height 0 nodes.old.items → IsSiftedUpTo ids.now old (height + 1) 0 nodes.new.items }
    ensures capacity { vec_capacity nodes.new ≡ vec_capacity nodes.old }
{
    for node in 0..nodes.len() {
        sift_at(nodes, node, height, ids);
    }
}

/// Sifts all nodes of a tree, up to the height of its root.
pub(crate) fn sift(nodes: &mut Vec<TreeNode>, top: u32, ids: &[u32])
    requires tree { (root : Ref) × IsTree root nodes.old.items × (root.height ≡ top) }
    requires rising { IsNonDecreasing ids.now }
    ensures sifted { IsSifted ids.now nodes.old.items nodes.new.items }
    ensures capacity { vec_capacity nodes.new ≡ vec_capacity nodes.old }
{
    for height in 0..top {
        sift_level(nodes, height, ids);
    }
    sift_level(nodes, top, ids);
}

/// Marks a node as free if it has no children.
fn free_one(nodes: &[TreeNode], free: &mut Vec<u32>, node: usize)
    requires there { node < length nodes.now }
    requires small { length nodes.now ≤ 2 ^ 32 }
    requires room { vec_len free.old < vec_capacity free.old }
    ensures numbered { (f : ℕ → ℕ) → sum_by f free.new.items ≡ sum_by f free.old.items + if_dropped (kids_at nodes.now node) (f node) }
    ensures len { vec_len free.new ≤ vec_len free.old + 1 }
    ensures capacity { vec_capacity free.new ≡ vec_capacity free.old }
{
    if nodes[node].kids.is_empty() {
        free.push_reserved(node as u32);
    }
}

/// The numbers of the nodes without children.
pub(crate) fn number_free(nodes: &[TreeNode], free: &mut Vec<u32>)
    requires small { length nodes.now ≤ 2 ^ 32 }
    requires room { length nodes.now ≤ vec_capacity free.old }
    ensures free { IsFree free.new.items nodes.now }
    ensures capacity { vec_capacity free.new ≡ vec_capacity free.old }
{
    free.clear();
    for node in 0..nodes.len() {
        free_one(nodes, free, node);
    }
}
