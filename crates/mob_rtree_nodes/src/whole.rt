//! Operations on a whole tree: insertion, search and removal below its root.
ghost use Rattle.std.specs.Prelude.{◌≡◌, ℕ, ◌+◌, ◌*◌, ◌^◌, ◌<◌, ◌≤◌, count_by, length, OnOk, OnErr, IfOk, All, true, List, [], ◌++◌, IsSorted};
ghost use Rattle.std.specs.List.Sorted.{IsNonDecreasing};
ghost use Rattle.std.specs.Ordering.{nat_cmp};
ghost use Rattle.std.specs.Vec.{vec_len, vec_capacity};
ghost use Rattle.mob_stbox.specs.Boxes.{overlaps, is_whole};
ghost use Rattle.mob_rtree_nodes.specs.Tree.{IsTree, ref, entry_of, is_fit, entries_list, areas_list, IsAdded, AreSame, AreFound, AreLive, IsFree, IsReused};
ghost use Rattle.mob_rtree_nodes.specs.Removes.{IsTakenOut};
ghost use Rattle.mob_rtree_nodes.specs.Sifts.{IsTreeLeft};
ghost use Rattle.mob_rtree_nodes.specs.declared.remove.Removed.TheVariants.{Missing};

use crate::build::{gather_near, leaf_kids, raise};
use crate::insert::{insert_at, put_node};
use crate::node::{Child, Root, TreeNode};
use crate::remove::{Removed, remove_at};
use crate::search::visit;
use crate::sift::{number_free, sift};
use arrayvec::ArrayVec;
use mob_list::steps::Steps;
use mob_stbox::StBox;
use std::alloc::{AllocError, Global};
use std::sync::ledger::Ledger;

// Inserts the first entry.
fn put_first(nodes: &mut Vec<TreeNode>, kid: (StBox, Child)) -> Root
    requires none { nodes.old.items ≡ [] }
    requires fit { is_fit 0 kid ≡ true }
    requires room { vec_len nodes.old < vec_capacity nodes.old }
    ensures tree { IsTree (ref result) nodes.new.items }
    ensures entries { IsAdded (entries_list nodes.old.items) (entry_of kid) (entries_list nodes.new.items) }
    ensures live { AreLive nodes.new.items }
    ensures one { length nodes.new.items ≡ 1 }
{
    let area = kid.0;
    let mut kids = ArrayVec::new();
    kids.push(kid);
    nodes.push_reserved(TreeNode {
        area,
        height: 0,
        kids,
    });
    Root {
        area,
        node: 0,
        height: 0,
    }
}

/// Adds an entry to a tree, which may be empty, and returns the new root.
pub fn put_any(
    nodes: &mut Vec<TreeNode>,
    free: &mut Vec<u32>,
    root: Root,
    kid: (StBox, Child),
) -> Root
    requires tree { (0 < length nodes.old.items) → IsTree (ref root) nodes.old.items }
    requires fit { is_fit 0 kid ≡ true }
    requires free { IsFree free.old.items nodes.old.items }
    requires small { length nodes.old.items + root.height + 2 ≤ 2 ^ 32 }
    requires room { vec_len nodes.old + root.height + 2 ≤ vec_capacity nodes.old }
    ensures tree { IsTree (ref result) nodes.new.items }
    ensures entries { IsAdded (entries_list nodes.old.items) (entry_of kid) (entries_list nodes.new.items) }
    ensures free { IsFree free.new.items nodes.new.items }
    ensures reused { IsReused nodes.old.items nodes.new.items }
    ensures few { length nodes.new.items ≤ length nodes.old.items + root.height + 2 }
    ensures free_capacity { vec_capacity free.new ≡ vec_capacity free.old }
{
    if nodes.is_empty() {
        return put_first(nodes, kid);
    }
    let grown = insert_at(nodes, free, root.node as usize, kid);
    let other = grown.more;
    let Some(more) = other else {
        return Root {
            area: grown.area,
            node: root.node,
            height: root.height,
        };
    };
    let area = grown.area.cover(&more.0);
    let mut kids = ArrayVec::new();
    kids.push((grown.area, Child::Node(root.node)));
    kids.push(more);
    let height = root.height + 1;
    let node = put_node(nodes, free, TreeNode { area, height, kids });
    Root { area, node, height }
}

/// Appends the ids of the entries that overlap a box, in ascending order.
pub fn gather<L: Ledger>(
    nodes: &[TreeNode],
    root: &Root,
    q: &StBox,
    into: &mut Vec<u32>,
    steps: &mut Steps<L>,
) -> Result<(), AllocError>
    requires tree { IsTree (ref root.now) nodes.now }
    ensures found { OnOk result ((more : List ℕ) × (into.new.items ≡ into.old.items ++ more) × IsSorted nat_cmp more × AreFound q.now (entries_list nodes.now) more) }
    ensures err { OnErr result (into.new.items ≡ into.old.items) }
    ensures cost { steps.new ≤ steps.old + (1 + 16 * count_by (λ b. overlaps b q.now) (areas_list nodes.now)) }
{
    steps.tick();
    if !root.area.overlaps(q) {
        return Ok(());
    }
    let mut found = Vec::new(*into.allocator());
    visit(nodes, root.node as usize, q, &mut found, steps)?;
    found.sort_unstable();
    into.extend_from_slice(&found)?;
    Ok(())
}

/// Removes an entry below the root.
pub fn take_entry(
    nodes: &mut Vec<TreeNode>,
    free: &mut Vec<u32>,
    root: Root,
    b: &StBox,
    id: u32,
) -> Removed
    requires tree { IsTree (ref root) nodes.old.items }
    requires free { IsFree free.old.items nodes.old.items }
    requires room { length nodes.old.items ≤ vec_capacity free.old }
    ensures taken { IsTakenOut (ref root) nodes.old.items (b.now, id) result nodes.new.items }
    ensures missing { result ≡ Missing → nodes.new ≡ nodes.old }
    ensures free { IsFree free.new.items nodes.new.items }
    ensures capacity { vec_capacity nodes.new ≡ vec_capacity nodes.old }
    ensures size { vec_len nodes.new ≡ vec_len nodes.old }
    ensures free_capacity { vec_capacity free.new ≡ vec_capacity free.old }
{
    if !root.area.contains(b) {
        return Removed::Missing;
    }
    remove_at(nodes, free, root.node, b, id)
}

/// Removes the entries of these ids in one pass over the nodes. Returns the box of the root, or
/// `None` if no entry is left.
pub fn take_ids(
    nodes: &mut Vec<TreeNode>,
    free: &mut Vec<u32>,
    root: Root,
    ids: &[u32],
) -> Option<StBox>
    requires tree { IsTree (ref root) nodes.old.items }
    requires rising { IsNonDecreasing ids.now }
    requires small { length nodes.old.items ≤ 2 ^ 32 }
    requires room { length nodes.old.items ≤ vec_capacity free.old }
    ensures left { IsTreeLeft (ref root) ids.now nodes.old.items result nodes.new.items }
    ensures free { IsFree free.new.items nodes.new.items }
    ensures capacity { vec_capacity nodes.new ≡ vec_capacity nodes.old }
    ensures size { vec_len nodes.new ≡ vec_len nodes.old }
    ensures free_capacity { vec_capacity free.new ≡ vec_capacity free.old }
{
    sift(nodes, root.height, ids);
    number_free(nodes, free);
    let part = &nodes[root.node as usize];
    if part.kids.is_empty() {
        return None;
    }
    Some(part.area)
}

/// Makes the nodes of these entries, and returns the root. The only error is a failed allocation.
pub fn raise_entries(
    alloc: Global,
    nodes: &mut Vec<TreeNode>,
    entries: &[(StBox, u32)],
) -> Result<Root, AllocError>
    requires none { nodes.old.items ≡ [] }
    requires some { 0 < length entries.now }
    requires whole { All (λ e. is_whole e.0 ≡ true) entries.now }
    ensures tree { IfOk result (λ root. IsTree (ref root) nodes.new.items) }
    ensures entries { OnOk result (AreSame (entries_list nodes.new.items) entries.now) }
    ensures live { OnOk result (AreLive nodes.new.items) }
    ensures few { OnOk result (length nodes.new.items ≤ 2 ^ 32) }
{
    let kids = leaf_kids(alloc, entries)?;
    let near = gather_near(alloc, kids.as_slice())?;
    raise(alloc, nodes, near.as_slice(), 0)
}
