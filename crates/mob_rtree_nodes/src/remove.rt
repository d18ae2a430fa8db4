//! Removes an entry below a node.
ghost use Rattle.std.specs.Prelude.{◌≡◌, ◌<◌, ◌≤◌, count_by, length, All, get_or, IfNone, IfSome, true};
ghost use Rattle.std.specs.Vec.{vec_capacity};
ghost use Rattle.mob_stbox.specs.Boxes.{is_whole};
ghost use Rattle.mob_rtree_nodes.specs.Tree.{IsTree, IsSoundNode, IsFree, Ref, Kid, kids_at, height_at};
ghost use Rattle.mob_rtree_nodes.specs.declared.remove.Removed.TheVariants.{Missing, Narrowed, Emptied};
ghost use Rattle.mob_rtree_nodes.specs.Removes.{is_entry, IsSettled, IsSettledAt, IsRemoved, is_whole_left};

use crate::insert::{cover_all, widen};
use crate::node::{Child, TreeNode};
use mob_stbox::StBox;

/// The result of a removal below a node: the entry was not there, the node has a narrower box, or
/// the node has no children left.
#[derive(Clone, Copy)]
pub enum Removed {
    Missing,
    Narrowed(StBox),
    Emptied,
}

/// The slot of an entry.
fn position(kids: &[(StBox, Child)], b: &StBox, id: u32) -> Option<usize>
    ensures none { IfNone result (count_by (is_entry b.now id) kids.now ≡ 0) }
    ensures there { IfSome result (λ i. i < length kids.now) }
    ensures entry { IfSome result (λ i. (k : Kid) → k ≡ get_or kids.now i k → is_entry b.now id k ≡ true) }
{
    for (slot, kid) in kids.iter().enumerate() {
        if kid.0.same(b) && kid.1.number() == id {
            return Some(slot);
        }
    }
    None
}

/// Removes a child.
fn take_out(part: &mut TreeNode, slot: usize) -> Removed
    requires slot { slot < length part.old.kids.items }
    requires sound { IsSoundNode part.old }
    ensures settled { IsSettled part.old slot Emptied result part.new }
{
    part.kids.remove(slot);
    if part.kids.is_empty() {
        return Removed::Emptied;
    }
    part.area = cover_all(part.kids.as_slice());
    Removed::Narrowed(part.area)
}

/// Replaces the box of a child by a narrower one. If the box is the same, the node stays unchanged.
fn narrow(part: &mut TreeNode, slot: usize, area: StBox) -> Removed
    requires slot { slot < length part.old.kids.items }
    requires sound { IsSoundNode part.old }
    requires whole { is_whole area ≡ true }
    ensures settled { IsSettled part.old slot (Narrowed area) result part.new }
{
    let kid = part.kids.as_slice()[slot];
    if kid.0.same(&area) {
        return Removed::Narrowed(part.area);
    }
    widen(part, slot, area);
    Removed::Narrowed(part.area)
}

/// Updates a node after a removal below a child.
fn settle(part: &mut TreeNode, slot: usize, removed: Removed) -> Removed
    requires slot { slot < length part.old.kids.items }
    requires sound { IsSoundNode part.old }
    requires left { is_whole_left removed ≡ true }
    ensures settled { IsSettled part.old slot removed result part.new }
{
    match removed {
        Removed::Narrowed(area) => narrow(part, slot, area),
        Removed::Missing => take_out(part, slot),
        Removed::Emptied => take_out(part, slot),
    }
}

/// Updates the node of this number after a removal below a child. If the node has no children left,
/// its number becomes free.
fn settle_at(
    nodes: &mut Vec<TreeNode>,
    free: &mut Vec<u32>,
    node: u32,
    slot: usize,
    removed: Removed,
) -> Removed
    requires there { node < length nodes.old.items }
    requires slot { slot < length (kids_at nodes.old.items node) }
    requires sound { All IsSoundNode nodes.old.items }
    requires left { is_whole_left removed ≡ true }
    requires free { IsFree free.old.items nodes.old.items }
    requires room { length nodes.old.items ≤ vec_capacity free.old }
    ensures settled { IsSettledAt nodes.old.items node slot removed result nodes.new.items }
    ensures free { IsFree free.new.items nodes.new.items }
    ensures capacity { vec_capacity nodes.new ≡ vec_capacity nodes.old }
    ensures free_capacity { vec_capacity free.new ≡ vec_capacity free.old }
{
    let part = &mut nodes[node as usize];
    let left = settle(part, slot, removed);
    match left {
        Removed::Emptied => {
            free.push_reserved(node);
            Removed::Emptied
        }
        Removed::Narrowed(area) => Removed::Narrowed(area),
        Removed::Missing => Removed::Missing,
    }
}

/// Removes an entry of a leaf.
fn remove_entry(
    nodes: &mut Vec<TreeNode>,
    free: &mut Vec<u32>,
    node: u32,
    b: &StBox,
    id: u32,
) -> Removed
    requires there { node < length nodes.old.items }
    requires sound { All IsSoundNode nodes.old.items }
    requires leaf { height_at nodes.old.items node ≡ 0 }
    requires free { IsFree free.old.items nodes.old.items }
    requires room { length nodes.old.items ≤ vec_capacity free.old }
    ensures removed { IsRemoved nodes.old.items node (b.now, id) result nodes.new.items }
    ensures missing { result ≡ Missing → nodes.new ≡ nodes.old }
    ensures free { IsFree free.new.items nodes.new.items }
    ensures capacity { vec_capacity nodes.new ≡ vec_capacity nodes.old }
    ensures free_capacity { vec_capacity free.new ≡ vec_capacity free.old }
{
    let part = &nodes[node as usize];
    let found = position(part.kids.as_slice(), b, id);
    match found {
        None => Removed::Missing,
        Some(slot) => settle_at(nodes, free, node, slot, Removed::Emptied),
    }
}

/// Removes an entry below a node.
pub(crate) fn remove_at(
    nodes: &mut Vec<TreeNode>,
    free: &mut Vec<u32>,
    node: u32,
    b: &StBox,
    id: u32,
) -> Removed
    requires tree { (root : Ref) × IsTree root nodes.old.items }
    requires there { node < length nodes.old.items }
    requires free { IsFree free.old.items nodes.old.items }
    requires room { length nodes.old.items ≤ vec_capacity free.old }
    ensures removed { IsRemoved nodes.old.items node (b.now, id) result nodes.new.items }
    ensures missing { result ≡ Missing → nodes.new ≡ nodes.old }
    ensures free { IsFree free.new.items nodes.new.items }
    ensures capacity { vec_capacity nodes.new ≡ vec_capacity nodes.old }
    ensures free_capacity { vec_capacity free.new ≡ vec_capacity free.old }
{
    let part = &nodes[node as usize];
    if part.height == 0 {
        return remove_entry(nodes, free, node, b, id);
    }
    let count = part.kids.len();
    for slot in 0..count {
        let kid = nodes[node as usize].kids.as_slice()[slot];
        if kid.0.contains(b) {
            let number = kid.1.number();
            let removed = remove_at(nodes, free, number, b, id);
            match removed {
                Removed::Missing => {}
                Removed::Narrowed(area) => {
                    return settle_at(nodes, free, node, slot, Removed::Narrowed(area));
                }
                Removed::Emptied => return settle_at(nodes, free, node, slot, Removed::Emptied),
            }
        }
    }
    Removed::Missing
}
