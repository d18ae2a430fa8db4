//! Inserts an entry below a node, and splits nodes.
ghost use Rattle.std.specs.Prelude.{◌≡◌, ℕ, ◌+◌, ◌^◌, ◌<◌, sum_by, count_by, length, IfSome, All, true, not};
ghost use Rattle.std.specs.Vec.{vec_len, vec_capacity};
ghost use Rattle.arrayvec.specs.ArrayVec.{array_vec_len};
ghost use Rattle.mob_stbox.specs.Boxes.{contains, is_whole};
ghost use Rattle.mob_rtree_nodes.specs.Tree.{IsTree, IsSoundNode, Kid, height_at, kids_at, kids_of_more, Ref, IsAttached, IsReplaced, IsGrown, IsLeastOver, IsFree, IsPut, IsReused, is_fit};

use crate::lengths::{Axis, growth, longest, middle_of};
use crate::node::{Child, TreeNode};
use arrayvec::ArrayVec;
use mob_stbox::StBox;

/// The result of an insertion at a node: its box, and the node that was split off.
#[derive(Clone, Copy)]
pub struct Grown {
    pub area: StBox,
    pub more: Option<(StBox, Child)>,
}

/// The bounding box of all.
pub fn cover_all(kids: &[(StBox, Child)]) -> StBox
    requires some { 0 < length kids.now }
    requires whole { count_by (λ k. not (is_whole k.0)) kids.now ≡ 0 }
    ensures over { All (λ k. contains result k.0 ≡ true) kids.now }
    ensures least { IsLeastOver result kids.now }
    ensures whole { is_whole result ≡ true }
{
    let mut area = kids[0].0;
    for kid in kids {
        area = area.cover(&kid.0);
    }
    area
}

/// The child whose box grows least, by the lengths of its sides (Guttman 1984, ChooseLeaf).
pub fn choose(kids: &[(StBox, Child)], area: &StBox) -> usize
    requires some { 0 < length kids.now }
    ensures there { result < length kids.now }
{
    let mut best: usize = 0;
    let mut least = i128::MAX;
    for (i, kid) in kids.iter().enumerate() {
        let growth = growth(&kid.0, area);
        if growth < least {
            least = growth;
            best = i;
        }
    }
    best
}

/// Sorts the children along an axis.
fn arrange(kids: &mut ArrayVec<(StBox, Child), 16>, axis: Axis)
    ensures kids { (f : Kid → ℕ) → sum_by f kids.new.items ≡ sum_by f kids.old.items }
    ensures len { array_vec_len kids.new ≡ array_vec_len kids.old }
{
    kids.as_mut_slice()
        .sort_unstable_by_key(|kid| middle_of(&kid.0, axis));
}

/// Moves the last child to the other list.
fn move_last(kids: &mut ArrayVec<(StBox, Child), 16>, second: &mut ArrayVec<(StBox, Child), 16>)
    requires some { 0 < array_vec_len kids.old }
    requires room { array_vec_len second.old < 16 }
    ensures kids { (f : Kid → ℕ) → sum_by f kids.new.items + sum_by f second.new.items ≡ sum_by f kids.old.items + sum_by f second.old.items }
    ensures first { array_vec_len kids.new + 1 ≡ array_vec_len kids.old }
    ensures second { array_vec_len second.new ≡ array_vec_len second.old + 1 }
{
    if let Some(last) = kids.pop() {
        second.push(last);
    }
}

/// Moves half of the children out, and adds one more to the half that it fits.
fn split(
    kids: &mut ArrayVec<(StBox, Child), 16>,
    axis: Axis,
    kid: (StBox, Child),
) -> ArrayVec<(StBox, Child), 16>
    requires full { array_vec_len kids.old ≡ 16 }
    ensures kids { (f : Kid → ℕ) → sum_by f kids.new.items + sum_by f result.items ≡ sum_by f kids.old.items + f kid }
    ensures first { 0 < length kids.new.items }
    ensures second { 0 < length result.items }
{
    arrange(kids, axis);
    let mut second = ArrayVec::new();
    for moved in 0..8_usize {
        move_last(kids, &mut second);
    }
    if middle_of(&kid.0, axis) >= middle_of(&second.as_slice()[7].0, axis) {
        second.push(kid);
    } else {
        kids.push(kid);
    }
    second
}

/// Adds a child to a node, and returns the node that was split off, if any.
pub fn add(part: &mut TreeNode, kid: (StBox, Child)) -> Option<TreeNode>
    requires sound { IsSoundNode part.old }
    requires fit { is_fit part.old.height kid ≡ true }
    ensures height { part.new.height ≡ part.old.height }
    ensures sound { IsSoundNode part.new }
    ensures live { 0 < length part.new.kids.items }
    ensures more { IfSome result (λ r. (r.height ≡ part.old.height) × IsSoundNode r × (0 < length r.kids.items)) }
    ensures kids { (f : Kid → ℕ) → sum_by f part.new.kids.items + sum_by f (kids_of_more result) ≡ sum_by f part.old.kids.items + f kid }
{
    if part.kids.is_full() {
        let axis = longest(&part.area);
        let second = split(&mut part.kids, axis, kid);
        part.area = cover_all(part.kids.as_slice());
        let area = cover_all(second.as_slice());
        return Some(TreeNode {
            area,
            height: part.height,
            kids: second,
        });
    }
    part.kids.push(kid);
    part.area = cover_all(part.kids.as_slice());
    None
}

/// Puts a node where one was dropped, or at the end if there is no such place, and returns its
/// number.
pub fn put_node(nodes: &mut Vec<TreeNode>, free: &mut Vec<u32>, part: TreeNode) -> u32
    requires free { IsFree free.old.items nodes.old.items }
    requires live { 0 < length part.kids.items }
    requires small { length nodes.old.items < 2 ^ 32 }
    requires room { vec_len nodes.old < vec_capacity nodes.old }
    ensures put { IsPut nodes.old.items part result nodes.new.items }
    ensures free { IsFree free.new.items nodes.new.items }
    ensures reused { IsReused nodes.old.items nodes.new.items }
    ensures capacity { vec_capacity nodes.new ≡ vec_capacity nodes.old }
    ensures free_capacity { vec_capacity free.new ≡ vec_capacity free.old }
{
    match free.pop() {
        Some(number) => {
            nodes[number as usize] = part;
            number
        }
        None => {
            let number = nodes.len() as u32;
            nodes.push_reserved(part);
            number
        }
    }
}

/// Adds a child to the node of this number.
pub fn place(
    nodes: &mut Vec<TreeNode>,
    free: &mut Vec<u32>,
    node: usize,
    kid: (StBox, Child),
) -> Grown
    requires there { node < length nodes.old.items }
    requires live { 0 < length (kids_at nodes.old.items node) }
    requires sound { All IsSoundNode nodes.old.items }
    requires fit { is_fit (height_at nodes.old.items node) kid ≡ true }
    requires free { IsFree free.old.items nodes.old.items }
    requires small { length nodes.old.items < 2 ^ 32 }
    requires room { vec_len nodes.old < vec_capacity nodes.old }
    ensures attached { IsAttached nodes.old.items node kid result nodes.new.items }
    ensures free { IsFree free.new.items nodes.new.items }
    ensures reused { IsReused nodes.old.items nodes.new.items }
    ensures capacity { vec_capacity nodes.new ≡ vec_capacity nodes.old }
    ensures free_capacity { vec_capacity free.new ≡ vec_capacity free.old }
{
    let part = &mut nodes[node];
    let more = add(part, kid);
    let area = part.area;
    match more {
        None => Grown { area, more: None },
        Some(other) => {
            let beside = other.area;
            let number = put_node(nodes, free, other);
            Grown {
                area,
                more: Some((beside, Child::Node(number))),
            }
        }
    }
}

/// Replaces the box of a child by a wider one.
pub fn widen(part: &mut TreeNode, slot: usize, area: StBox)
    requires slot { slot < length part.old.kids.items }
    requires sound { IsSoundNode part.old }
    requires whole { is_whole area ≡ true }
    ensures replaced { IsReplaced part.old slot area part.new }
{
    let kids = part.kids.as_mut_slice();
    kids[slot].0 = area;
    part.area = cover_all(part.kids.as_slice());
}

/// Adds an entry below a node.
pub fn insert_at(
    nodes: &mut Vec<TreeNode>,
    free: &mut Vec<u32>,
    node: usize,
    kid: (StBox, Child),
) -> Grown
    requires tree { (root : Ref) × IsTree root nodes.old.items }
    requires there { node < length nodes.old.items }
    requires live { 0 < length (kids_at nodes.old.items node) }
    requires fit { is_fit 0 kid ≡ true }
    requires free { IsFree free.old.items nodes.old.items }
    requires small { length nodes.old.items + height_at nodes.old.items node < 2 ^ 32 }
    requires room { vec_len nodes.old + height_at nodes.old.items node < vec_capacity nodes.old }
    ensures grown { IsGrown nodes.old.items node kid result nodes.new.items }
    ensures free { IsFree free.new.items nodes.new.items }
    ensures reused { IsReused nodes.old.items nodes.new.items }
    ensures capacity { vec_capacity nodes.new ≡ vec_capacity nodes.old }
    ensures free_capacity { vec_capacity free.new ≡ vec_capacity free.old }
{
    let part = &nodes[node];
    if part.height == 0 {
        return place(nodes, free, node, kid);
    }
    let kids = part.kids.as_slice();
    let slot = choose(kids, &kid.0);
    let below = kids[slot].1.number();
    let grown = insert_at(nodes, free, below as usize, kid);
    let part = &mut nodes[node];
    widen(part, slot, grown.area);
    let other = grown.more;
    match other {
        None => Grown {
            area: part.area,
            more: None,
        },
        Some(more) => place(nodes, free, node, more),
    }
}
