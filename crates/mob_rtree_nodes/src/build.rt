//! Builds a tree of many entries: near ones are put next to each other, and packed level by level.
ghost use Rattle.std.specs.Prelude.{◌≡◌, ℕ, ◌+◌, ◌*◌, ◌^◌, ◌<◌, ◌≤◌, sum_by, count_by, length, map, OnOk, IfOk, true, not, List, [], ◌∷◌, ◌++◌};
ghost use Rattle.mob_rtree_nodes.specs.Tree.{IsTree, Kid, EntryOf, ref, is_fit, entries_sum, AreLive};
ghost use Rattle.mob_rtree_nodes.specs.Builds.{kid_of, IsForest, IsPacking, IsClosed, leaf_sum};

use crate::insert::cover_all;
use crate::lengths::Axis;
use crate::node::{Child, Root, TreeNode};
use crate::places::Ranks;
use arrayvec::ArrayVec;
use mob_stbox::StBox;
use std::alloc::{AllocError, Global};

/// Children with their sort keys, each computed once: children with close keys are near each other.
fn keyed(alloc: Global, kids: &[(StBox, Child)]) -> Result<Vec<(u64, (StBox, Child))>, AllocError>
    ensures kids { IfOk result (λ pairs. map (λ p. p.1) pairs.items ≡ kids.now) }
{
    let x = Ranks::along(alloc, kids, Axis::X)?;
    let y = Ranks::along(alloc, kids, Axis::Y)?;
    let time = Ranks::along(alloc, kids, Axis::Time)?;
    let mut pairs = Vec::new(alloc);
    for (i, kid) in kids.iter().enumerate() {
        let place = x.spread_place(i) | (y.spread_place(i) << 1) | (time.spread_place(i) << 2);
        pairs.push((place, *kid))?;
    }
    Ok(pairs)
}

/// The children of these pairs.
fn unkeyed(
    alloc: Global,
    pairs: &[(u64, (StBox, Child))],
) -> Result<Vec<(StBox, Child)>, AllocError>
    ensures kids { IfOk result (λ kids. kids.items ≡ map (λ p. p.1) pairs.now) }
{
    let mut kids = Vec::new(alloc);
    for pair in pairs {
        kids.push(pair.1)?;
    }
    Ok(kids)
}

/// These children, with near ones next to each other.
pub fn gather_near(
    alloc: Global,
    kids: &[(StBox, Child)],
) -> Result<Vec<(StBox, Child)>, AllocError>
    ensures kids { IfOk result (λ near. (f : Kid → ℕ) → sum_by f near.items ≡ sum_by f kids.now) }
    ensures len { IfOk result (λ near. length near.items ≡ length kids.now) }
{
    let mut pairs = keyed(alloc, kids)?;
    pairs.sort_unstable_by_key(|pair| pair.0);
    unkeyed(alloc, pairs.as_slice())
}

/// Entries as the children of leaves.
pub fn leaf_kids(alloc: Global, entries: &[(StBox, u32)]) -> Result<Vec<(StBox, Child)>, AllocError>
    ensures kids { IfOk result (λ kids. kids.items ≡ map kid_of entries.now) }
{
    let mut kids = Vec::new(alloc);
    for entry in entries {
        kids.push((entry.0, Child::Entry(entry.1)))?;
    }
    Ok(kids)
}

/// Makes a node of these children, and adds it to its level.
fn close(
    nodes: &mut Vec<TreeNode>,
    above: &mut Vec<(StBox, Child)>,
    waiting: ArrayVec<(StBox, Child), 16>,
    height: u32,
) -> Result<(), AllocError>
    requires some { 0 < length waiting.items }
    requires fit { count_by (λ k. not (is_fit height k)) waiting.items ≡ 0 }
    ensures closed { OnOk result (IsClosed height nodes.old.items above.old.items waiting.items nodes.new.items above.new.items) }
    ensures few { OnOk result (length nodes.new.items ≤ 2 ^ 32) }
{
    let count = nodes.len();
    if count > 4294967294 {
        return Err(AllocError);
    }
    let area = cover_all(waiting.as_slice());
    above.push((area, Child::Node(count as u32)))?;
    nodes.push(TreeNode {
        area,
        height,
        kids: waiting,
    })?;
    Ok(())
}

/// Adds one more child to a level.
fn pack_one(
    nodes: &mut Vec<TreeNode>,
    above: &mut Vec<(StBox, Child)>,
    waiting: ArrayVec<(StBox, Child), 16>,
    height: u32,
    kid: (StBox, Child),
) -> Result<ArrayVec<(StBox, Child), 16>, AllocError>
    requires fit { count_by (λ k. not (is_fit height k)) waiting.items ≡ 0 }
    requires kid { is_fit height kid ≡ true }
    ensures packing { (old : List TreeNode) → (came : List Kid) → IsPacking height old came nodes.old.items above.old.items waiting.items → IfOk result (λ now. IsPacking height old (came ++ kid ∷ []) nodes.new.items above.new.items now.items) }
    ensures count { IfOk result (λ now. 16 * length above.new.items + length now.items ≡ 16 * length above.old.items + length waiting.items + 1) }
    ensures some { IfOk result (λ now. 0 < length now.items) }
{
    if waiting.is_full() {
        close(nodes, above, waiting, height)?;
        let mut next = ArrayVec::new();
        next.push(kid);
        return Ok(next);
    }
    let mut next = waiting;
    next.push(kid);
    Ok(next)
}

/// Packs the children of a level into nodes, and returns the level above.
fn pack(
    alloc: Global,
    nodes: &mut Vec<TreeNode>,
    kids: &[(StBox, Child)],
    height: u32,
) -> Result<Vec<(StBox, Child)>, AllocError>
    requires forest { IsForest height kids.now nodes.old.items }
    requires some { 0 < length kids.now }
    ensures forest { IfOk result (λ above. IsForest (height + 1) above.items nodes.new.items) }
    ensures entries { IfOk result (λ above. (g : EntryOf → ℕ) → entries_sum g nodes.new.items ≡ entries_sum g nodes.old.items + leaf_sum g kids.now height) }
    ensures fewer { IfOk result (λ above. (0 < length above.items) × (16 * length above.items < length kids.now + 16)) }
    ensures few { OnOk result (length nodes.new.items ≤ 2 ^ 32) }
{
    let mut above = Vec::new(alloc);
    let mut waiting = ArrayVec::new();
    for kid in kids {
        waiting = pack_one(nodes, &mut above, waiting, height, *kid)?;
    }
    close(nodes, &mut above, waiting, height)?;
    Ok(above)
}

/// Packs level by level, and returns the root.
pub fn raise(
    alloc: Global,
    nodes: &mut Vec<TreeNode>,
    kids: &[(StBox, Child)],
    height: u32,
) -> Result<Root, AllocError>
    requires forest { IsForest height kids.now nodes.old.items }
    requires some { 0 < length kids.now }
    ensures tree { IfOk result (λ root. IsTree (ref root) nodes.new.items) }
    ensures entries { OnOk result ((g : EntryOf → ℕ) → entries_sum g nodes.new.items ≡ entries_sum g nodes.old.items + leaf_sum g kids.now height) }
    ensures live { OnOk result (AreLive nodes.new.items) }
    ensures few { OnOk result (length nodes.new.items ≤ 2 ^ 32) }
{
    if height > 4294967294 {
        return Err(AllocError);
    }
    let above = pack(alloc, nodes, kids, height)?;
    if above.len() == 1 {
        let top = above[0];
        return Ok(Root {
            area: top.0,
            node: top.1.number(),
            height,
        });
    }
    raise(alloc, nodes, above.as_slice(), height + 1)
}
