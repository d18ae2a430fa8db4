//! A tree of three boxes, two of which are equal and touch the box that is searched for.
ghost use Rattle.std.specs.Prelude.{◌≡◌, true, IfSome};
ghost use Rattle.mob_stbox.specs.Boxes.{is_whole};

use crate::boxes::boxed;
use crate::found::finds;
use mob_rtree::RTree;
use mob_stbox::StBox;
use std::alloc::Global;

// Their boxes, and the box that is searched for.
#[derive(Clone, Copy)]
struct ThreeBoxes {
    near: StBox,
    far: StBox,
    asked: StBox,
}

fn boxes() -> Option<ThreeBoxes>
    ensures near { IfSome result (λ b. is_whole b.near ≡ true) }
    ensures far { IfSome result (λ b. is_whole b.far ≡ true) }
    ensures asked { IfSome result (λ b. is_whole b.asked ≡ true) }
{
    let near = boxed((2, 3), (2, 3), (1, 2))?;
    let far = boxed((9, 9), (8, 9), (1, 2))?;
    let asked = boxed((0, 2), (0, 2), (0, 1))?;
    Some(ThreeBoxes { near, far, asked })
}

fn first_tree(alloc: Global, boxes: &ThreeBoxes) -> Option<RTree>
    requires near { is_whole boxes.now.near ≡ true }
    requires far { is_whole boxes.now.far ≡ true }
{
    let mut entries = Vec::new(alloc);
    entries.push((boxes.near, 0)).ok()?;
    entries.push((boxes.near, 1)).ok()?;
    entries.push((boxes.far, 2)).ok()?;
    RTree::build(alloc, entries).ok()
}

fn put_in(tree: &mut RTree, b: StBox, id: u32) -> bool
    requires whole { is_whole b ≡ true }
{
    tree.reserve_one().is_ok() && tree.insert(b, id).is_ok()
}

fn grows(alloc: Global, boxes: &ThreeBoxes) -> bool
    requires near { is_whole boxes.now.near ≡ true }
    requires far { is_whole boxes.now.far ≡ true }
    requires asked { is_whole boxes.now.asked ≡ true }
{
    let Some(mut tree) = first_tree(alloc, boxes) else {
        return false;
    };
    if !finds(alloc, &tree, &boxes.asked, [0, 1].as_slice()) {
        return false;
    }
    put_in(&mut tree, boxes.asked, 3) && finds(alloc, &tree, &boxes.asked, [0, 1, 3].as_slice())
}

fn shrinks(alloc: Global, boxes: &ThreeBoxes) -> bool
    requires near { is_whole boxes.now.near ≡ true }
    requires far { is_whole boxes.now.far ≡ true }
{
    let Some(mut tree) = first_tree(alloc, boxes) else {
        return false;
    };
    let first = tree.remove(&boxes.near, 0);
    let second = tree.remove(&boxes.near, 0);
    first && !second && finds(alloc, &tree, &boxes.asked, [1].as_slice())
}

fn right(alloc: Global) -> bool {
    let Some(boxes) = boxes() else {
        return false;
    };
    grows(alloc, &boxes) && shrinks(alloc, &boxes)
}

#[test]
fn three_boxes(rt: HostRuntime) {
    assert!(rt; right(rt.alloc()));
}
