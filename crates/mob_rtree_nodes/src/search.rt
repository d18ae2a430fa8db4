//! Searches below a node.
ghost use Rattle.std.specs.Prelude.{◌≡◌, ℕ, ◌+◌, ◌*◌, ◌<◌, ◌≤◌, sum_by, length, OnOk, List, ◌++◌};
ghost use Rattle.mob_stbox.specs.Boxes.{overlaps};
ghost use Rattle.mob_rtree_nodes.specs.Tree.{IsTree, height_at, walk_sum, Ref};

use crate::node::TreeNode;
use mob_list::steps::Steps;
use mob_stbox::StBox;
use std::alloc::AllocError;
use std::sync::ledger::Ledger;

/// Appends the ids of the entries below a node that overlap a box.
pub fn visit<L: Ledger>(
    nodes: &[TreeNode],
    node: usize,
    q: &StBox,
    into: &mut Vec<u32>,
    steps: &mut Steps<L>,
) -> Result<(), AllocError>
    requires tree { (root : Ref) × IsTree root nodes.now }
    requires there { node < length nodes.now }
    ensures found { OnOk result ((more : List ℕ) × (into.new.items ≡ into.old.items ++ more) × ((g : ℕ → ℕ) → sum_by g more ≡ walk_sum (λ b. overlaps b q.now) 0 (λ e. g e.1) nodes.now (height_at nodes.now node) node)) }
    ensures cost { steps.new ≤ steps.old + 16 * walk_sum (λ b. overlaps b q.now) 1 (λ _. 0) nodes.now (height_at nodes.now node) node }
    ensures kept { (more : List ℕ) × (into.new.items ≡ into.old.items ++ more) }
{
    let part = &nodes[node];
    for kid in part.kids.as_slice() {
        steps.tick();
        let number = kid.1.number();
        if kid.0.overlaps(q) {
            if part.height == 0 {
                into.push(number)?;
            } else {
                visit(nodes, number as usize, q, into, steps)?;
            }
        }
    }
    Ok(())
}
