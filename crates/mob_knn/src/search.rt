//! The search.
ghost use Rattle.std.specs.Prelude.{◌≡◌, ℕ, ◌<◌, ◌+◌, ◌≤◌, ◌++◌, ◌∷◌, [], IfOk, IfErr, OnOk, Option};
ghost use Rattle.std.specs.List.Sorted.{IsPermutation};
ghost use Rattle.mob_list.specs.Faults.{OnCause};
ghost use Rattle.mob_ratio.specs.Ratio.{Ratio};
ghost use Rattle.mob_rtree_nodes.specs.Reach.{IsSpread};
ghost use Rattle.std.specs.BinaryHeap.{heap_items, KeepsHeap};
ghost use Rattle.mob_slice.specs.Sides.{operand_of};
ghost use Rattle.mob_stbox.specs.Boxes.{BoxOf};
ghost use Rattle.mob_list.specs.declared.fault.Fault.TheVariants.{NoMemory};
ghost use Rattle.mob_knn.specs.Nearest.{AreNearest, AreOfTrips, HasApproach, IsAskedBox, IsPassed, count_within, reach_of};
ghost use Rattle.mob_knn.specs.Steps.{IsAdvanced, IsOnly, found_answer, IsEntry, IsReachedIn, HasUnfitPart};
ghost use Rattle.mob_knn.specs.declared.waiting.WaitingKind.TheVariants.{Node};
ghost use Rattle.mob_knn.specs.Waits.{waiting_cmp};

use crate::asked::{box_of_asked, let_go};
use crate::fault::NearFault;
use crate::trips::row_approach;
use crate::waiting::{Waiting, WaitingKind, open, wait};
use mob_frac::Frac;
use mob_list::fault::Fault;
use mob_list::items::Items;
use mob_list::steps::Steps;
use mob_rtree::RTree;
use mob_slice::{Moving, Operand, PlaneLine};
use mob_stbox::StBox;
use std::alloc::Global;
use std::collections::BinaryHeap;
use std::sync::ledger::Ledger;

// Computes the approach of a row, which then waits as an answer.
fn look<L: Ledger>(
    alloc: Global,
    trips: &[Option<Moving<PlaneLine>>],
    asked: &Operand<'_, PlaneLine>,
    row: u32,
    heap: &mut BinaryHeap<Waiting>,
    steps: &mut Steps<L>,
) -> Result<(), NearFault>
    ensures looked { OnOk result ((o : Option Ratio) × IsOnly (HasApproach trips.now (operand_of asked.now) row) o × IsPermutation (found_answer row o ++ heap_items heap.old) (heap_items heap.new)) }
    ensures order { OnOk result (KeepsHeap waiting_cmp (heap_items heap.old) (heap_items heap.new)) }
    ensures steps { steps.new ≡ steps.old + 1 }
    ensures err { IfErr result (OnCause (λ f. (f.0 ≡ row) × HasUnfitPart trips.now (operand_of asked.now) f.0 f.1)) }
{
    steps.tick();
    match row_approach(alloc, trips, row, asked) {
        Ok(Some(approach)) => wait(heap, approach, WaitingKind::Answer(row)),
        Ok(None) => Ok(()),
        Err(passed) => Err(Fault::Because((row, passed))),
    }
}

// Adds a row to the answer.
fn tell(found: &mut Vec<(u32, Frac)>, row: u32, approach: Frac) -> Result<(), NearFault>
    ensures told { OnOk result (found.new.items ≡ found.old.items ++ (row, approach) ∷ []) }
    ensures err { IfErr result (λ e. e ≡ NoMemory) }
{
    Ok(found.push((row, approach))?)
}

// One step for the first item of the heap: opens a node, computes the approach of an entry, or adds
// an answer.
fn advance<L: Ledger>(
    alloc: Global,
    tree: &RTree,
    trips: &[Option<Moving<PlaneLine>>],
    asked: &Operand<'_, PlaneLine>,
    area: &StBox,
    first: &Waiting,
    heap: &mut BinaryHeap<Waiting>,
    found: &mut Vec<(u32, Frac)>,
    steps: &mut Steps<L>,
) -> Result<(), NearFault>
    requires reached { IsReachedIn tree.now.nodes tree.now.root first.now.what }
    ensures ok { OnOk result (IsAdvanced tree.now.nodes area.now (HasApproach trips.now (operand_of asked.now)) first.now.key first.now.what (record { heap = heap_items heap.old; found = found.old.items; steps = steps.old }) (record { heap = heap_items heap.new; found = found.new.items; steps = steps.new })) }
    ensures spread { OnOk result ((n : ℕ) → first.now.what ≡ Node n → IsSpread tree.now.nodes n) }
    ensures order { OnOk result (KeepsHeap waiting_cmp (heap_items heap.old) (heap_items heap.new)) }
    ensures err { IfErr result (OnCause (λ f. IsEntry first.now.what f.0 × HasUnfitPart trips.now (operand_of asked.now) f.0 f.1)) }
{
    match first.what {
        WaitingKind::Node(n) => open(heap, tree.children(n), &first.key, area),
        WaitingKind::Entry(row) => look(alloc, trips, asked, row, heap, steps),
        WaitingKind::Answer(row) => tell(found, row, first.key),
    }
}

// The nearest rows, given the box of what is asked for.
fn search<L: Ledger>(
    alloc: Global,
    tree: &RTree,
    trips: &[Option<Moving<PlaneLine>>],
    asked: &Operand<'_, PlaneLine>,
    area: &StBox,
    k: u32,
    steps: &mut Steps<L>,
) -> Result<Vec<(u32, Frac)>, NearFault>
    requires entries { AreOfTrips trips.now tree.now.entries }
    requires asked { IsAskedBox (operand_of asked.now) area.now }
    requires some { 0 < k }
    ensures nearest { IfOk result (λ rs. AreNearest trips.now (operand_of asked.now) k rs.items) }
    ensures cost { IfOk result (λ rs. steps.new ≤ steps.old + count_within (reach_of k rs.items) area.now tree.now.entries) }
    ensures passed { IfErr result (OnCause (λ f. IsPassed trips.now (operand_of asked.now) k f.0 f.1)) }
{
    let mut found = Vec::new(alloc);
    let Some(root) = tree.root() else {
        return Ok(found);
    };
    let mut heap = BinaryHeap::new(alloc);
    wait(&mut heap, Frac::zero(), WaitingKind::Node(root))?;
    'taking: while let Some(first) = heap.pop() {
        advance(
            alloc, tree, trips, asked, area, &first, &mut heap, &mut found, steps,
        )?;
        if found.len() == k as usize {
            return Ok(found);
        }
    }
    Ok(found)
}

/// The `k` rows whose trips come nearest to `asked`, by their numbers from 0, each with the square
/// of its nearest approach, ordered by approach and then by row. Rows without an approach are left
/// out, so there may be fewer than `k`. The entries of the tree are the boxes of the trips with
/// their rows, as `index_of` makes them.
///
/// A step is one call of `approach_squared`. There is at most one for each row whose gap is at most
/// the last answer's approach, or, if there are fewer than `k` answers, for each row that is not
/// apart from `asked`. The fault names a row only if a part of its trip does not fit, and fewer
/// than `k` rows have an approach below that row's gap. `NoMemory` comes if an allocation fails.
pub fn nearest<L: Ledger>(
    alloc: Global,
    tree: &RTree,
    trips: &[Option<Moving<PlaneLine>>],
    asked: Operand<'_, PlaneLine>,
    k: u32,
    steps: &mut Steps<L>,
) -> Result<Items<(u32, Frac)>, NearFault>
    requires entries { AreOfTrips trips.now tree.now.entries }
    ensures nearest { IfOk result (λ rs. AreNearest trips.now (operand_of asked.entry) k rs) }
    ensures cost { IfOk result (λ rs. (q : BoxOf) → IsAskedBox (operand_of asked.entry) q → steps.new ≤ steps.old + count_within (reach_of k rs) q tree.now.entries) }
    ensures passed { IfErr result (OnCause (λ f. IsPassed trips.now (operand_of asked.entry) k f.0 f.1)) }
{
    if k == 0 {
        let_go(asked);
        return Ok(Items::new(alloc));
    }
    let area = box_of_asked(&asked);
    let found = search(alloc, tree, trips, &asked, &area, k, steps);
    let_go(asked);
    match found {
        Ok(found) => Ok(Items::from_vec(found)),
        Err(fault) => Err(fault),
    }
}
