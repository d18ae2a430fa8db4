//! The items in the heap of a search, and the order in which they are taken.
ghost use Rattle.std.specs.Prelude.{◌≡◌, ◌∷◌, ◌++◌, OnOk, IfErr};
ghost use Rattle.std.proofs.Common.{rules};
ghost use Rattle.std.specs.BinaryHeap.{heap_items, KeepsHeap};
ghost use Rattle.std.specs.Cmp.{partial_order_from_own_ties};
ghost use Rattle.std.specs.Cmp.Rules.{comparing};
ghost use Rattle.std.specs.List.Sorted.{IsPermutation};
ghost use Rattle.std.specs.Ordering.{as_partial_cmp, eq_by_cmp};
ghost use Rattle.mob_slice.specs.Ranks.{compare_ratio};
ghost use Rattle.mob_list.specs.declared.fault.Fault.TheVariants.{NoMemory};
ghost use Rattle.mob_knn.specs.Waits.{what_of, waiting_cmp, waiting_total, rank_of, waiting_number, waits_at, waits_of};

use crate::fault::NearFault;
use crate::gaps::Gap;
use crate::gaps::measure::gap;
use mob_frac::Frac;
use mob_plane::greater;
use mob_rtree::Child;
use mob_stbox::StBox;
use std::alloc::Global;
use std::cmp::Ordering;
use std::collections::BinaryHeap;

/// The kind of an item.
#[derive(Clone, Copy, Drop)]
pub enum WaitingKind {
    /// A node of the tree.
    Node(u32),
    /// The row of a trip.
    Entry(u32),
    /// A row whose approach is known.
    Answer(u32),
}

/// An item with its key.
#[derive(Clone, Copy, Drop)]
pub struct Waiting {
    /// A lower bound of all approaches below a node or of an entry; the approach of an answer.
    pub key: Frac,
    /// Its kind.
    pub what: WaitingKind,
}

impl WaitingKind {
    // Among equal keys answers come last, so every row that may have the same approach is known by
    // then.
    fn rank(&self) -> u8
        ensures value { result ≡ rank_of self.now }
    {
        match self {
            WaitingKind::Node(_) => 0,
            WaitingKind::Entry(_) => 1,
            WaitingKind::Answer(_) => 2,
        }
    }

    fn number(&self) -> u32
        ensures value { result ≡ waiting_number self.now }
    {
        match self {
            WaitingKind::Node(n) => *n,
            WaitingKind::Entry(row) => *row,
            WaitingKind::Answer(row) => *row,
        }
    }
}

// The order of two keys.
fn compare_keys(a: &Frac, b: &Frac) -> Ordering
    ensures value { result ≡ compare_ratio a.now b.now }
{
    if a.is_before(b) {
        return Ordering::Less;
    }
    if b.is_before(a) {
        return Ordering::Greater;
    }
    Ordering::Equal
}

impl PartialEq for Waiting {
    ghost eq = { eq_by_cmp waiting_cmp };

    ghost laws = { Prim.search (comparing, rules, waiting_total) };

    fn eq(&self, other: &Waiting) -> bool {
        self.cmp(other) == Ordering::Equal
    }
}

impl Eq for Waiting {
    ghost laws = { Prim.search (comparing, rules, waiting_total) };
}

impl Ord for Waiting {
    ghost cmp = { waiting_cmp };

    ghost total = { waiting_total };

    ghost matches_partial_cmp = { Prim.search (comparing, rules) };

    ghost matches_eq = { Prim.search (comparing, rules) };

    /// A heap takes the greatest first, so the least key compares as greatest.
    fn cmp(&self, other: &Waiting) -> Ordering {
        let by_rank = other.what.rank().cmp(&self.what.rank());
        let by_number = other.what.number().cmp(&self.what.number());
        compare_keys(&other.key, &self.key).then(by_rank.then(by_number))
    }
}

impl PartialOrd for Waiting {
    ghost partial_cmp = { as_partial_cmp waiting_cmp };

    ghost laws = { partial_order_from_own_ties (Prim.search (comparing, rules, waiting_total)) (Prim.search (comparing, rules)) };

    fn partial_cmp(&self, other: &Waiting) -> Option<Ordering> {
        Some(self.cmp(other))
    }
}

// A child of a node as an item.
fn what_of(child: &Child) -> WaitingKind
    ensures value { result ≡ what_of child.now }
{
    match child {
        Child::Node(n) => WaitingKind::Node(*n),
        Child::Entry(row) => WaitingKind::Entry(*row),
    }
}

/// Pushes one more item onto the heap.
pub fn wait(heap: &mut BinaryHeap<Waiting>, key: Frac, what: WaitingKind) -> Result<(), NearFault>
    ensures more { OnOk result (IsPermutation (record { key = key; what = what } ∷ heap_items heap.old) (heap_items heap.new)) }
    ensures order { OnOk result (KeepsHeap waiting_cmp (heap_items heap.old) (heap_items heap.new)) }
    ensures err { IfErr result (λ e. e ≡ NoMemory) }
{
    Ok(heap.push(Waiting { key, what })?)
}

/// Pushes the children of a node onto the heap, except those that are apart from the asked box.
/// `floor` is the node's key.
pub fn open(
    heap: &mut BinaryHeap<Waiting>,
    kids: &[(StBox, Child)],
    floor: &Frac,
    asked: &StBox,
) -> Result<(), NearFault>
    ensures more { OnOk result (IsPermutation (waits_of floor.now asked.now kids.now ++ heap_items heap.old) (heap_items heap.new)) }
    ensures order { OnOk result (KeepsHeap waiting_cmp (heap_items heap.old) (heap_items heap.new)) }
    ensures err { IfErr result (λ e. e ≡ NoMemory) }
{
    for kid in kids {
        open_kid(heap, &kid.0, &kid.1, floor, asked)?;
    }
    Ok(())
}

// Pushes one child onto the heap, unless it is apart from the asked box.
fn open_kid(
    heap: &mut BinaryHeap<Waiting>,
    area: &StBox,
    child: &Child,
    floor: &Frac,
    asked: &StBox,
) -> Result<(), NearFault>
    ensures more { OnOk result (IsPermutation (waits_at floor.now asked.now (area.now, child.now) ++ heap_items heap.old) (heap_items heap.new)) }
    ensures order { OnOk result (KeepsHeap waiting_cmp (heap_items heap.old) (heap_items heap.new)) }
    ensures err { IfErr result (λ e. e ≡ NoMemory) }
{
    match gap(area, asked) {
        Gap::Apart => Ok(()),
        Gap::AtLeast(least) => wait(heap, greater(floor, &least), what_of(child)),
    }
}
