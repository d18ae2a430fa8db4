//! The R-tree.
ghost use Rattle.std.specs.Prelude.{◌≡◌, ◌≢◌, ℕ, ◌+◌, ◌*◌, ◌<◌, ◌≤◌, count_by, length, OnOk, OnErr, IfOk, IfSome, IsOk, MatchOption, All, true, false, List, [], ◌++◌, IsSorted, None};
ghost use Rattle.std.specs.List.Sorted.{IsNonDecreasing};
ghost use Rattle.std.specs.Ordering.{nat_cmp};
ghost use Rattle.mob_stbox.specs.Boxes.{overlaps, is_whole};
ghost use Rattle.mob_rtree_nodes.specs.Tree.{entry_of, is_fit, IsAdded, AreSame, AreFound};
ghost use Rattle.mob_rtree_nodes.specs.Ids.{without_ids};
ghost use Rattle.mob_rtree_nodes.specs.Reach.{HaveOneDepth, IsReachedNode, IsSpread, children, entries_under};
ghost use Rattle.mob_rtree.specs.Shape.{Shape, IsAsBefore, AreUsedAgain, HasLeastBox, boxes_of};

use mob_list::steps::Steps;
use mob_rtree_nodes::node::{Child, Root, TreeNode};
use mob_rtree_nodes::remove::Removed;
use mob_rtree_nodes::whole::{gather, put_any, raise_entries, take_entry, take_ids};
use mob_stbox::StBox;
use std::alloc::{AllocError, Global};
use std::marker::Model;
use std::sync::ledger::Ledger;

/// Entries, each a box of space and time with an id, such that a search by a box needs few box
/// tests. An entry may occur more than once. Only `new` and `build` take an allocator, which the
/// tree keeps.
#[derive(Drop)]
pub struct RTree {
    nodes: Vec<TreeNode>,
    // The numbers of the dropped nodes; it has room for all numbers.
    free: Vec<u32>,
    root: Root,
    spare: usize,
}

impl Model for RTree {
    ghost use Rattle.std.specs.Prelude.{◌≡◌, ℕ, ◌+◌, ◌^◌, ◌<◌, ◌≤◌, length, [], map};
    ghost use Rattle.std.specs.Vec.{vec_len, vec_capacity};
    ghost use Rattle.mob_rtree.specs.Shape.{Shape};
    ghost use Rattle.mob_rtree_nodes.specs.Reach.{branch_of, root_number};
    ghost use Rattle.mob_rtree_nodes.specs.Tree.{IsTree, IsFree, ref, entries_list, areas_list};

    ghost Value = { Shape };

    ghost view = { λ t. record { entries = entries_list t.nodes.items; areas = areas_list t.nodes.items; spare = t.spare; nodes = map branch_of t.nodes.items; root = root_number t.nodes.items t.root.node } };

    ghost invariant = { λ t. ((0 < length t.nodes.items) → IsTree (ref t.root) t.nodes.items) × IsFree t.free.items t.nodes.items × (length t.nodes.items ≤ 2 ^ 32) × (length t.nodes.items ≤ vec_capacity t.free) × ((0 < t.spare) → (length t.nodes.items + t.root.height + 2 ≤ 2 ^ 32) × (vec_len t.nodes + t.root.height + 2 ≤ vec_capacity t.nodes) × (length t.nodes.items + t.root.height + 2 ≤ vec_capacity t.free)) };
}

impl RTree {
    /// The tree without entries.
    pub fn new(alloc: Global) -> RTree
        ensures empty { result ≡ record { entries = []; areas = []; spare = 0; nodes = []; root = None } }
    {
        RTree {
            nodes: Vec::new(alloc),
            free: Vec::new(alloc),
            root: Root::default(),
            spare: 0,
        }
    }

    /// A tree of these entries, with near ones next to each other. It is faster than as many calls
    /// of `insert`, and its tree is usually faster to search. The only error is a failed
    /// allocation.
    pub fn build(alloc: Global, entries: Vec<(StBox, u32)>) -> Result<RTree, AllocError>
        requires whole { All (λ e. is_whole e.0 ≡ true) entries.items }
        ensures entries { IfOk result (λ t. AreSame t.entries entries.items) }
    {
        if entries.is_empty() {
            return Ok(RTree::new(alloc));
        }
        let mut nodes = Vec::new(alloc);
        let root = raise_entries(alloc, &mut nodes, entries.as_slice())?;
        let free = Vec::with_capacity(alloc, nodes.len())?;
        Ok(RTree {
            nodes,
            free,
            root,
            spare: 0,
        })
    }

    /// Reserves memory for one more entry, so that the next `insert` cannot fail. The only error is
    /// a failed allocation.
    pub fn reserve_one(&mut self) -> Result<(), AllocError>
        ensures same { IsAsBefore self.old self.new }
        ensures spare { OnOk result (0 < self.new.spare) }
        ensures kept { OnErr result (self.new.spare ≡ self.old.spare) }
    {
        let count = self.nodes.len();
        let height = self.root.height as usize;
        if height > 2147483648 || count > 2147483646 {
            return Err(AllocError);
        }
        self.nodes.reserve(height + 2)?;
        self.free
            .reserve((count + height + 2).saturating_sub(self.free.len()))?;
        self.spare = 1;
        Ok(())
    }

    // Reserves memory for one more entry, unless there is some.
    fn make_room(&mut self) -> Result<(), AllocError>
        ensures same { IsAsBefore self.old self.new }
        ensures spare { OnOk result (0 < self.new.spare) }
        ensures has { 0 < self.old.spare → IsOk result }
    {
        if self.spare > 0 {
            return Ok(());
        }
        self.reserve_one()
    }

    // Adds an entry for which there is memory.
    fn add_entry(&mut self, kid: (StBox, Child))
        requires spare { 0 < self.old.spare }
        requires fit { is_fit 0 kid ≡ true }
        ensures added { IsAdded self.old.entries (entry_of kid) self.new.entries }
        ensures again { AreUsedAgain self.old.nodes self.new.nodes }
    {
        self.spare = 0;
        self.root = put_any(&mut self.nodes, &mut self.free, self.root, kid);
    }

    /// Adds an entry. The only error is a failed allocation; there is none if `reserve_one`
    /// reserved memory and no entry was inserted since.
    pub fn insert(&mut self, b: StBox, id: u32) -> Result<(), AllocError>
        requires whole { is_whole b ≡ true }
        ensures ok { OnOk result (IsAdded self.old.entries (b, id) self.new.entries) }
        ensures err { OnErr result (IsAsBefore self.old self.new) }
        ensures spare { 0 < self.old.spare → IsOk result }
        ensures again { AreUsedAgain self.old.nodes self.new.nodes }
    {
        self.make_room()?;
        self.add_entry((b, Child::Entry(id)));
        Ok(())
    }

    /// Removes one entry with this box and id, and returns whether there was one. It allocates
    /// nothing, and uses none of the memory of `reserve_one`.
    pub fn remove(&mut self, b: &StBox, id: u32) -> bool
        ensures found { result ≡ true → IsAdded self.new.entries (b.now, id) self.old.entries }
        ensures missing { result ≡ false → All (λ e. e ≢ (b.now, id)) self.old.entries }
        ensures same { result ≡ false → IsAsBefore self.old self.new }
        ensures spare { self.new.spare ≡ self.old.spare }
    {
        if self.nodes.is_empty() {
            return false;
        }
        let removed = take_entry(&mut self.nodes, &mut self.free, self.root, b, id);
        match removed {
            Removed::Missing => false,
            Removed::Narrowed(area) => {
                self.root.area = area;
                true
            }
            Removed::Emptied => {
                self.nodes.clear();
                self.free.clear();
                true
            }
        }
    }

    /// Removes every entry whose id is one of these, which must be sorted. It visits all nodes,
    /// whatever the ids, and computes each box once, so it is meant for many ids at a time. It
    /// allocates nothing, and uses none of the memory of `reserve_one`.
    pub fn remove_ids(&mut self, ids: &[u32])
        requires rising { IsNonDecreasing ids.now }
        ensures left { AreSame self.new.entries (without_ids ids.now self.old.entries) }
        ensures spare { self.new.spare ≡ self.old.spare }
    {
        if self.nodes.is_empty() {
            return;
        }
        match take_ids(&mut self.nodes, &mut self.free, self.root, ids) {
            Some(area) => self.root.area = area,
            None => {
                self.nodes.clear();
                self.free.clear();
            }
        }
    }

    /// Appends the ids of the entries whose box meets the given one, in ascending order, each as
    /// often as the entry occurs. The only error is a failed allocation. An error leaves `into`
    /// unchanged.
    pub fn search<L: Ledger>(
        &self,
        q: &StBox,
        into: &mut Vec<u32>,
        steps: &mut Steps<L>,
    ) -> Result<(), AllocError>
        ensures found { OnOk result ((more : List ℕ) × (into.new.items ≡ into.old.items ++ more) × IsSorted nat_cmp more × AreFound q.now self.now.entries more) }
        ensures err { OnErr result (into.new.items ≡ into.old.items) }
        // A step is a test of one box. There are at most 16 for each node whose box meets the given
        // one, and one more.
        ensures cost { steps.new ≤ steps.old + (1 + 16 * count_by (λ b. overlaps b q.now) self.now.areas) }
    {
        if self.nodes.is_empty() {
            return Ok(());
        }
        gather(&self.nodes, &self.root, q, into, steps)
    }

    /// The number of the root; `None` exactly if there are no entries. Each entry is below it as
    /// often as it occurs.
    pub fn root(&self) -> Option<u32>
        ensures is { result ≡ self.now.root }
        ensures none { MatchOption result (self.now.entries ≡ []) (λ n. 0 < length self.now.entries) }
        ensures under { IfSome result (λ n. AreSame (entries_under self.now.nodes n) self.now.entries) }
    {
        if self.nodes.is_empty() {
            return None;
        }
        Some(self.root.node)
    }

    /// The children of a node that can be reached from the root; there are at most 16. Each entry
    /// below the node is below one of them, under a box that covers it.
    pub fn children(&self, node: u32) -> &[(StBox, Child)]
        requires reached { IsReachedNode self.now.nodes self.now.root node }
        ensures children { result.now ≡ children self.now.nodes node }
        ensures few { length result.now ≤ 16 }
        ensures spread { IsSpread self.now.nodes node }
    {
        self.nodes[node as usize].kids.as_slice()
    }

    // Whether there is a node. The laws of each tree's boxes and leaves are proved here, where its
    // fields are visible.
    pub(crate) fn has_root(&self) -> bool
        ensures least { All HasLeastBox self.now.nodes }
        ensures areas { self.now.areas ≡ boxes_of self.now.nodes }
        ensures depth { HaveOneDepth self.now.nodes self.now.root }
    {
        !self.nodes.is_empty()
    }
}
