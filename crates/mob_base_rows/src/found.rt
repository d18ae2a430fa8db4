//! The result of a search.
ghost use Rattle.std.specs.Prelude.{◌≡◌, ◌<◌};

use mob_list::steps::Steps;
use mob_rtree::RTree;
use mob_stbox::StBox;
use std::alloc::Global;
use std::marker::Brand;
use std::sync::ledger::{Blank, Ledger};

fn finds_counted<L: Ledger>(
    alloc: Global,
    blank: Blank,
    tree: &RTree,
    asked: &StBox,
    ids: &[u32],
) -> bool
    requires name { blank.name ≡ L.name }
    requires parts { blank.parts ≡ L.parts }
    requires some { 0 < L.parts }
{
    let mut steps = Steps::<L>::new(blank);
    let mut into = Vec::new(alloc);
    match &tree.search(asked, &mut into, &mut steps) {
        Ok(()) => into.as_slice() == ids,
        Err(_) => false,
    }
}

/// Whether a search for this box finds exactly these ids, in this order.
pub fn finds(alloc: Global, tree: &RTree, asked: &StBox, ids: &[u32]) -> bool {
    finds_counted::<Brand>(alloc, Blank::new(1), tree, asked, ids)
}
