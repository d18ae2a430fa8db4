//! The edges of all rings of a polygon, as one list.

ghost use Rattle.std.specs.Prelude.{◌≡◌, ◌++◌, OnOk, IfOk};
ghost use Rattle.mob_plane.specs.Rings.{rings_of, edges, all_edges};

use mob_plane::Point;
use std::alloc::{AllocError, Global};

// Appends the edges of a ring, from each of its points to the next.
fn push_edges(out: &mut Vec<(Point, Point)>, ring: &[Point]) -> Result<(), AllocError>
    ensures pushed { OnOk result (out.new.items ≡ out.old.items ++ edges ring.now) }
{
    let mut i = 1;
    while i < ring.len() {
        out.push((ring[i - 1], ring[i]))?;
        i = i + 1;
    }
    Ok(())
}

/// The edges of all rings, each as its two ends, ring by ring. A ring whose points do not close has
/// no edge from its last point to its first. The only error is a failed allocation.
pub fn edges_of(alloc: Global, rings: &[Vec<Point>]) -> Result<Vec<(Point, Point)>, AllocError>
    ensures edges { IfOk result (λ v. v.items ≡ all_edges (rings_of rings.now)) }
{
    let mut out = Vec::new(alloc);
    for ring in rings {
        push_edges(&mut out, ring.as_slice())?;
    }
    Ok(out)
}
