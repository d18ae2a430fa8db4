//! The places by which a built tree is packed. They are ranks along each axis, so that an outlier
//! does not crowd the others together. No clause speaks of them: a tree finds the same entries
//! wherever they are.

use crate::lengths::{Axis, PARTS, ends_of, rounded};
use crate::node::Child;
use mob_frac::Frac;
use mob_stbox::StBox;
use std::alloc::{AllocError, Global};

/// A key by which fractions are sorted: the whole units of 2^-62, and those of 2^-124 in the
/// remainder. Two different fractions with parts below 2^62 differ by more than 2^-124.
type Exact = (i128, i128);

fn exact(f: &Frac) -> Exact {
    let whole = rounded(f);
    let den = f.den() as i128;
    let parts = (f.num() as i128).saturating_mul(PARTS);
    let rest = parts.saturating_sub(whole.saturating_mul(den));
    let fine = rest.saturating_mul(PARTS);
    (whole, fine.checked_div(den).unwrap_or(0))
}

/// The ends of these children along an axis, sorted, each with the number of its child.
fn ordered_ends(
    alloc: Global,
    kids: &[(StBox, Child)],
    axis: Axis,
) -> Result<Vec<((Exact, Exact), usize)>, AllocError> {
    let mut ends = Vec::new(alloc);
    for (i, kid) in kids.iter().enumerate() {
        let (least, greatest) = ends_of(&kid.0, axis);
        ends.push(((exact(&least), exact(&greatest)), i))?;
    }
    ends.sort_unstable();
    Ok(ends)
}

/// The ranks of children along an axis.
#[derive(Drop)]
pub struct Ranks {
    of: Vec<u64>,
    greatest: u64,
}

impl Ranks {
    /// The ranks of these children, in their order. Children with the same ends have the same rank.
    pub fn along(alloc: Global, kids: &[(StBox, Child)], axis: Axis) -> Result<Ranks, AllocError> {
        let ends = ordered_ends(alloc, kids, axis)?;
        let mut of = vec![in alloc; 0u64; kids.len()]?;
        let mut greatest = 0u64;
        let mut before = None;
        for (own, kid) in &ends {
            if before != Some(own) {
                greatest = greatest.saturating_add(1);
            }
            before = Some(own);
            if let Some(rank) = of.get_mut(*kid) {
                *rank = greatest;
            }
        }
        Ok(Ranks { of, greatest })
    }

    /// The place of a child along the axis, from 0 to below 2^21, with its bits spread so that two
    /// other axes fit between them.
    pub fn spread_place(&self, kid: usize) -> u64 {
        let rank = match self.of.get(kid) {
            Some(rank) => *rank,
            None => 0,
        };
        spread(rank.saturating_mul(2097151) / self.greatest.saturating_add(1))
    }
}

/// Spreads the bits of a number so that two others fit between each two.
fn spread(number: u64) -> u64 {
    let mut n = number;
    n = (n | (n << 32)) & 0x1f00000000ffff;
    n = (n | (n << 16)) & 0x1f0000ff0000ff;
    n = (n | (n << 8)) & 0x100f00f00f00f00f;
    n = (n | (n << 4)) & 0x10c30c30c30c30c3;
    (n | (n << 2)) & 0x1249249249249249
}
