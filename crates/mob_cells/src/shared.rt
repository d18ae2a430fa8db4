//! Whether two linear functions have one root.
ghost use Rattle.std.specs.Prelude.{◌≡◌, ◌≢◌, ◌&&◌, IfOk};
ghost use Rattle.mob_ratio.specs.Order.{same};
ghost use Rattle.mob_ratio.specs.Ratio.{◌/ℚ◌};
ghost use Rattle.mob_ratio.specs.Sign.{nil, opposite};

use mob_wide::{Broad, are_opposite};
use std::alloc::{AllocError, Global};
use std::cmp::Ordering;

// Whether `f / g` equals `e / h`.
fn in_one_ratio(
    alloc: Global,
    f: &Broad,
    g: &Broad,
    e: &Broad,
    h: &Broad,
) -> Result<bool, AllocError>
    requires left { g.now ≢ nil }
    requires right { h.now ≢ nil }
    ensures same { IfOk result (λ b. b ≡ same (f.now /ℚ g.now) (e.now /ℚ h.now)) }
{
    let left = f.over(alloc, g)?;
    let right = e.over(alloc, h)?;
    let order = left.compare(alloc, &right)?;
    match order {
        Ordering::Less => Ok(false),
        Ordering::Equal => Ok(true),
        Ordering::Greater => Ok(false),
    }
}

/// Whether the two linear functions, from `f` to `g` and from `e` to `h`, have roots between their
/// ends, and these are one. The only error is a failed allocation.
pub fn share_root(
    alloc: Global,
    f: &Broad,
    g: &Broad,
    e: &Broad,
    h: &Broad,
) -> Result<bool, AllocError>
    ensures shared { IfOk result (λ b. b ≡ (opposite f.now g.now && opposite e.now h.now && same (f.now /ℚ g.now) (e.now /ℚ h.now))) }
{
    if !are_opposite(f, g) {
        return Ok(false);
    }
    if !are_opposite(e, h) {
        return Ok(false);
    }
    in_one_ratio(alloc, f, g, e, h)
}
