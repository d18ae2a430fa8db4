//! The value of a line at an instant.
ghost use Rattle.std.specs.Prelude.{◌≡◌, true};
ghost use Rattle.mob_ratio.specs.Line.{line_at};
ghost use Rattle.mob_ratio.specs.Order.{up_to};
ghost use Rattle.mob_slice.specs.Entries.{IsMadeBy};
ghost use Rattle.mob_slice.specs.Lines.{plane_value_of};
ghost use Rattle.mob_slice.specs.Numbers.{line_numbers, plane_numbers_of};
ghost use Rattle.mob_slice.specs.declared.formula.Formula.TheVariants.{Given};

use crate::numbers::given;
use mob_frac::{Frac, interpolated};
use mob_list::fault::Fault;
use mob_plane::Point;
use mob_slice::{Formula, PlaneLine};
use mob_wide::line_at;
use std::alloc::Global;

// The number at `t`, computed in any size if it is not held.
fn broad_number_at(
    alloc: Global,
    x0: &Frac,
    x1: &Frac,
    l: &Frac,
    u: &Frac,
    t: &Frac,
) -> Result<Frac, Fault<Formula>>
    ensures made { IsMadeBy Given (line_numbers x0.now x1.now l.now u.now t.now) (λ v. v ≡ line_at x0.now x1.now l.now u.now t.now) result }
{
    let long = l.is_before(u);
    if !long {
        return Ok(*x0);
    }
    let first = t.is_same(l);
    if first {
        return Ok(*x0);
    }
    let last = t.is_same(u);
    if last {
        return Ok(*x1);
    }
    let level = x0.is_same(x1);
    if level {
        return Ok(*x0);
    }
    let number = line_at(alloc, x0, x1, l, u, t)?;
    given(alloc, &number)
}

/// The number at `t` of the line from `x0` at `l` to `x1` at `u`. The fault is `Given`, exactly if
/// it does not fit, or out of memory.
pub fn number_at(
    alloc: Global,
    x0: &Frac,
    x1: &Frac,
    l: &Frac,
    u: &Frac,
    t: &Frac,
) -> Result<Frac, Fault<Formula>>
    requires after { up_to l.now t.now ≡ true }
    requires until { up_to t.now u.now ≡ true }
    ensures made { IsMadeBy Given (line_numbers x0.now x1.now l.now u.now t.now) (λ v. v ≡ line_at x0.now x1.now l.now u.now t.now) result }
{
    match interpolated(x0, x1, l, u, t) {
        Ok(number) => Ok(number),
        Err(_) => broad_number_at(alloc, x0, x1, l, u, t),
    }
}

/// The point at `t` of a line on the span from `l` to `u`. The fault is `Given`, exactly if a
/// coordinate does not fit, or out of memory.
pub fn point_at(
    alloc: Global,
    line: &PlaneLine,
    l: &Frac,
    u: &Frac,
    t: &Frac,
) -> Result<Point, Fault<Formula>>
    requires after { up_to l.now t.now ≡ true }
    requires until { up_to t.now u.now ≡ true }
    ensures made { IsMadeBy Given (plane_numbers_of line.now l.now u.now t.now) (λ p. p ≡ plane_value_of line.now l.now u.now t.now) result }
{
    let x = number_at(alloc, &line.from.x, &line.to.x, l, u, t)?;
    let y = number_at(alloc, &line.from.y, &line.to.y, l, u, t)?;
    Ok(Point { x, y })
}
