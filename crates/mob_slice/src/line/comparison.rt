//! Comparisons of lines, by the signs of their gaps.

ghost use Rattle.std.specs.Prelude.{true, false};
ghost use Rattle.mob_ratio.specs.Ratio.{◌-ℚ◌};
ghost use Rattle.mob_frac.specs.Formula.{difference_parts};
ghost use Rattle.mob_slice.specs.Computed.{IsComputed};
ghost use Rattle.mob_slice.specs.LineComparison.{number_relates, number_gaps, line_comparison, point_relates, point_gaps, plane_comparison};
ghost use Rattle.mob_slice.specs.declared.formula.Formula.TheVariants.{F2};

use crate::comparison::{Compared, Gaps, Ranked, Rel};
use crate::formula::Formula;
use crate::line::{Line, PlaneLine};
use mob_frac::Frac;
use mob_plane::Point;

// The difference `a - b`. The fault is F2, exactly if the difference does not fit.
fn gap(a: &Frac, b: &Frac) -> Result<Frac, Formula>
    ensures gap { IsComputed F2 (difference_parts a.now b.now) (a.now -ℚ b.now) result }
{
    match a.sub(b) {
        Ok(gap) => Ok(gap),
        Err(_) => Err(Formula::F2),
    }
}

impl Compared for Line {
    ghost relation = { number_relates };

    ghost ordered = { true };

    ghost gaps_of = { number_gaps };

    fn relates(rel: Rel, a: &Frac, b: &Frac) -> bool {
        rel.holds(Ranked::compare(a, b))
    }

    fn gaps(a: &Frac, b: &Frac) -> Result<Gaps, Formula> {
        let gap = gap(a, b)?;
        Ok(Gaps::One(gap))
    }

    ghost laws = { line_comparison };
}

// Points can be tested for equality, and have no order.
impl Compared for PlaneLine {
    ghost relation = { point_relates };

    ghost ordered = { false };

    ghost gaps_of = { point_gaps };

    fn relates(rel: Rel, a: &Point, b: &Point) -> bool {
        match rel {
            Rel::Eq => a.is_same(b),
            Rel::Ne => !a.is_same(b),
            _ => false,
        }
    }

    fn gaps(a: &Point, b: &Point) -> Result<Gaps, Formula> {
        let x = gap(&a.x, &b.x)?;
        let y = gap(&a.y, &b.y)?;
        Ok(Gaps::Two(x, y))
    }

    ghost laws = { plane_comparison };
}
