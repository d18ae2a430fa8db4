//! The simplification of a moving point.
ghost use Rattle.std.specs.Prelude.{◌≡◌, ◌≢◌, [], true, IfOk};
ghost use Rattle.mob_ratio.specs.Ratio.{Ratio, ◌*ℚ◌};
ghost use Rattle.mob_ratio.specs.Order.{up_to};
ghost use Rattle.mob_ratio.specs.Sign.{nil};
ghost use Rattle.mob_slice.specs.Entries.{IsJudged};
ghost use Rattle.mob_slice.specs.Lines.{plane_value_of};
ghost use Rattle.mob_slice.specs.Slices.{value_at};
ghost use Rattle.mob_slice.specs.Modes.{by_mode};
ghost use Rattle.mob_simplify.specs.Thinned.{IsThin, AreNear, OnRuns, tests_by_mode};
ghost use Rattle.mob_simplify.specs.Walk.{all_legs, all_tests};

use crate::passing::with_square;
use crate::skipping::walked_wide;
use crate::walking::walked;
use mob_frac::Frac;
use mob_lift::normal::normal;
use mob_list::fault::Fault;
use mob_slice::{Formula, Mode, Moving, PlaneLine, Slice};
use std::alloc::Global;

// The straight courses that replace the slices. In the narrow mode the fault is the formula of the
// first test with a part that does not fit; in the wide mode no test has parts.
fn walked_in(
    alloc: Global,
    mode: Mode,
    slices: &[Slice<PlaneLine>],
    d: &Frac,
) -> Result<Vec<Slice<PlaneLine>>, Fault<Formula>>
    requires some { slices.now ≢ [] }
    ensures legs { IfOk result (λ v. v.items ≡ all_legs d.now slices.now) }
    ensures first { IsJudged (by_mode mode (all_tests d.now slices.now) []) result }
{
    match mode {
        Mode::Narrow => walked(alloc, slices, &with_square(d)),
        Mode::Wide => match walked_wide(alloc, slices, d) {
            Ok(legs) => Ok(legs),
            Err(_) => Err(Fault::NoMemory),
        },
    }
}

/// The moving point with straight courses in place of its runs, each within the distance `d`. A run
/// goes straight from each kept break to the next; the next is the last one up to which all breaks
/// pass.
///
/// At every instant the result is within `d` of the point, and it is defined exactly where the
/// point is. With `d` 0 it is the point.
///
/// In the narrow mode the fault is the formula of the first test with a part that does not fit. The
/// tests are in the order of the runs, their kept breaks, the tested breaks, and the breaks between.
/// Each test has F1, the straight course at the break between; F2, the difference by coordinate; and
/// F6, the square of its length and that of `d`. For a kept break the tests stop at the first that
/// fails. `NoMemory` comes if an allocation fails; in the wide mode that is the only fault, and
/// tests whose result is known are skipped.
pub fn thin(
    alloc: Global,
    mode: Mode,
    a: &Moving<PlaneLine>,
    d: &Frac,
) -> Result<Moving<PlaneLine>, Fault<Formula>>
    requires not_negative { up_to nil d.now ≡ true }
    ensures thin { IfOk result (λ thin. IsThin d.now a.now thin) }
    ensures near { IfOk result (λ thin. (t : Ratio) → AreNear (d.now *ℚ d.now) (value_at plane_value_of thin t) (value_at plane_value_of a.now t)) }
    ensures same { d.now ≡ nil → IfOk result (λ thin. thin ≡ a.now) }
    ensures first { OnRuns d.now a.now (λ runs. IsJudged (tests_by_mode mode d.now runs) result) }
{
    let legs = walked_in(alloc, mode, a.slices(), d)?;
    match normal(alloc, legs) {
        Ok(Some(thin)) => Ok(thin),
        Ok(None) => unreachable!(),
        Err(_) => Err(Fault::NoMemory),
    }
}
