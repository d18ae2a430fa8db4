//! Sums, differences and multiples of numbers over time, on every course whose values can be added.
//!
//! The fault names the formula of the first entry that has a part that does not fit: on each piece
//! that the operands share, F1 at its ends, then F2 there.

ghost use Rattle.std.specs.Prelude.{◌≡◌, ◌≢◌, true, ◌||◌, IfOk, option_map, pos};
ghost use Rattle.std.specs.List.{flat_map};
ghost use Rattle.mob_ratio.specs.Ratio.{Ratio, whole, ◌/ℚ◌};
ghost use Rattle.mob_frac.specs.Formula.{sum_parts, difference_parts, product_parts, quotient_parts};
ghost use Rattle.mob_slice.specs.Lines.{line_value_of, line_parts_of};
ghost use Rattle.mob_slice.specs.Slices.{value_at};
ghost use Rattle.mob_slice.specs.Operands.{steady_value, steady_parts, IsPointwise};
ghost use Rattle.mob_slice.specs.Sides.{operand_of, has_slices, given_at, pieces, Slices, Base};
ghost use Rattle.mob_slice.specs.Entries.{IsJudged};
ghost use Rattle.mob_arith.specs.Termwise.{entries_at_ends};

use crate::summed::Summed;
use crate::termwise::{Difference, Multiple, Quotient, Scaling, Sum, by_terms};
use mob_frac::Frac;
use mob_list::fault::Fault;
use mob_slice::{Formula, Line, Moving, Operand, Steady};
use std::alloc::Global;

/// The sum of two operands at each instant. `None` exactly if at no instant both have a value.
pub fn plus<C: Summed + Drop>(
    alloc: Global,
    a: Operand<'_, C>,
    b: Operand<'_, C>,
) -> Result<Option<Moving<C>>, Fault<Formula>>
where
    C::Base: Drop,
    requires moving { (has_slices (operand_of a) || has_slices (operand_of b)) ≡ true }
    ensures value { IfOk result (λ r. IsPointwise C.value_of C.added (given_at C.value_of (operand_of a.entry)) (given_at C.value_of (operand_of b.entry)) r) }
    ensures first { IsJudged (flat_map (entries_at_ends C.value_of C.parts_of C.value_of C.parts_of (λ x y. sum_parts (C.number x) (C.number y))) (pieces (operand_of a.entry) (operand_of b.entry))) result }
{
    by_terms::<C, C, C, Sum>(alloc, a, b)
}

/// The difference of two operands at each instant. `None` exactly if at no instant both have a
/// value.
pub fn minus<C: Summed + Drop>(
    alloc: Global,
    a: Operand<'_, C>,
    b: Operand<'_, C>,
) -> Result<Option<Moving<C>>, Fault<Formula>>
where
    C::Base: Drop,
    requires moving { (has_slices (operand_of a) || has_slices (operand_of b)) ≡ true }
    ensures value { IfOk result (λ r. IsPointwise C.value_of C.subtracted (given_at C.value_of (operand_of a.entry)) (given_at C.value_of (operand_of b.entry)) r) }
    ensures first { IsJudged (flat_map (entries_at_ends C.value_of C.parts_of C.value_of C.parts_of (λ x y. difference_parts (C.number x) (C.number y))) (pieces (operand_of a.entry) (operand_of b.entry))) result }
{
    by_terms::<C, C, C, Difference>(alloc, a, b)
}

/// The product of an operand and numbers that change in steps, at each instant. `None` exactly if
/// at no instant both have a value.
pub fn times<C: Summed + Drop>(
    alloc: Global,
    a: Operand<'_, C>,
    b: Operand<'_, Steady<Frac>>,
) -> Result<Option<Moving<C>>, Fault<Formula>>
where
    C::Base: Drop,
    requires moving { (has_slices (operand_of a) || has_slices (operand_of b)) ≡ true }
    ensures value { IfOk result (λ r. IsPointwise C.value_of C.multiplied (given_at C.value_of (operand_of a.entry)) (given_at steady_value (operand_of b.entry)) r) }
    ensures first { IsJudged (flat_map (entries_at_ends C.value_of C.parts_of steady_value steady_parts (λ x k. product_parts (C.number x) k)) (pieces (operand_of a.entry) (operand_of b.entry))) result }
{
    by_terms::<C, Steady<Frac>, C, Multiple>(alloc, a, b)
}

/// The product of a temporal number that changes in steps and a temporal value, at each instant.
/// `None` exactly if at no instant both have a value.
pub fn times_step<C: Summed + Drop>(
    alloc: Global,
    a: &Moving<Steady<Frac>>,
    b: &Moving<C>,
) -> Result<Option<Moving<C>>, Fault<Formula>>
where
    C::Base: Drop,
    ensures value { IfOk result (λ r. IsPointwise C.value_of (λ k x. C.multiplied x k) (value_at steady_value a.now) (value_at C.value_of b.now) r) }
    ensures first { IsJudged (flat_map (entries_at_ends steady_value steady_parts C.value_of C.parts_of (λ k x. product_parts (C.number x) k)) (pieces (Slices a.now) (Slices b.now))) result }
{
    by_terms::<Steady<Frac>, C, C, Scaling>(alloc, Operand::Moving(a), Operand::Moving(b))
}

/// The product of a temporal value and one number, at each of its instants.
pub fn times_const<C: Summed + Drop>(
    alloc: Global,
    a: &Moving<C>,
    k: &Frac,
) -> Result<Moving<C>, Fault<Formula>>
where
    C::Base: Drop,
    ensures value { IfOk result (λ v. (t : Ratio) → value_at C.value_of v t ≡ option_map (λ x. C.multiplied x k.now) (value_at C.value_of a.now t)) }
    ensures first { IsJudged (flat_map (entries_at_ends C.value_of C.parts_of steady_value steady_parts (λ x k. product_parts (C.number x) k)) (pieces (Slices a.now) (Base k.now))) result }
{
    // This call gives the proof that `a` has a slice, so that the result has one.
    let _ = a.slices();
    match times(alloc, Operand::Moving(a), Operand::Fixed(k)) {
        Ok(Some(value)) => Ok(value),
        Ok(None) => unreachable!(),
        Err(fault) => Err(fault),
    }
}

/// A number that changes linearly, divided by one number other than 0, at each of its instants.
pub fn over_const(alloc: Global, a: &Moving<Line>, k: &Frac) -> Result<Moving<Line>, Fault<Formula>>
    requires divides { k.now ≢ whole (pos 0) }
    ensures value { IfOk result (λ v. (t : Ratio) → value_at line_value_of v t ≡ option_map (λ x. x /ℚ k.now) (value_at line_value_of a.now t)) }
    ensures first { IsJudged (flat_map (entries_at_ends line_value_of line_parts_of steady_value steady_parts quotient_parts) (pieces (Slices a.now) (Base k.now))) result }
{
    // This call gives the proof that `a` has a slice, so that the result has one.
    let _ = a.slices();
    match by_terms::<Line, Steady<Frac>, Line, Quotient>(
        alloc,
        Operand::Moving(a),
        Operand::Fixed(k),
    ) {
        Ok(Some(value)) => Ok(value),
        Ok(None) => unreachable!(),
        Err(fault) => Err(fault),
    }
}
