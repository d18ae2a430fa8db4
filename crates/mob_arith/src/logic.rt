//! The logic of temporal booleans.

ghost use Rattle.std.specs.Prelude.{◌≡◌, true, ◌||◌, not, IfOk, option_map};
ghost use Rattle.mob_ratio.specs.Ratio.{Ratio};
ghost use Rattle.mob_slice.specs.Slices.{value_at};
ghost use Rattle.mob_slice.specs.Sides.{operand_of, has_slices, given_at};
ghost use Rattle.mob_slice.specs.Operands.{steady_value, IsPointwise};
ghost use Rattle.mob_arith.specs.Operations.{both_hold, one_holds};

use crate::operate::operate;
use crate::operation::{Conjunction, Disjunction, Exclusion};
use mob_slice::{Moving, Operand, Steady};
use std::alloc::{AllocError, Global};

/// Whether both operands are true, at each instant at which both have a value. `None` exactly if no
/// such instant exists. The only error is a failed allocation.
pub fn and(
    alloc: Global,
    a: Operand<'_, Steady<bool>>,
    b: Operand<'_, Steady<bool>>,
) -> Result<Option<Moving<Steady<bool>>>, AllocError>
    requires moving { (has_slices (operand_of a) || has_slices (operand_of b)) ≡ true }
    ensures value { IfOk result (λ r. IsPointwise steady_value both_hold (given_at steady_value (operand_of a.entry)) (given_at steady_value (operand_of b.entry)) r) }
{
    operate::<Steady<bool>, Steady<bool>, Conjunction>(alloc, a, b)
}

/// Whether at least one operand is true, at each instant at which both have a value. `None` exactly
/// if no such instant exists. The only error is a failed allocation.
pub fn or(
    alloc: Global,
    a: Operand<'_, Steady<bool>>,
    b: Operand<'_, Steady<bool>>,
) -> Result<Option<Moving<Steady<bool>>>, AllocError>
    requires moving { (has_slices (operand_of a) || has_slices (operand_of b)) ≡ true }
    ensures value { IfOk result (λ r. IsPointwise steady_value one_holds (given_at steady_value (operand_of a.entry)) (given_at steady_value (operand_of b.entry)) r) }
{
    operate::<Steady<bool>, Steady<bool>, Disjunction>(alloc, a, b)
}

/// The negation at each instant. The only error is a failed allocation.
pub fn not(alloc: Global, a: &Moving<Steady<bool>>) -> Result<Moving<Steady<bool>>, AllocError>
    ensures value { IfOk result (λ v. (t : Ratio) → value_at steady_value v t ≡ option_map not (value_at steady_value a.now t)) }
{
    // This call gives the proof that `a` has a slice, so that the result has one.
    let _ = a.slices();
    match operate::<Steady<bool>, Steady<bool>, Exclusion>(
        alloc,
        Operand::Moving(a),
        Operand::Fixed(&true),
    ) {
        Ok(Some(value)) => Ok(value),
        Ok(None) => unreachable!(),
        Err(fault) => Err(fault),
    }
}
