//! The concatenation of temporal texts.

ghost use Rattle.std.specs.Prelude.{◌≡◌, true, ◌||◌, IfOk};
ghost use Rattle.mob_slice.specs.Sides.{operand_of, has_slices, given_at};
ghost use Rattle.mob_slice.specs.Operands.{steady_value, IsPointwise};
ghost use Rattle.mob_arith.specs.Operations.{text_of};

use crate::operate::operate;
use crate::operation::Joining;
use mob_list::text::Text;
use mob_slice::{Moving, Operand, Steady};
use std::alloc::{AllocError, Global};

/// The first text followed by the second, at each instant at which both have a value. `None`
/// exactly if no such instant exists. The only error is a failed allocation.
pub fn join_text(
    alloc: Global,
    a: Operand<'_, Steady<Text>>,
    b: Operand<'_, Steady<Text>>,
) -> Result<Option<Moving<Steady<Text>>>, AllocError>
    requires moving { (has_slices (operand_of a) || has_slices (operand_of b)) ≡ true }
    ensures value { IfOk result (λ r. IsPointwise steady_value text_of (given_at steady_value (operand_of a.entry)) (given_at steady_value (operand_of b.entry)) r) }
{
    operate::<Steady<Text>, Steady<Text>, Joining>(alloc, a, b)
}
