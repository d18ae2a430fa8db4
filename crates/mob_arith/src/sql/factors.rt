//! The factors of a product with a linear result.
ghost use Rattle.std.specs.Prelude.{◌≡◌, ◌||◌, true, IfSome, option_map};
ghost use Rattle.mob_slice.specs.Sides.{operand_of, has_slices};
ghost use Rattle.mob_value.specs.Pairs.{operands_of};
ghost use Rattle.mob_arith.specs.Sql.Factors.{factors};

use mob_frac::Frac;
use mob_slice::{Line, Operand, Steady};
use mob_value::Value;

/// A line, and the numbers by which it is multiplied, which change in steps.
type Factors<'a> = (Operand<'a, Line>, Operand<'a, Steady<Frac>>);

/// The factors of a product: a tfrac, and a number that changes in steps; `None` if the operands
/// are not such a pair.
pub fn factors<'a>(left: &'a Value, right: &'a Value) -> Option<Factors<'a>>
    ensures operands { option_map operands_of result ≡ factors left.now right.now }
    ensures moving { IfSome result (λ p. (has_slices (operand_of p.0) || has_slices (operand_of p.1)) ≡ true) }
{
    match left {
        Value::MovingFrac(a) => match right {
            Value::MovingInt(b) => Some((Operand::Moving(a), Operand::Moving(b))),
            Value::Number(b) => Some((Operand::Moving(a), Operand::Fixed(b))),
            _ => None,
        },
        Value::MovingInt(a) => match right {
            Value::MovingFrac(b) => Some((Operand::Moving(b), Operand::Moving(a))),
            _ => None,
        },
        Value::Number(a) => match right {
            Value::MovingFrac(b) => Some((Operand::Moving(b), Operand::Fixed(a))),
            _ => None,
        },
        _ => None,
    }
}
