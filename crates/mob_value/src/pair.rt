//! Pairs of operands, at least one of which is temporal.
ghost use Rattle.std.specs.Prelude.{◌≡◌, ◌||◌, true, IfSome, option_map};
ghost use Rattle.mob_slice.specs.Sides.{operand_of, has_slices};
ghost use Rattle.mob_value.specs.Pairs.{operands_of, truth_operand, number_operand, text_operand, frac_operand, point_operand, paired, truth_pair, number_pair, text_pair, frac_pair, plane_pair};

use crate::value::Value;
use mob_frac::Frac;
use mob_list::text::Text;
use mob_slice::{Course, Line, Operand, PlaneLine, Steady};

/// Two operands of the same kind of course.
pub type Pair<'a, C> = (Operand<'a, C>, Operand<'a, C>);

/// Two operands that change in steps.
pub type SteadyPair<'a, B> = Pair<'a, Steady<B>>;

fn truth_operand<'a>(value: &'a Value) -> Option<Operand<'a, Steady<bool>>>
    ensures operand { option_map operand_of result ≡ truth_operand value.now }
{
    match value {
        Value::MovingBool(a) => Some(Operand::Moving(a)),
        Value::Bool(a) => Some(Operand::Fixed(a)),
        _ => None,
    }
}

fn number_operand<'a>(value: &'a Value) -> Option<Operand<'a, Steady<Frac>>>
    ensures operand { option_map operand_of result ≡ number_operand value.now }
{
    match value {
        Value::MovingInt(a) => Some(Operand::Moving(a)),
        Value::Number(a) => Some(Operand::Fixed(a)),
        _ => None,
    }
}

fn text_operand<'a>(value: &'a Value) -> Option<Operand<'a, Steady<Text>>>
    ensures operand { option_map operand_of result ≡ text_operand value.now }
{
    match value {
        Value::MovingText(a) => Some(Operand::Moving(a)),
        Value::Text(a) => Some(Operand::Fixed(a)),
        _ => None,
    }
}

fn frac_operand<'a>(value: &'a Value) -> Option<Operand<'a, Line>>
    ensures operand { option_map operand_of result ≡ frac_operand value.now }
{
    match value {
        Value::MovingFrac(a) => Some(Operand::Moving(a)),
        Value::Number(a) => Some(Operand::Fixed(a)),
        _ => None,
    }
}

fn point_operand<'a>(value: &'a Value) -> Option<Operand<'a, PlaneLine>>
    ensures operand { option_map operand_of result ≡ point_operand value.now }
{
    match value {
        Value::MovingPoint(a) => Some(Operand::Moving(a)),
        Value::Point(a) => Some(Operand::Fixed(a)),
        _ => None,
    }
}

// Two operands, if both exist and at least one of them is temporal.
fn paired<'a, C: Course>(
    left: Option<Operand<'a, C>>,
    right: Option<Operand<'a, C>>,
) -> Option<Pair<'a, C>>
    ensures operands { option_map operands_of result ≡ paired (option_map operand_of left.entry) (option_map operand_of right.entry) }
    ensures moving { IfSome result (λ p. (has_slices (operand_of p.0) || has_slices (operand_of p.1)) ≡ true) }
{
    match right {
        Some(Operand::Moving(b)) => match left {
            Some(Operand::Moving(a)) => Some((Operand::Moving(a), Operand::Moving(b))),
            Some(Operand::Fixed(a)) => Some((Operand::Fixed(a), Operand::Moving(b))),
            None => None,
        },
        Some(Operand::Fixed(b)) => match left {
            Some(Operand::Moving(a)) => Some((Operand::Moving(a), Operand::Fixed(b))),
            Some(Operand::Fixed(_)) => None,
            None => None,
        },
        None => match left {
            Some(Operand::Moving(_)) => None,
            Some(Operand::Fixed(_)) => None,
            None => None,
        },
    }
}

/// Two truth values; `None` if neither is temporal, or one is not a truth value.
pub fn truth_pair<'a>(left: &'a Value, right: &'a Value) -> Option<SteadyPair<'a, bool>>
    ensures operands { option_map operands_of result ≡ truth_pair left.now right.now }
    ensures moving { IfSome result (λ p. (has_slices (operand_of p.0) || has_slices (operand_of p.1)) ≡ true) }
{
    paired(truth_operand(left), truth_operand(right))
}

/// Two numbers; `None` if neither is temporal, or one is not a number.
pub fn number_pair<'a>(left: &'a Value, right: &'a Value) -> Option<SteadyPair<'a, Frac>>
    ensures operands { option_map operands_of result ≡ number_pair left.now right.now }
    ensures moving { IfSome result (λ p. (has_slices (operand_of p.0) || has_slices (operand_of p.1)) ≡ true) }
{
    paired(number_operand(left), number_operand(right))
}

/// Two texts; `None` if neither is temporal, or one is not a text.
pub fn text_pair<'a>(left: &'a Value, right: &'a Value) -> Option<SteadyPair<'a, Text>>
    ensures operands { option_map operands_of result ≡ text_pair left.now right.now }
    ensures moving { IfSome result (λ p. (has_slices (operand_of p.0) || has_slices (operand_of p.1)) ≡ true) }
{
    paired(text_operand(left), text_operand(right))
}

/// Two linear numbers; `None` if neither is a tfrac, or one is a tint or not a number.
pub fn frac_pair<'a>(left: &'a Value, right: &'a Value) -> Option<Pair<'a, Line>>
    ensures operands { option_map operands_of result ≡ frac_pair left.now right.now }
    ensures moving { IfSome result (λ p. (has_slices (operand_of p.0) || has_slices (operand_of p.1)) ≡ true) }
{
    paired(frac_operand(left), frac_operand(right))
}

/// Two points; `None` if neither is temporal, or one is not a point.
pub fn plane_pair<'a>(left: &'a Value, right: &'a Value) -> Option<Pair<'a, PlaneLine>>
    ensures operands { option_map operands_of result ≡ plane_pair left.now right.now }
    ensures moving { IfSome result (λ p. (has_slices (operand_of p.0) || has_slices (operand_of p.1)) ≡ true) }
{
    paired(point_operand(left), point_operand(right))
}
