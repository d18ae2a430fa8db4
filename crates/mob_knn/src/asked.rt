//! What a search asks for: a moving point or a point.
ghost use Rattle.std.specs.Prelude.{◌≡◌, true, is_some};
ghost use Rattle.mob_slice.specs.Sides.{operand_of};
ghost use Rattle.mob_knn.specs.Nearest.{IsAskedBox};

use mob_slice::{Operand, PlaneLine};
use mob_stbox::{Area, StBox};
use mob_value::box_of;

/// A second borrow of an operand.
pub fn again<'a>(asked: &Operand<'a, PlaneLine>) -> Operand<'a, PlaneLine>
    ensures same { operand_of result ≡ operand_of asked.now }
{
    match asked {
        Operand::Moving(moving) => Operand::Moving(*moving),
        Operand::Fixed(point) => Operand::Fixed(*point),
    }
}

/// The box of an operand; a point's box has no time.
pub fn box_of_asked(asked: &Operand<'_, PlaneLine>) -> StBox
    ensures its { IsAskedBox (operand_of asked.now) result }
    ensures space { is_some result.space ≡ true }
{
    match asked {
        Operand::Moving(moving) => box_of(moving),
        Operand::Fixed(point) => match StBox::new(Some(Area::between(point, point)), None) {
            Some(found) => found,
            None => unreachable!(),
        },
    }
}

/// Drops an operand, which only borrows.
pub fn let_go(asked: Operand<'_, PlaneLine>) {
    match asked {
        Operand::Moving(_) => (),
        Operand::Fixed(_) => (),
    }
}
