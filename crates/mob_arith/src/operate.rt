//! An operation without formulas on two operands that change in steps.

ghost use Rattle.std.specs.Prelude.{◌≡◌, true, ◌||◌, [], IfOk, IfErr};
ghost use Rattle.mob_slice.specs.Operands.{IsPointwise, steady_value, steady_limit};
ghost use Rattle.mob_slice.specs.Sides.{operand_of, has_slices, given_at, piece_of};
ghost use Rattle.mob_lift.specs.Given.{IsGiven, on_sides, AreLifted};

use crate::operation::Operation;
use mob_lift::normal::normal;
use mob_lift::walks::Pieces;
use mob_lift::{lift, single};
use mob_list::fault::Fault;
use mob_slice::{Course, Formula, Moving, Operand, Piece, Slice, Steady};
use std::alloc::{AllocError, Global};

// The operation on one piece.
fn on_steps<A: Course, B: Course, O: Operation<A::Base, B::Base>>(
    alloc: Global,
    piece: &Piece<'_, A, B>,
) -> Result<Vec<Slice<Steady<O::Base>>>, Fault<Formula>>
    requires left { A.STEADY ≡ true }
    requires right { B.STEADY ≡ true }
    ensures given { IsGiven steady_value steady_limit steady_limit (λ v. v.items) (on_sides A.value_of B.value_of O.result_of (piece_of piece.now)) piece.now.span [] result }
{
    let value = O::apply(alloc, piece.left.start(), piece.right.start())?;
    // A method call gives the proof the invariant of a span.
    let _ = piece.span.lower();
    single(alloc, piece.span, value)
}

// The slices of the operation on two operands.
fn steps_of<A: Course, B: Course, O: Operation<A::Base, B::Base>>(
    alloc: Global,
    a: Operand<'_, A>,
    b: Operand<'_, B>,
) -> Result<Vec<Slice<Steady<O::Base>>>, Fault<Formula>>
    requires left { A.STEADY ≡ true }
    requires right { B.STEADY ≡ true }
    requires moving { (has_slices (operand_of a) || has_slices (operand_of b)) ≡ true }
    ensures slices { IfOk result (λ all. AreLifted A.value_of B.value_of steady_value steady_limit steady_limit O.result_of (operand_of a.entry) (operand_of b.entry) all.items) }
    ensures memory { IfErr result (λ e. e ≡ Fault.NoMemory) }
{
    lift(
        alloc,
        Pieces::new(a, b),
        |piece: &Piece<'_, A, B>| -> Result<Vec<Slice<Steady<O::Base>>>, Fault<Formula>>
            requires left { A.STEADY ≡ true }
            requires right { B.STEADY ≡ true }
            ensures given { IsGiven steady_value steady_limit steady_limit (λ v. v.items) (on_sides A.value_of B.value_of O.result_of (piece_of piece.now)) piece.now.span [] result }
        { on_steps::<A, B, O>(alloc, piece) },
    )
}

/// The operation on two operands at each instant, as a normal value. The only error is a failed
/// allocation.
pub fn operate<A: Course, B: Course, O: Operation<A::Base, B::Base>>(
    alloc: Global,
    a: Operand<'_, A>,
    b: Operand<'_, B>,
) -> Result<Option<Moving<Steady<O::Base>>>, AllocError>
    requires left { A.STEADY ≡ true }
    requires right { B.STEADY ≡ true }
    requires moving { (has_slices (operand_of a) || has_slices (operand_of b)) ≡ true }
    ensures value { IfOk result (λ r. IsPointwise steady_value O.result_of (given_at A.value_of (operand_of a.entry)) (given_at B.value_of (operand_of b.entry)) r) }
{
    let slices = match steps_of::<A, B, O>(alloc, a, b) {
        Ok(slices) => slices,
        Err(Fault::NoMemory) => return Err(AllocError),
        Err(Fault::Because(_)) => unreachable!(),
    };
    match normal(alloc, slices) {
        Ok(value) => Ok(value),
        Err(_) => Err(AllocError),
    }
}
