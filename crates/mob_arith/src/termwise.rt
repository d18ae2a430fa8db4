//! Operations on two operands that are computed from the limits of their slices.

ghost use Rattle.std.specs.Prelude.{◌≡◌, true, ◌||◌, ◌++◌, List, IfOk};
ghost use Rattle.std.specs.List.{flat_map};
ghost use Rattle.mob_ratio.specs.Ratio.{Ratio};
ghost use Rattle.mob_frac.specs.Formula.{sum_parts, difference_parts, product_parts, quotient_parts};
ghost use Rattle.mob_slice.specs.Computed.{IsComputed};
ghost use Rattle.mob_slice.specs.Operands.{IsPointwise};
ghost use Rattle.mob_slice.specs.Sides.{operand_of, has_slices, given_at, pieces, piece_of, HoldsPiece};
ghost use Rattle.mob_slice.specs.Entries.{IsJudged};
ghost use Rattle.mob_slice.specs.declared.formula.Formula.TheVariants.{F2};
ghost use Rattle.mob_lift.specs.Given.{IsGiven, on_sides, AreLifted};
ghost use Rattle.mob_arith.specs.LineSummed.{line_divided};
ghost use Rattle.mob_arith.specs.Operations.{quotient_of};
ghost use Rattle.mob_arith.specs.Summed.{IsTermwise};
ghost use Rattle.mob_arith.specs.Termwise.{entries_at_ends};

use crate::summed::Summed;
use mob_frac::Frac;
use mob_lift::normal::normal;
use mob_lift::walks::Pieces;
use mob_lift::{lift, listed};
use mob_list::fault::Fault;
use mob_slice::{Course, Formula, Line, Moving, Operand, Piece, Slice, Steady};
use std::alloc::Global;

/// An operation on the values of two courses that is computed from their limits: its result is a
/// third course.
pub trait Termwise<A: Course, B: Course, D: Course> {
    ghost op: { A.Base → B.Base → D.Base };

    /// The parts of the formula of the result.
    ghost parts: { A.Base → B.Base → List Ratio };

    /// The result. The fault is F2, exactly if a part does not fit.
    fn apply(a: &A::Base, b: &B::Base) -> Result<D::Base, Formula>
        ensures result { IsComputed F2 (parts a.now b.now) (op a.now b.now) result };

    ghost law: { (c : A) (d : B) (lower upper : Ratio) → IsTermwise A.value_of A.start_of A.end_of B.value_of B.start_of B.end_of D.value_of D.can_make D.make op c d lower upper };
}

/// The sum.
pub struct Sum;

impl<C: Summed> Termwise<C, C, C> for Sum {
    ghost op = { C.added };

    ghost parts = { λ x y. sum_parts (C.number x) (C.number y) };

    fn apply(a: &C::Base, b: &C::Base) -> Result<C::Base, Formula> {
        C::sum(a, b)
    }

    ghost law = { C.Summed.laws.sums };
}

/// The difference.
pub struct Difference;

impl<C: Summed> Termwise<C, C, C> for Difference {
    ghost op = { C.subtracted };

    ghost parts = { λ x y. difference_parts (C.number x) (C.number y) };

    fn apply(a: &C::Base, b: &C::Base) -> Result<C::Base, Formula> {
        C::difference(a, b)
    }

    ghost law = { C.Summed.laws.differences };
}

/// The product with a number that changes in steps.
pub struct Multiple;

impl<C: Summed> Termwise<C, Steady<Frac>, C> for Multiple {
    ghost op = { C.multiplied };

    ghost parts = { λ x k. product_parts (C.number x) k };

    fn apply(a: &C::Base, b: &Frac) -> Result<C::Base, Formula> {
        C::scaled(a, b)
    }

    ghost law = { C.Summed.laws.multiples };
}

/// The product with a number that changes in steps, which is the first operand.
pub struct Scaling;

impl<C: Summed> Termwise<Steady<Frac>, C, C> for Scaling {
    ghost op = { λ k x. C.multiplied x k };

    ghost parts = { λ k x. product_parts (C.number x) k };

    fn apply(a: &Frac, b: &C::Base) -> Result<C::Base, Formula> {
        C::scaled(b, a)
    }

    ghost law = { C.Summed.laws.turned };
}

/// The quotient of a number that changes linearly by one that changes in steps.
pub struct Quotient;

impl Termwise<Line, Steady<Frac>, Line> for Quotient {
    ghost op = { quotient_of };

    ghost parts = { quotient_parts };

    fn apply(a: &Frac, b: &Frac) -> Result<Frac, Formula> {
        divided(a, b)
    }

    ghost law = { line_divided };
}

// The quotient of two numbers. (By 0, which no caller passes, it is 0.)
fn divided(a: &Frac, b: &Frac) -> Result<Frac, Formula>
    ensures result { IsComputed F2 (quotient_parts a.now b.now) (quotient_of a.now b.now) result }
{
    if b.is_zero() {
        return Ok(Frac::zero());
    }
    match a.div(b) {
        Ok(value) => Ok(value),
        Err(_) => Err(Formula::F2),
    }
}

// The course of the operation on two slices, from its results on their limits.
fn course_on<A: Course + Drop, B: Course + Drop, D: Course + Drop, O: Termwise<A, B, D>>(
    left: &Slice<A>,
    right: &Slice<B>,
) -> Result<D, Formula>
where
    A::Base: Drop,
    B::Base: Drop,
    D::Base: Drop,
    ensures course { IsComputed F2 (O.parts (A.start_of left.now.course) (B.start_of right.now.course) ++ O.parts (A.end_of left.now.course) (B.end_of right.now.course)) (D.make (O.op (A.start_of left.now.course) (B.start_of right.now.course)) (O.op (A.end_of left.now.course) (B.end_of right.now.course))) result }
{
    let from = O::apply(left.course.start(), right.course.start())?;
    let to = O::apply(left.course.end(), right.course.end())?;
    Ok(D::of(from, to))
}

// The operation on one piece.
fn on_piece<A: Course + Drop, B: Course + Drop, D: Course + Drop, O: Termwise<A, B, D>>(
    alloc: Global,
    piece: &Piece<'_, A, B>,
) -> Result<Vec<Slice<D>>, Fault<Formula>>
where
    A::Base: Drop,
    B::Base: Drop,
    D::Base: Drop,
    requires holds { HoldsPiece A.start_of A.end_of B.start_of B.end_of (piece_of piece.now) }
    ensures given { IsGiven D.value_of D.start_of D.end_of (λ v. v.items) (on_sides A.value_of B.value_of O.op (piece_of piece.now)) piece.now.span (entries_at_ends A.value_of A.parts_of B.value_of B.parts_of O.parts (piece_of piece.now)) result }
{
    let left = piece.left.on(alloc, &piece.span)?;
    let right = piece.right.on(alloc, &piece.span)?;
    let course = match course_on::<A, B, D, O>(&left, &right) {
        Ok(course) => course,
        Err(formula) => return Err(Fault::Because(formula)),
    };
    // A method call gives the proof the invariant of a span.
    let _ = piece.span.lower();
    listed(
        alloc,
        Slice {
            span: piece.span,
            course,
        },
    )
}

// The slices of the operation on two operands.
fn lifted<A: Course + Drop, B: Course + Drop, D: Course + Drop, O: Termwise<A, B, D>>(
    alloc: Global,
    a: Operand<'_, A>,
    b: Operand<'_, B>,
) -> Result<Vec<Slice<D>>, Fault<Formula>>
where
    A::Base: Drop,
    B::Base: Drop,
    D::Base: Drop,
    requires moving { (has_slices (operand_of a) || has_slices (operand_of b)) ≡ true }
    ensures slices { IfOk result (λ all. AreLifted A.value_of B.value_of D.value_of D.start_of D.end_of O.op (operand_of a.entry) (operand_of b.entry) all.items) }
    ensures first { IsJudged (flat_map (entries_at_ends A.value_of A.parts_of B.value_of B.parts_of O.parts) (pieces (operand_of a.entry) (operand_of b.entry))) result }
{
    lift(
        alloc,
        Pieces::new(a, b),
        |piece: &Piece<'_, A, B>| -> Result<Vec<Slice<D>>, Fault<Formula>>
            requires holds { HoldsPiece A.start_of A.end_of B.start_of B.end_of (piece_of piece.now) }
            ensures given { IsGiven D.value_of D.start_of D.end_of (λ v. v.items) (on_sides A.value_of B.value_of O.op (piece_of piece.now)) piece.now.span (entries_at_ends A.value_of A.parts_of B.value_of B.parts_of O.parts (piece_of piece.now)) result }
        { on_piece::<A, B, D, O>(alloc, piece) },
    )
}

/// The operation on two operands at each instant at which both have a value. `None` exactly if no
/// such instant exists.
///
/// The fault names the formula of the first entry that has a part that does not fit: on each piece
/// that the operands share, F1 at its ends, then F2 there.
pub fn by_terms<A: Course + Drop, B: Course + Drop, D: Course + Drop, O: Termwise<A, B, D>>(
    alloc: Global,
    a: Operand<'_, A>,
    b: Operand<'_, B>,
) -> Result<Option<Moving<D>>, Fault<Formula>>
where
    A::Base: Drop,
    B::Base: Drop,
    D::Base: Drop,
    requires moving { (has_slices (operand_of a) || has_slices (operand_of b)) ≡ true }
    ensures value { IfOk result (λ r. IsPointwise D.value_of O.op (given_at A.value_of (operand_of a.entry)) (given_at B.value_of (operand_of b.entry)) r) }
    ensures first { IsJudged (flat_map (entries_at_ends A.value_of A.parts_of B.value_of B.parts_of O.parts) (pieces (operand_of a.entry) (operand_of b.entry))) result }
{
    let slices = lifted::<A, B, D, O>(alloc, a, b)?;
    Ok(normal(alloc, slices)?)
}
