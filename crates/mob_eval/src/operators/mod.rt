//! Each operator, on the values of its operands. The fault is its first formula with a part that
//! does not fit, which depends on the mode, and `NoMemory` comes if an allocation fails. The named
//! operators are those of the MobilityDB manual, except `nearestApproachSquared`.
ghost use Rattle.std.specs.Prelude.{◌≡◌, IfOk};
ghost use Rattle.mob_eval.specs.Views.{scene_of};
ghost use Rattle.mob_meaning.specs.Operators.{GivesOfOne, GivesOfTwo, GivesOfThree, OnEntriesOfTwo, entries_of_three};
ghost use Rattle.mob_eval.specs.SoFar.{operand_types};
ghost use Rattle.mob_slice.specs.Entries.{IsFirst};
ghost use Rattle.mob_value.specs.Held.{held};
ghost use Rattle.mob_value.specs.Outcomes.{IsOutcome};
ghost use Rattle.mob_eval.specs.Wanted.{wanted};

mod casting;
mod given;
mod meeting;
mod printed;

use crate::operators::casting::cast;
use crate::operators::given::{calculated, divided, expanded};
use crate::operators::meeting::meeting;
use crate::operators::printed::as_text;
use crate::scene::View;
use mob_arith::sql::calculation::Calculation;
use mob_arith::sql::lifting::{join, lifted_and, lifted_not, lifted_or};
use mob_ast::SqlType;
use mob_clip::sql::boxes::{box_restriction, box_value, overlap};
use mob_clip::sql::polygons::{intersects, polygon_restriction};
use mob_compare::sql::signs::sign_test;
use mob_compare::sql::true_times::true_time;
use mob_compare::sql::when::When;
use mob_list::fault::Fault;
use mob_near::sql::nearness::{nearest_approach, within};
use mob_operators::Op;
use mob_ordinary::comparison::test;
use mob_ordinary::logic::{conjunction, disjunction, is_null, negation as contrary, truth_of};
use mob_ordinary::numbers::{negation, unchanged};
use mob_restrict::sql::by_value::value_restriction;
use mob_restrict::sql::coordinates::{east, north};
use mob_restrict::sql::defined::defined_time;
use mob_restrict::sql::look::look_up;
use mob_restrict::sql::restriction::restriction;
use mob_slice::{Formula, Mode};
use mob_typed::TExpr;
use mob_value::Value;
use mob_value::held::{Held, made};
use mob_value::kinds::known;
use std::alloc::{AllocError, Global};

/// An operator on one operand.
pub fn of_one<'a>(
    alloc: Global,
    view: &View<'a>,
    op: Op,
    ty: SqlType,
    args: &[TExpr],
    operand: &Held<'a>,
) -> Result<Held<'a>, AllocError>
    ensures value { IfOk result (λ h. GivesOfOne (scene_of view.now) op ty (operand_types args.now) (held operand.now) (held h)) }
{
    let value = operand.get();
    match op {
        Op::And => Ok(Held::Made(known(conjunction(truth_of(value), None)))),
        Op::Or => Ok(Held::Made(known(disjunction(truth_of(value), None)))),
        Op::Not => Ok(Held::Made(known(contrary(truth_of(value))))),
        Op::IsNull => Ok(Held::Made(Value::Bool(is_null(value)))),
        Op::IsNotNull => Ok(Held::Made(Value::Bool(!is_null(value)))),
        Op::Negate => Ok(Held::Made(negation(value))),
        Op::Same => Ok(Held::Made(unchanged(value))),
        Op::LiftedNot => made(lifted_not(alloc, value)),
        Op::GetTime => made(defined_time(alloc, value)),
        Op::WhenTrue => made(true_time(alloc, value)),
        Op::GetX => made(east(alloc, value)),
        Op::GetY => made(north(alloc, value)),
        Op::BoxOf => made(box_value(alloc, value)),
        Op::AsText => made(as_text(alloc, value, &view.terms.epoch)),
        Op::Cast => cast(alloc, ty, args, operand),
        _ => Ok(Held::Made(Value::Null)),
    }
}

// Whether a restriction keeps what it asks for, as atTime does, or the rest, as minusTime does.
fn wanted(op: Op) -> bool
    ensures want { result ≡ wanted op }
{
    matches!(op, Op::AtTime | Op::AtValues | Op::AtStbox | Op::AtGeometry)
}

/// An operator on two operands, or its first formula with a part that does not fit.
pub fn of_two(
    alloc: Global,
    mode: Mode,
    op: Op,
    ty: SqlType,
    args: &[TExpr],
    left: &Value,
    right: &Value,
) -> Result<Value, Fault<Formula>>
    ensures outcome { IsOutcome (GivesOfTwo op ty (operand_types args.now) left.now right.now) (λ first. OnEntriesOfTwo mode op ty (operand_types args.now) left.now right.now (λ entries. IsFirst entries first)) result }
{
    match op {
        Op::And => Ok(known(conjunction(truth_of(left), truth_of(right)))),
        Op::Or => Ok(known(disjunction(truth_of(left), truth_of(right)))),
        Op::Test(sign) => Ok(test(sign, left, right)),
        Op::Add => calculated(alloc, mode, Calculation::Sum, ty, left, right),
        Op::Subtract => calculated(alloc, mode, Calculation::Difference, ty, left, right),
        Op::Multiply => calculated(alloc, mode, Calculation::Product, ty, left, right),
        Op::Divide => divided(alloc, mode, ty, left, right),
        Op::Join => join(alloc, ty, left, right),
        Op::LiftedAnd => lifted_and(alloc, left, right),
        Op::LiftedOr => lifted_or(alloc, left, right),
        Op::Lifted(sign) => sign_test(alloc, mode, When::Each, sign, meeting(args), left, right),
        Op::Ever(sign) => sign_test(alloc, mode, When::Ever, sign, meeting(args), left, right),
        Op::Always(sign) => sign_test(alloc, mode, When::Always, sign, meeting(args), left, right),
        Op::AtTime | Op::MinusTime => restriction(alloc, wanted(op), left, right),
        Op::AtValues | Op::MinusValues => value_restriction(alloc, mode, wanted(op), left, right),
        Op::ValueAtTimestamp => look_up(alloc, left, right),
        Op::Overlap => Ok(overlap(left, right)),
        Op::ExpandSpace => expanded(alloc, mode, left, right),
        Op::AtStbox | Op::MinusStbox => box_restriction(alloc, wanted(op), left, right),
        Op::AtGeometry | Op::MinusGeometry => polygon_restriction(alloc, wanted(op), left, right),
        Op::EIntersects => intersects(alloc, left, right),
        Op::NearestApproachSquared => nearest_approach(alloc, mode, left, right),
        _ => Ok(Value::Null),
    }
}

/// An operator on three operands, or its first formula with a part that does not fit.
pub fn of_three(
    alloc: Global,
    mode: Mode,
    op: Op,
    first: &Value,
    second: &Value,
    third: &Value,
) -> Result<Value, Fault<Formula>>
    ensures outcome { IsOutcome (GivesOfThree op first.now second.now third.now) (IsFirst (entries_of_three mode op first.now second.now third.now)) result }
{
    match op {
        Op::EDwithin => within(alloc, mode, first, second, third),
        _ => Ok(Value::Null),
    }
}
