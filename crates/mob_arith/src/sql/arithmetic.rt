//! Arithmetic, on plain numbers and at each instant.
ghost use Rattle.std.specs.Prelude.{◌≡◌, ◌||◌, true, IfOk};
ghost use Rattle.std.specs.List.{flat_map};
ghost use Rattle.mob_frac.specs.Fits.{IsExact};
ghost use Rattle.mob_arith.specs.Termwise.{entries_at_ends};
ghost use Rattle.mob_slice.specs.Entries.{IsFirst, IsJudged};
ghost use Rattle.mob_slice.specs.Operands.{steady_value, steady_parts, IsPointwise};
ghost use Rattle.mob_slice.specs.Sides.{operand_of, has_slices, given_at, pieces};
ghost use Rattle.mob_arith.specs.Sql.Arithmetic.{IsArithmetic, on_numbers, quotient, IsDivided};
ghost use Rattle.mob_arith.specs.Sql.Entries.{arithmetic_entries, plain_entries, divided_parts, divided_entries, parts_on};
ghost use Rattle.mob_arith.specs.Sql.Calculations.{result_by, parts_by};
ghost use Rattle.mob_value.specs.Lifted.{IsMovingInt};
ghost use Rattle.mob_value.specs.Pairs.{OnPair, entries_on, number_pair};
ghost use Rattle.mob_value.specs.Outcomes.{IsOutcome};

use crate::sql::calculation::Calculation;
use crate::sql::line_arithmetic::{line_calculated, line_divided};
use crate::sql::numbers::is_nil;
use crate::sums::{minus, plus, times};
use mob_ast::SqlType;
use mob_frac::{Frac, Overflow};
use mob_list::fault::Fault;
use mob_slice::{Formula, Moving, Operand, Steady};
use mob_value::Value;
use mob_value::kinds::int_or_null;
use mob_value::pair::number_pair;
use std::alloc::Global;

fn calculated(by: Calculation, left: &Frac, right: &Frac) -> Result<Frac, Overflow>
    ensures exact { IsExact (result_by by left.now right.now) result }
{
    match by {
        Calculation::Sum => left.add(right),
        Calculation::Difference => left.sub(right),
        Calculation::Product => left.mul(right),
    }
}

// `+`, `-` or `*` on plain numbers.
fn plain(by: Calculation, left: &Value, right: &Value) -> Result<Value, Fault<Formula>>
    ensures outcome { IsOutcome (λ v. v ≡ on_numbers (result_by by) left.now right.now) (IsFirst (plain_entries (parts_on (parts_by by) left.now right.now))) result }
{
    match (left, right) {
        (Value::Number(a), Value::Number(b)) => match calculated(by, a, b) {
            Ok(number) => Ok(Value::Number(number)),
            Err(_) => Err(Fault::Because(Formula::F2)),
        },
        _ => Ok(Value::Null),
    }
}

// The operation on two operands, one of which has slices.
fn lifted(
    alloc: Global,
    by: Calculation,
    left: Operand<'_, Steady<Frac>>,
    right: Operand<'_, Steady<Frac>>,
) -> Result<Option<Moving<Steady<Frac>>>, Fault<Formula>>
    requires moving { (has_slices (operand_of left) || has_slices (operand_of right)) ≡ true }
    ensures value { IfOk result (λ r. IsPointwise steady_value (result_by by) (given_at steady_value (operand_of left.entry)) (given_at steady_value (operand_of right.entry)) r) }
    ensures first { IsJudged (flat_map (entries_at_ends steady_value steady_parts steady_value steady_parts (parts_by by)) (pieces (operand_of left.entry) (operand_of right.entry))) result }
{
    match by {
        Calculation::Sum => plus(alloc, left, right),
        Calculation::Difference => minus(alloc, left, right),
        Calculation::Product => times(alloc, left, right),
    }
}

// `+`, `-` or `*` at each instant, on two values, one of which is a tint.
fn moving(
    alloc: Global,
    by: Calculation,
    left: &Value,
    right: &Value,
) -> Result<Value, Fault<Formula>>
    ensures outcome { IsOutcome (OnPair (number_pair left.now right.now) (IsMovingInt (result_by by))) (IsFirst (entries_on (entries_at_ends steady_value steady_parts steady_value steady_parts (parts_by by)) (number_pair left.now right.now))) result }
{
    match number_pair(left, right) {
        Some((left, right)) => Ok(int_or_null(lifted(alloc, by, left, right)?)),
        None => Ok(Value::Null),
    }
}

/// `+`, `-` or `*` between two values, with a result of this type.
pub fn calculate(
    alloc: Global,
    by: Calculation,
    ty: SqlType,
    left: &Value,
    right: &Value,
) -> Result<Value, Fault<Formula>>
    ensures outcome { IsOutcome (IsArithmetic by ty left.now right.now) (IsFirst (arithmetic_entries by ty left.now right.now)) result }
{
    match ty {
        SqlType::Int => plain(by, left, right),
        SqlType::Numeric => plain(by, left, right),
        SqlType::TInt => moving(alloc, by, left, right),
        SqlType::TFrac => line_calculated(alloc, by, left, right),
        _ => Ok(Value::Null),
    }
}

// `/` between two values; NULL if the divisor is 0.
fn plain_division(left: &Value, right: &Value) -> Result<Value, Fault<Formula>>
    ensures outcome { IsOutcome (λ v. v ≡ quotient left.now right.now) (IsFirst (plain_entries (parts_on divided_parts left.now right.now))) result }
{
    let Value::Number(a) = left else {
        return Ok(Value::Null);
    };
    let Value::Number(b) = right else {
        return Ok(Value::Null);
    };
    if is_nil(b) {
        return Ok(Value::Null);
    }
    match a.div(b) {
        Ok(number) => Ok(Value::Number(number)),
        Err(_) => Err(Fault::Because(Formula::F2)),
    }
}

/// `/` between two values, with a result of this type; NULL if the divisor is 0.
pub fn division(
    alloc: Global,
    ty: SqlType,
    left: &Value,
    right: &Value,
) -> Result<Value, Fault<Formula>>
    ensures outcome { IsOutcome (IsDivided ty left.now right.now) (IsFirst (divided_entries ty left.now right.now)) result }
{
    match ty {
        SqlType::Numeric => plain_division(left, right),
        SqlType::TFrac => line_divided(alloc, left, right),
        _ => Ok(Value::Null),
    }
}
