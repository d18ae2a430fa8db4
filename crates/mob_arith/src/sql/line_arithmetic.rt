//! Arithmetic at each instant on linear temporal numbers.
ghost use Rattle.std.specs.Prelude.{◌≢◌};
ghost use Rattle.mob_frac.specs.Formula.{product_parts};
ghost use Rattle.mob_arith.specs.Operations.{product_of};
ghost use Rattle.mob_arith.specs.Termwise.{entries_at_ends};
ghost use Rattle.mob_slice.specs.Entries.{IsFirst};
ghost use Rattle.mob_slice.specs.Lines.{line_value_of, line_parts_of};
ghost use Rattle.mob_slice.specs.Operands.{steady_value, steady_parts};
ghost use Rattle.mob_arith.specs.Sql.Arithmetic.{IsLineArithmetic, IsLineQuotient};
ghost use Rattle.mob_arith.specs.Sql.Entries.{line_entries, line_quotient_entries};
ghost use Rattle.mob_arith.specs.declared.sql.calculation.Calculation.TheVariants.{Product};
ghost use Rattle.mob_arith.specs.Sql.Calculations.{result_by, parts_by};
ghost use Rattle.mob_value.specs.Pairs.{OnOperands, entries_on, frac_pair};
ghost use Rattle.mob_value.specs.Lines.{as_line, line_pair};
ghost use Rattle.mob_arith.specs.Sql.Factors.{factors, product_pair};
ghost use Rattle.mob_value.specs.Lifted.{IsMovingFrac};
ghost use Rattle.mob_value.specs.Outcomes.{IsOutcome};

use crate::sql::calculation::Calculation;
use crate::sql::factors::factors;
use crate::sql::numbers::is_nil;
use crate::sums::{minus, over_const, plus, times};
use mob_list::fault::Fault;
use mob_slice::Formula;
use mob_value::Value;
use mob_value::kinds::frac_or_null;
use mob_value::lines::{as_line, as_lines};
use mob_value::pair::frac_pair;
use std::alloc::Global;
use std::mem::drop;

// The sum or the difference of linear numbers.
fn frac_terms(
    alloc: Global,
    by: Calculation,
    left: &Value,
    right: &Value,
) -> Result<Value, Fault<Formula>>
    requires term { by ≢ Product }
    ensures outcome { IsOutcome (OnOperands line_value_of line_value_of (frac_pair left.now right.now) (IsMovingFrac (result_by by))) (IsFirst (entries_on (entries_at_ends line_value_of line_parts_of line_value_of line_parts_of (parts_by by)) (frac_pair left.now right.now))) result }
{
    let Some((left, right)) = frac_pair(left, right) else {
        return Ok(Value::Null);
    };
    match by {
        Calculation::Sum => Ok(frac_or_null(plus(alloc, left, right)?)),
        Calculation::Difference => Ok(frac_or_null(minus(alloc, left, right)?)),
        Calculation::Product => unreachable!(),
    }
}

fn frac_product(alloc: Global, left: &Value, right: &Value) -> Result<Value, Fault<Formula>>
    ensures outcome { IsOutcome (OnOperands line_value_of steady_value (factors left.now right.now) (IsMovingFrac product_of)) (IsFirst (entries_on (entries_at_ends line_value_of line_parts_of steady_value steady_parts product_parts) (factors left.now right.now))) result }
{
    match factors(left, right) {
        Some((line, factor)) => Ok(frac_or_null(times(alloc, line, factor)?)),
        None => Ok(Value::Null),
    }
}

// The sum or the difference of numbers at least one of which is linear.
fn line_terms(
    alloc: Global,
    by: Calculation,
    left: &Value,
    right: &Value,
) -> Result<Value, Fault<Formula>>
    requires term { by ≢ Product }
    ensures outcome { IsOutcome (OnOperands line_value_of line_value_of (line_pair left.now right.now) (IsMovingFrac (result_by by))) (IsFirst (entries_on (entries_at_ends line_value_of line_parts_of line_value_of line_parts_of (parts_by by)) (line_pair left.now right.now))) result }
{
    match as_lines(alloc, left, right) {
        Ok((left, right)) => {
            let value = frac_terms(alloc, by, left.get(), right.get());
            drop((left, right));
            value
        }
        Err(_) => Err(Fault::NoMemory),
    }
}

// The product of a linear value and a number, where a tint is taken as linear.
fn widened_product(alloc: Global, line: &Value, factor: &Value) -> Result<Value, Fault<Formula>>
    ensures outcome { IsOutcome (OnOperands line_value_of steady_value (factors (as_line line.now) factor.now) (IsMovingFrac product_of)) (IsFirst (entries_on (entries_at_ends line_value_of line_parts_of steady_value steady_parts product_parts) (factors (as_line line.now) factor.now))) result }
{
    match as_line(alloc, line) {
        Ok(line) => {
            let product = frac_product(alloc, line.get(), factor);
            drop(line);
            product
        }
        Err(_) => Err(Fault::NoMemory),
    }
}

fn line_product(alloc: Global, left: &Value, right: &Value) -> Result<Value, Fault<Formula>>
    ensures outcome { IsOutcome (OnOperands line_value_of steady_value (product_pair left.now right.now) (IsMovingFrac product_of)) (IsFirst (entries_on (entries_at_ends line_value_of line_parts_of steady_value steady_parts product_parts) (product_pair left.now right.now))) result }
{
    match (left, right) {
        (Value::MovingInt(_), Value::Number(_)) => widened_product(alloc, left, right),
        (Value::Number(_), Value::MovingInt(_)) => widened_product(alloc, right, left),
        _ => frac_product(alloc, left, right),
    }
}

/// `+`, `-` or `*` with a tfrac as the result.
pub fn line_calculated(
    alloc: Global,
    by: Calculation,
    left: &Value,
    right: &Value,
) -> Result<Value, Fault<Formula>>
    ensures outcome { IsOutcome (IsLineArithmetic by left.now right.now) (IsFirst (line_entries by left.now right.now)) result }
{
    match by {
        Calculation::Sum => line_terms(alloc, by, left, right),
        Calculation::Difference => line_terms(alloc, by, left, right),
        Calculation::Product => line_product(alloc, left, right),
    }
}

fn frac_quotient(alloc: Global, left: &Value, right: &Value) -> Result<Value, Fault<Formula>>
    ensures outcome { IsOutcome (IsLineQuotient left.now right.now) (IsFirst (line_quotient_entries left.now right.now)) result }
{
    let Value::MovingFrac(a) = left else {
        return Ok(Value::Null);
    };
    let Value::Number(k) = right else {
        return Ok(Value::Null);
    };
    if is_nil(k) {
        return Ok(Value::Null);
    }
    let value = over_const(alloc, a, k)?;
    Ok(frac_or_null(Some(value)))
}

/// `/` with a tfrac as the result; NULL if the divisor is 0.
pub fn line_divided(alloc: Global, left: &Value, right: &Value) -> Result<Value, Fault<Formula>>
    ensures outcome { IsOutcome (IsLineQuotient (as_line left.now) right.now) (IsFirst (line_quotient_entries (as_line left.now) right.now)) result }
{
    match as_line(alloc, left) {
        Ok(line) => {
            let quotient = frac_quotient(alloc, line.get(), right);
            drop(line);
            quotient
        }
        Err(_) => Err(Fault::NoMemory),
    }
}
