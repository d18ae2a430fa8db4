//! Adds one more value to an aggregate that is kept as one value.
ghost use Rattle.std.specs.Prelude.{◌≡◌, [], ◌∷◌, IfOk, IfErr, MatchResult, MatchOption, None, Some, true, false, option_map};
ghost use Rattle.mob_ratio.specs.Order.{same};
ghost use Rattle.mob_arith.specs.Operations.{sum_of};
ghost use Rattle.mob_slice.specs.CourseOf.{steady_course, line_course};
ghost use Rattle.mob_list.specs.Faults.{OnCause};
ghost use Rattle.mob_slice.specs.Entries.{IsFirst};
ghost use Rattle.mob_slice.specs.Slices.{value_at};
ghost use Rattle.mob_value.specs.declared.value.Value.TheVariants.{Number, MovingInt, MovingFrac};
ghost use Rattle.mob_arith.specs.Sql.Entries.{arithmetic_entries};
ghost use Rattle.mob_value.specs.Moving.{AreNormalBy, IsFunction, or_nothing};
ghost use Rattle.mob_ordinary.specs.Ordinary.{is_null};
ghost use Rattle.mob_tail.specs.Aggregated.{number_of_value, one_where, leaves_out, IsAggregated, IsAggregateWith, IsUnion, steps_of, aggregate_lines};
ghost use Rattle.mob_tail.specs.Made.{made_in};
ghost use Rattle.mob_tail.specs.States.{is_in_parts};

use mob_arith::sql::calculation::Calculation;
use mob_ast::SqlType;
use mob_frac::Frac;
use mob_list::fault::Fault;
use mob_operators::AggKind;
use mob_slice::{Course, Formula, Line, Moving, Steady};
use mob_tagg::{add_in, one, ones_of};
use mob_typed::Agg;
use mob_value::Value;
use std::alloc::{AllocError, Global};

/// Replaces a value. At a type parameter, dropping the old value is a single call, which a proof
/// can follow.
pub fn put<T: Drop>(place: &mut T, value: T)
    ensures put { place.new ≡ value }
{
    *place = value;
}

/// Whether an aggregate ignores a value: all but `count(*)` ignore NULL.
pub fn leaves_out(kind: AggKind, value: &Value) -> bool
    ensures same { result ≡ leaves_out kind value.now }
{
    match (kind, value) {
        (AggKind::CountAll, _) => false,
        (_, Value::Null) => true,
        _ => false,
    }
}

// The number of a plain number.
fn number_in(value: &Value) -> Option<Frac>
    ensures number { result ≡ number_of_value value.now }
{
    match value {
        Value::Number(number) => Some(*number),
        _ => None,
    }
}

// The slices of a tint or a tfrac.
fn steps_of(value: &Value) -> Option<&Moving<Steady<Frac>>>
    ensures slices { option_map (λ m. m.now) result ≡ steps_of value.now }
{
    match value {
        Value::MovingInt(moving) => Some(moving),
        _ => None,
    }
}

fn lines_of(value: &Value) -> Option<&Moving<Line>>
    ensures slices { option_map (λ m. m.now) result ≡ aggregate_lines value.now }
{
    match value {
        Value::MovingFrac(moving) => Some(moving),
        _ => None,
    }
}

// Replaces a value by the sum of two numbers.
fn sum_in(before: &mut Value, a: &Frac, b: &Frac) -> Result<(), Fault<Formula>>
    ensures value { IfOk (made_in result before.new) (λ r. r ≡ Number (sum_of a.now b.now)) }
    ensures fits { IfOk (made_in result before.new) (λ _. IsFirst (arithmetic_entries Calculation.Sum SqlType.Numeric (Number a.now) (Number b.now)) None) }
    ensures fault { IfErr (made_in result before.new) (OnCause (λ f. IsFirst (arithmetic_entries Calculation.Sum SqlType.Numeric (Number a.now) (Number b.now)) (Some f))) }
{
    match a.add(b) {
        Ok(sum) => {
            put(before, Value::Number(sum));
            Ok(())
        }
        Err(_) => Err(Fault::Because(Formula::F2)),
    }
}

// Replaces a value by a copy of another.
fn copy_in(alloc: Global, before: &mut Value, value: &Value) -> Result<(), Fault<Formula>>
    ensures copy { MatchResult (made_in result before.new) (λ r. r ≡ value.now) (λ e. e ≡ Fault.NoMemory) }
{
    match value.copy(alloc) {
        Ok(copy) => {
            put(before, copy);
            Ok(())
        }
        Err(_) => Err(Fault::NoMemory),
    }
}

// Adds 1 to a count.
fn one_more(before: &mut Value) -> Result<(), Fault<Formula>>
    ensures with { (ty : _) (v : _) → IsAggregateWith false AggKind.CountAll ty before.old v (made_in result before.new) }
    ensures known { (ty : _) (v : _) → is_null v ≡ false → IsAggregateWith false AggKind.Count ty before.old v (made_in result before.new) }
{
    match number_in(before) {
        // A count is a number, so this is never reached.
        None => Ok(()),
        Some(number) => sum_in(before, &number, &one()),
    }
}

// Adds a number to the sum of numbers, which is NULL if there is none yet.
fn number_more(before: &mut Value, value: &Value) -> Result<(), Fault<Formula>>
    ensures with { (ty : _) → IsAggregateWith false AggKind.Sum ty before.old value.now (made_in result before.new) }
{
    let Some(number) = number_in(value) else {
        return Ok(());
    };
    match number_in(before) {
        None => {
            put(before, Value::Number(number));
            Ok(())
        }
        Some(sum) => sum_in(before, &sum, &number),
    }
}

// A tint with these slices.
fn int_value(moving: Moving<Steady<Frac>>) -> Value
    ensures value { result ≡ MovingInt moving }
    ensures normal { AreNormalBy (steady_course same) moving }
{
    // The clause of `slices` says that they are normal.
    let _ = moving.slices();
    Value::MovingInt(moving)
}

// A tfrac with these slices.
fn frac_value(moving: Moving<Line>) -> Value
    ensures value { result ≡ MovingFrac moving }
    ensures normal { AreNormalBy line_course moving }
{
    // The clause of `slices` says that they are normal.
    let _ = moving.slices();
    Value::MovingFrac(moving)
}

// Adds a tint to a sum of tints, which is NULL if there is none yet.
fn steps_more(alloc: Global, before: &mut Value, value: &Value) -> Result<(), Fault<Formula>>
    ensures union { IfOk (made_in result before.new) (λ r. IsUnion (steady_course same) MovingInt sum_of (steps_of before.old) (steps_of value.now) before.old r) }
    ensures normal { MatchOption (steps_of value.now) (Unit {0}) (AreNormalBy (steady_course same)) }
    ensures fits { IfOk (made_in result before.new) (λ _. IsFirst (arithmetic_entries Calculation.Sum SqlType.TInt (or_nothing MovingInt (steps_of before.old)) (or_nothing MovingInt (steps_of value.now))) None) }
    ensures fault { IfErr (made_in result before.new) (OnCause (λ f. IsFirst (arithmetic_entries Calculation.Sum SqlType.TInt (or_nothing MovingInt (steps_of before.old)) (or_nothing MovingInt (steps_of value.now))) (Some f))) }
{
    let Some(moving) = steps_of(value) else {
        return Ok(());
    };
    // The clause of `slices` says that they are normal.
    let _ = moving.slices();
    match steps_of(before) {
        Some(sum) => match add_in(alloc, sum, moving) {
            Ok(sum) => {
                put(before, int_value(sum));
                Ok(())
            }
            Err(fault) => Err(fault),
        },
        None => copy_in(alloc, before, value),
    }
}

// Adds a tfrac to a sum of tfracs, which is NULL if there is none yet.
fn lines_more(alloc: Global, before: &mut Value, value: &Value) -> Result<(), Fault<Formula>>
    ensures union { IfOk (made_in result before.new) (λ r. IsUnion line_course MovingFrac sum_of (aggregate_lines before.old) (aggregate_lines value.now) before.old r) }
    ensures normal { MatchOption (aggregate_lines value.now) (Unit {0}) (AreNormalBy line_course) }
    ensures fits { IfOk (made_in result before.new) (λ _. IsFirst (arithmetic_entries Calculation.Sum SqlType.TFrac (or_nothing MovingFrac (aggregate_lines before.old)) (or_nothing MovingFrac (aggregate_lines value.now))) None) }
    ensures fault { IfErr (made_in result before.new) (OnCause (λ f. IsFirst (arithmetic_entries Calculation.Sum SqlType.TFrac (or_nothing MovingFrac (aggregate_lines before.old)) (or_nothing MovingFrac (aggregate_lines value.now))) (Some f))) }
{
    let Some(moving) = lines_of(value) else {
        return Ok(());
    };
    // The clause of `slices` says that they are normal.
    let _ = moving.slices();
    match lines_of(before) {
        Some(sum) => match add_in(alloc, sum, moving) {
            Ok(sum) => {
                put(before, frac_value(sum));
                Ok(())
            }
            Err(fault) => Err(fault),
        },
        None => copy_in(alloc, before, value),
    }
}

// The value that is 1 exactly where a value over time is defined.
fn ones_value<C: Course>(
    alloc: Global,
    moving: &Moving<C>,
) -> Result<Option<Moving<Steady<Frac>>>, AllocError>
    ensures ones { IfOk result (λ o. IsFunction (steady_course same) MovingInt (λ t. one_where (value_at C.value_of moving.now t)) (or_nothing MovingInt o)) }
{
    // The clauses of `slices` say that both lists of slices are normal.
    let _ = moving.slices();
    let ones = ones_of(alloc, moving)?;
    let _ = ones.slices();
    Ok(Some(ones))
}

/// The count over time of one value; `None` for a value that is not over time. The only error is a
/// failed allocation.
pub fn ones_on(alloc: Global, value: &Value) -> Result<Option<Moving<Steady<Frac>>>, AllocError>
    ensures ones { IfOk result (λ o. (ty : _) → IsAggregated AggKind.TCount ty (value.now ∷ []) (or_nothing MovingInt o)) }
{
    match value {
        Value::MovingBool(moving) => ones_value(alloc, moving),
        Value::MovingInt(moving) => ones_value(alloc, moving),
        Value::MovingFrac(moving) => ones_value(alloc, moving),
        Value::MovingText(moving) => ones_value(alloc, moving),
        Value::MovingPoint(moving) => ones_value(alloc, moving),
        _ => Ok(None),
    }
}

// Adds one more value to a sum over time of this type.
fn sum_more(
    alloc: Global,
    ty: SqlType,
    before: &mut Value,
    value: &Value,
) -> Result<(), Fault<Formula>>
    ensures with { IsAggregateWith false AggKind.TSum ty before.old value.now (made_in result before.new) }
{
    match ty {
        SqlType::TInt => steps_more(alloc, before, value),
        SqlType::TFrac => lines_more(alloc, before, value),
        _ => Ok(()),
    }
}

/// Adds one more value to an aggregate that is kept as one value; `before` is the aggregate of the
/// values without it. An aggregate that is kept in parts stays unchanged.
pub fn aggregate_in(
    alloc: Global,
    agg: Agg,
    before: &mut Value,
    value: &Value,
) -> Result<(), Fault<Formula>>
    ensures with { is_in_parts agg.kind ≡ false → false ≡ leaves_out agg.kind value.now → IsAggregateWith (leaves_out agg.kind value.now) agg.kind agg.ty before.old value.now (made_in result before.new) }
    ensures parts { is_in_parts agg.kind ≡ true → before.new ≡ before.old }
{
    match agg.kind {
        AggKind::CountAll => one_more(before),
        AggKind::Count => one_more(before),
        AggKind::Sum => number_more(before, value),
        AggKind::TSum => sum_more(alloc, agg.ty, before, value),
        AggKind::TCount => Ok(()),
        AggKind::TAnd => Ok(()),
        AggKind::TOr => Ok(()),
    }
}
