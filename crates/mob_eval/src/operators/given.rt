//! Operators on plain numbers and on boxes, whose parts are the numbers that they give, in both
//! modes. In the wide mode a fault says that a number that is given does not fit.
ghost use Rattle.std.specs.Prelude.{◌≡◌};
ghost use Rattle.mob_slice.specs.Entries.{IsFirst};
ghost use Rattle.mob_arith.specs.Sql.Arithmetic.{IsArithmetic, IsDivided};
ghost use Rattle.mob_arith.specs.Sql.Entries.{arithmetic_entries, divided_entries};
ghost use Rattle.mob_clip.specs.Sql.Boxes.{IsExpansion};
ghost use Rattle.mob_clip.specs.Sql.Entries.{OnExpansion};
ghost use Rattle.mob_meaning.specs.Modes.{Expansions, Numbers, given_for, named_in};
ghost use Rattle.mob_meaning.specs.Operators.{calculated_entries, quotient_entries_in};
ghost use Rattle.mob_value.specs.Outcomes.{IsOutcome};

use mob_arith::sql::arithmetic::{calculate, division};
use mob_arith::sql::calculation::Calculation;
use mob_ast::SqlType;
use mob_clip::sql::boxes::expansion;
use mob_list::fault::Fault;
use mob_slice::{Formula, Mode};
use mob_value::Value;
use std::alloc::Global;

// The fault of such an operator, with the formula that it names in the mode.
fn named(mode: Mode, fault: Fault<Formula>) -> Fault<Formula>
    ensures named { result ≡ named_in mode fault }
{
    match mode {
        Mode::Narrow => fault,
        Mode::Wide => match fault {
            Fault::Because(_) => Fault::Because(Formula::Given),
            Fault::NoMemory => Fault::NoMemory,
        },
    }
}

// `+`, `-` or `*` on plain numbers.
fn numbers(
    alloc: Global,
    mode: Mode,
    by: Calculation,
    ty: SqlType,
    left: &Value,
    right: &Value,
) -> Result<Value, Fault<Formula>>
    ensures outcome { IsOutcome (IsArithmetic by ty left.now right.now) (IsFirst (given_for Numbers mode (arithmetic_entries by ty left.now right.now))) result }
{
    match calculate(alloc, by, ty, left, right) {
        Ok(value) => Ok(value),
        Err(fault) => Err(named(mode, fault)),
    }
}

/// `+`, `-` or `*` between two values, with a result of this type.
pub fn calculated(
    alloc: Global,
    mode: Mode,
    by: Calculation,
    ty: SqlType,
    left: &Value,
    right: &Value,
) -> Result<Value, Fault<Formula>>
    ensures outcome { IsOutcome (IsArithmetic by ty left.now right.now) (IsFirst (calculated_entries mode by ty left.now right.now)) result }
{
    match ty {
        SqlType::TInt => calculate(alloc, by, ty, left, right),
        SqlType::TFrac => calculate(alloc, by, ty, left, right),
        _ => numbers(alloc, mode, by, ty, left, right),
    }
}

// `/` between plain numbers.
fn quotient(
    alloc: Global,
    mode: Mode,
    ty: SqlType,
    left: &Value,
    right: &Value,
) -> Result<Value, Fault<Formula>>
    ensures outcome { IsOutcome (IsDivided ty left.now right.now) (IsFirst (given_for Numbers mode (divided_entries ty left.now right.now))) result }
{
    match division(alloc, ty, left, right) {
        Ok(value) => Ok(value),
        Err(fault) => Err(named(mode, fault)),
    }
}

/// `/` between two values, with a result of this type.
pub fn divided(
    alloc: Global,
    mode: Mode,
    ty: SqlType,
    left: &Value,
    right: &Value,
) -> Result<Value, Fault<Formula>>
    ensures outcome { IsOutcome (IsDivided ty left.now right.now) (IsFirst (quotient_entries_in mode ty left.now right.now)) result }
{
    match ty {
        SqlType::TFrac => division(alloc, ty, left, right),
        _ => quotient(alloc, mode, ty, left, right),
    }
}

/// expandSpace: the box of a value with each of its sides moved outward.
pub fn expanded(
    alloc: Global,
    mode: Mode,
    value: &Value,
    distance: &Value,
) -> Result<Value, Fault<Formula>>
    ensures outcome { IsOutcome (IsExpansion value.now distance.now) (λ first. OnExpansion value.now distance.now (λ entries. IsFirst (given_for Expansions mode entries) first)) result }
{
    match expansion(alloc, value, distance) {
        Ok(moved) => Ok(moved),
        Err(fault) => Err(named(mode, fault)),
    }
}
