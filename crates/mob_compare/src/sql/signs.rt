//! The signs that compare two values over time: `#` at each instant, `?` at some instant, `%` at
//! every instant.
ghost use Rattle.std.specs.List.{flat_map};
ghost use Rattle.std.specs.Prelude.{◌≡◌, ◌||◌, true, false, [], IfErr, IfOk, IfSome, option_map};
ghost use Rattle.mob_slice.specs.Comparison.{MayAsk};
ghost use Rattle.mob_cells.specs.Gaps.{entries_of_ends};
ghost use Rattle.mob_lift.specs.Sometime.{IsEver, IsAlways};
ghost use Rattle.mob_slice.specs.Entries.{IsFirst, IsJudged};
ghost use Rattle.mob_slice.specs.LineComparison.{number_gaps, number_relates};
ghost use Rattle.mob_slice.specs.Lines.{line_value_of, line_parts_of};
ghost use Rattle.mob_slice.specs.Ranks.{holds};
ghost use Rattle.mob_slice.specs.Modes.{by_mode};
ghost use Rattle.mob_slice.specs.Operands.{IsPointwise, steady_value};
ghost use Rattle.mob_slice.specs.Sides.{given_at, operand_of, has_slices, pieces};
ghost use Rattle.mob_value.specs.Pairs.{OnPair, OnOperands, entries_on, operands_of};
ghost use Rattle.mob_value.specs.Lines.{line_pair};
ghost use Rattle.mob_compare.specs.Sql.Signs.{IsAsked, IsOrderTest, IsAnyTest, IsSignTest};
ghost use Rattle.mob_compare.specs.Compared.{entries_of_gaps};
ghost use Rattle.mob_compare.specs.Sql.Entries.{asked_in, entries_asked, order_entries, any_entries, sign_entries};
ghost use Rattle.mob_compare.specs.Sql.Wide.{given_changes, wide_any_entries, wide_order_entries, wide_sign_entries};
ghost use Rattle.mob_value.specs.Outcomes.{IsOutcome};

use crate::broadly::compare_wide;
use crate::courses::compare;
use crate::ever::{always, always_wide, ever, ever_wide};
use crate::sql::when::When;
use mob_ast::{Cmp, SqlType};
use mob_cells::HasCoordinates;
use mob_list::fault::Fault;
use mob_slice::{Formula, Mode, Moving, Operand, Ranked, Rel, Steady};
use mob_value::Value;
use mob_value::kinds::{bool_or_null, known};
use mob_value::lines::as_lines;
use mob_value::pair::{
    Pair, SteadyPair, frac_pair, number_pair, plane_pair, text_pair, truth_pair,
};
use mob_value::relation::rel_of;
use std::alloc::Global;
use std::mem::drop;

// The comparison at each instant at which both operands have a value.
fn compare_in<C: HasCoordinates + Drop>(
    alloc: Global,
    mode: Mode,
    a: Operand<'_, C>,
    b: Operand<'_, C>,
    rel: Rel,
) -> Result<Option<Moving<Steady<bool>>>, Fault<Formula>>
where
    C::Base: Drop,
    requires asked { MayAsk C.ordered rel }
    requires moving { (has_slices (operand_of a) || has_slices (operand_of b)) ≡ true }
    ensures value { IfOk result (λ r. IsPointwise steady_value (C.relation rel) (given_at C.value_of (operand_of a.entry)) (given_at C.value_of (operand_of b.entry)) r) }
    ensures first { IsJudged (by_mode mode (flat_map (entries_of_gaps C.value_of C.parts_of C.gaps_of) (pieces (operand_of a.entry) (operand_of b.entry))) (flat_map (given_changes C.value_of C.gaps_of (C.relation rel)) (pieces (operand_of a.entry) (operand_of b.entry)))) result }
    ensures memory { C.STEADY ≡ true → IfErr result (λ e. e ≡ Fault.NoMemory) }
{
    match mode {
        Mode::Narrow => compare(alloc, a, b, rel),
        Mode::Wide => compare_wide(alloc, a, b, rel),
    }
}

// Whether the comparison holds at some instant at which both operands have a value.
fn ever_in<C: HasCoordinates + Drop>(
    alloc: Global,
    mode: Mode,
    a: Operand<'_, C>,
    b: Operand<'_, C>,
    rel: Rel,
) -> Result<Option<bool>, Fault<Formula>>
where
    C::Base: Drop,
    requires asked { MayAsk C.ordered rel }
    requires moving { (has_slices (operand_of a) || has_slices (operand_of b)) ≡ true }
    ensures value { IfOk result (IsEver (C.relation rel) (given_at C.value_of (operand_of a.entry)) (given_at C.value_of (operand_of b.entry))) }
    ensures first { IsJudged (by_mode mode (flat_map (entries_of_ends C.value_of C.parts_of C.gaps_of) (pieces (operand_of a.entry) (operand_of b.entry))) []) result }
    ensures memory { C.STEADY ≡ true → IfErr result (λ e. e ≡ Fault.NoMemory) }
{
    match mode {
        Mode::Narrow => match ever(alloc, a, b, rel) {
            Ok(answer) => Ok(answer),
            Err(formula) => Err(Fault::Because(formula)),
        },
        Mode::Wide => match ever_wide(alloc, a, b, rel) {
            Ok(answer) => Ok(answer),
            Err(_) => Err(Fault::NoMemory),
        },
    }
}

// Whether the comparison holds at every instant at which both operands have a value.
fn always_in<C: HasCoordinates + Drop>(
    alloc: Global,
    mode: Mode,
    a: Operand<'_, C>,
    b: Operand<'_, C>,
    rel: Rel,
) -> Result<Option<bool>, Fault<Formula>>
where
    C::Base: Drop,
    requires asked { MayAsk C.ordered rel }
    requires moving { (has_slices (operand_of a) || has_slices (operand_of b)) ≡ true }
    ensures value { IfOk result (IsAlways (C.relation rel) (given_at C.value_of (operand_of a.entry)) (given_at C.value_of (operand_of b.entry))) }
    ensures first { IsJudged (by_mode mode (flat_map (entries_of_ends C.value_of C.parts_of C.gaps_of) (pieces (operand_of a.entry) (operand_of b.entry))) []) result }
    ensures memory { C.STEADY ≡ true → IfErr result (λ e. e ≡ Fault.NoMemory) }
{
    match mode {
        Mode::Narrow => match always(alloc, a, b, rel) {
            Ok(answer) => Ok(answer),
            Err(formula) => Err(Fault::Because(formula)),
        },
        Mode::Wide => match always_wide(alloc, a, b, rel) {
            Ok(answer) => Ok(answer),
            Err(_) => Err(Fault::NoMemory),
        },
    }
}

// The result of the sign for a comparison of two operands; NULL without operands.
#[tactic(auto, using(crate::proofs::Asked::none_asked))]
fn asked<C: HasCoordinates + Drop>(
    alloc: Global,
    mode: Mode,
    scope: When,
    rel: Rel,
    pair: Option<Pair<'_, C>>,
) -> Result<Value, Fault<Formula>>
where
    C::Base: Drop,
    requires asked { MayAsk C.ordered rel }
    requires moving { IfSome pair (λ p. (has_slices (operand_of p.0) || has_slices (operand_of p.1)) ≡ true) }
    ensures outcome { IsOutcome (OnOperands C.value_of C.value_of (option_map operands_of pair.entry) (IsAsked scope (C.relation rel))) (IsFirst (asked_in mode scope (entries_on (entries_asked scope C.value_of C.parts_of C.gaps_of) (option_map operands_of pair.entry)) (entries_on (given_changes C.value_of C.gaps_of (C.relation rel)) (option_map operands_of pair.entry)))) result }
    ensures memory { C.STEADY ≡ true → IfErr result (λ e. e ≡ Fault.NoMemory) }
{
    let Some((left, right)) = pair else {
        return Ok(Value::Null);
    };
    match scope {
        When::Each => match compare_in(alloc, mode, left, right, rel) {
            Ok(value) => Ok(bool_or_null(value)),
            Err(fault) => Err(fault),
        },
        When::Ever => match ever_in(alloc, mode, left, right, rel) {
            Ok(answer) => Ok(known(answer)),
            Err(fault) => Err(fault),
        },
        When::Always => match always_in(alloc, mode, left, right, rel) {
            Ok(answer) => Ok(known(answer)),
            Err(fault) => Err(fault),
        },
    }
}

// The result of the sign for operands that change in steps, which have no formula.
#[tactic(auto, using(crate::proofs::Asked::none_asked))]
fn steps_asked<B: Ranked + Drop>(
    alloc: Global,
    mode: Mode,
    scope: When,
    rel: Rel,
    pair: Option<SteadyPair<'_, B>>,
) -> Result<Value, Fault<Formula>>
    requires moving { IfSome pair (λ p. (has_slices (operand_of p.0) || has_slices (operand_of p.1)) ≡ true) }
    ensures outcome { IsOutcome (OnPair (option_map operands_of pair.entry) (IsAsked scope (λ x y. holds rel (B.compare_of x y)))) (IsFirst (asked_in mode scope [] [])) result }
{
    match asked(alloc, mode, scope, rel, pair) {
        Ok(value) => Ok(value),
        Err(Fault::NoMemory) => Err(Fault::NoMemory),
        Err(Fault::Because(_)) => unreachable!(),
    }
}

// The result of the sign for linear numbers, where a tint becomes linear.
fn lines_asked(
    alloc: Global,
    mode: Mode,
    scope: When,
    rel: Rel,
    left: &Value,
    right: &Value,
) -> Result<Value, Fault<Formula>>
    ensures outcome { IsOutcome (OnOperands line_value_of line_value_of (line_pair left.now right.now) (IsAsked scope (number_relates rel))) (IsFirst (asked_in mode scope (entries_on (entries_asked scope line_value_of line_parts_of number_gaps) (line_pair left.now right.now)) (entries_on (given_changes line_value_of number_gaps (number_relates rel)) (line_pair left.now right.now)))) result }
{
    match as_lines(alloc, left, right) {
        Ok((left, right)) => {
            let answer = asked(alloc, mode, scope, rel, frac_pair(left.get(), right.get()));
            drop((left, right));
            answer
        }
        Err(_) => Err(Fault::NoMemory),
    }
}

// The result of the sign for ordered values.
#[tactic(auto, using(crate::proofs::Asked::none_asked))]
fn order(
    alloc: Global,
    mode: Mode,
    scope: When,
    rel: Rel,
    met: Option<SqlType>,
    left: &Value,
    right: &Value,
) -> Result<Value, Fault<Formula>>
    ensures outcome { IsOutcome (IsOrderTest scope rel met left.now right.now) (IsFirst (asked_in mode scope (order_entries scope met left.now right.now) (wide_order_entries rel met left.now right.now))) result }
{
    match met {
        Some(SqlType::TInt) => steps_asked(alloc, mode, scope, rel, number_pair(left, right)),
        Some(SqlType::TFrac) => lines_asked(alloc, mode, scope, rel, left, right),
        Some(SqlType::TText) => steps_asked(alloc, mode, scope, rel, text_pair(left, right)),
        _ => Ok(Value::Null),
    }
}

// The result of the sign for equality, which truth values and points have too; they have no order
// here.
#[tactic(auto, using(crate::proofs::Asked::none_asked))]
fn sameness(
    alloc: Global,
    mode: Mode,
    scope: When,
    rel: Rel,
    met: Option<SqlType>,
    left: &Value,
    right: &Value,
) -> Result<Value, Fault<Formula>>
    requires asked { MayAsk false rel }
    ensures outcome { IsOutcome (IsAnyTest scope rel met left.now right.now) (IsFirst (asked_in mode scope (any_entries scope met left.now right.now) (wide_any_entries rel met left.now right.now))) result }
{
    match met {
        Some(SqlType::TBool) => steps_asked(alloc, mode, scope, rel, truth_pair(left, right)),
        Some(SqlType::TPoint) => asked(alloc, mode, scope, rel, plane_pair(left, right)),
        _ => order(alloc, mode, scope, rel, met, left, right),
    }
}

/// A sign on operands that have a common type, or none. Truth values and points have no order here.
pub fn sign_test(
    alloc: Global,
    mode: Mode,
    scope: When,
    sign: Cmp,
    met: Option<SqlType>,
    left: &Value,
    right: &Value,
) -> Result<Value, Fault<Formula>>
    ensures outcome { IsOutcome (IsSignTest scope sign met left.now right.now) (IsFirst (asked_in mode scope (sign_entries scope sign met left.now right.now) (wide_sign_entries sign met left.now right.now))) result }
{
    match sign {
        Cmp::Eq => sameness(alloc, mode, scope, Rel::Eq, met, left, right),
        Cmp::Ne => sameness(alloc, mode, scope, Rel::Ne, met, left, right),
        _ => order(alloc, mode, scope, rel_of(sign), met, left, right),
    }
}
