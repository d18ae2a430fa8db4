//! Logic and joining at each instant.
ghost use Rattle.std.specs.Prelude.{◌≡◌, [], IfOk};
ghost use Rattle.mob_arith.specs.Operations.{both_hold, one_holds, text_of};
ghost use Rattle.mob_slice.specs.Entries.{IsFirst};
ghost use Rattle.mob_value.specs.Pairs.{OnPair, truth_pair, text_pair};
ghost use Rattle.mob_value.specs.Lifted.{IsMovingBool, IsMovingText};
ghost use Rattle.mob_arith.specs.Sql.Lifting.{IsLiftedNot, concatenation, IsJoined};
ghost use Rattle.mob_value.specs.Outcomes.{IsOutcome};

use crate::logic::{and, not, or};
use crate::operation::{Joining, Operation};
use crate::texts::join_text;
use mob_ast::SqlType;
use mob_list::fault::Fault;
use mob_slice::Formula;
use mob_value::Value;
use mob_value::kinds::{bool_or_null, text_or_null};
use mob_value::pair::{text_pair, truth_pair};
use std::alloc::{AllocError, Global};

/// `&`: whether both truth values hold, at each instant.
pub fn lifted_and(alloc: Global, left: &Value, right: &Value) -> Result<Value, Fault<Formula>>
    ensures outcome { IsOutcome (OnPair (truth_pair left.now right.now) (IsMovingBool both_hold)) (IsFirst []) result }
{
    match truth_pair(left, right) {
        Some((left, right)) => Ok(bool_or_null(and(alloc, left, right)?)),
        None => Ok(Value::Null),
    }
}

/// `|`: whether one of two truth values holds, at each instant.
pub fn lifted_or(alloc: Global, left: &Value, right: &Value) -> Result<Value, Fault<Formula>>
    ensures outcome { IsOutcome (OnPair (truth_pair left.now right.now) (IsMovingBool one_holds)) (IsFirst []) result }
{
    match truth_pair(left, right) {
        Some((left, right)) => Ok(bool_or_null(or(alloc, left, right)?)),
        None => Ok(Value::Null),
    }
}

/// `~`: the opposite truth value, at each instant.
pub fn lifted_not(alloc: Global, value: &Value) -> Result<Value, AllocError>
    ensures value { IfOk result (λ v. IsLiftedNot value.now v) }
{
    match value {
        Value::MovingBool(moving) => Ok(bool_or_null(Some(not(alloc, moving)?))),
        _ => Ok(Value::Null),
    }
}

fn plain_joined(alloc: Global, left: &Value, right: &Value) -> Result<Value, Fault<Formula>>
    ensures outcome { IsOutcome (λ v. v ≡ concatenation left.now right.now) (IsFirst []) result }
{
    match (left, right) {
        (Value::Text(a), Value::Text(b)) => Ok(Value::Text(Joining::apply(alloc, a, b)?)),
        _ => Ok(Value::Null),
    }
}

fn moving_joined(alloc: Global, left: &Value, right: &Value) -> Result<Value, Fault<Formula>>
    ensures outcome { IsOutcome (OnPair (text_pair left.now right.now) (IsMovingText text_of)) (IsFirst []) result }
{
    match text_pair(left, right) {
        Some((left, right)) => Ok(text_or_null(join_text(alloc, left, right)?)),
        None => Ok(Value::Null),
    }
}

/// `||`: two texts joined, with a result of this type.
pub fn join(
    alloc: Global,
    ty: SqlType,
    left: &Value,
    right: &Value,
) -> Result<Value, Fault<Formula>>
    ensures outcome { IsOutcome (IsJoined ty left.now right.now) (IsFirst []) result }
{
    match ty {
        SqlType::Text => plain_joined(alloc, left, right),
        SqlType::TText => moving_joined(alloc, left, right),
        _ => Ok(Value::Null),
    }
}
