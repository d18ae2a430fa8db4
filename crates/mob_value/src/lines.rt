//! Tints as linear values.
//!
//! Callers drop what they hold by `drop`. In their proofs that is one call; the end of a block
//! would drop each kind of value.
ghost use Rattle.std.specs.Prelude.{◌≡◌, IfOk, IsErr, Ok, MatchResult, map};
ghost use Rattle.mob_ratio.specs.Ratio.{Ratio};
ghost use Rattle.mob_slice.specs.Lines.{line_value_of};
ghost use Rattle.mob_slice.specs.Operands.{steady_value};
ghost use Rattle.mob_slice.specs.Slices.{value_at};
ghost use Rattle.mob_value.specs.Held.{held};
ghost use Rattle.mob_value.specs.Lines.{IsWidened, as_line, level_line};

use crate::held::Held;
use crate::kinds::frac_or_null;
use crate::value::Value;
use mob_frac::Frac;
use mob_slice::{Line, Moving, Slice, Steady};
use std::alloc::{AllocError, Global};

/// A temporal number that changes in steps, as one that may change linearly. At every instant it
/// has the same value, or none. No number is computed, so nothing overflows: the only error is a
/// failed allocation.
pub fn widen(alloc: Global, a: &Moving<Steady<Frac>>) -> Result<Moving<Line>, AllocError>
    ensures same { IfOk result (λ b. (t : Ratio) → value_at line_value_of b t ≡ value_at steady_value a.now t) }
    ensures level { IfOk result (λ b. b ≡ map level_line a.now) }
{
    let mut lines = Vec::new(alloc);
    let slices = a.slices();
    for slice in slices {
        lines.push(level_line(slice))?;
    }
    Ok(Moving::from_normal(lines))
}

// The constant slice at the value of a step.
fn level_line(slice: &Slice<Steady<Frac>>) -> Slice<Line>
    ensures level { result ≡ level_line slice.now }
{
    Slice {
        span: slice.span,
        course: Line {
            from: slice.course.value,
            to: slice.course.value,
        },
    }
}

/// A tint as a tfrac.
pub fn widened(alloc: Global, value: &Value) -> Result<Value, AllocError>
    ensures value { IfOk result (λ v. IsWidened value.now v) }
{
    match value {
        Value::MovingInt(a) => Ok(frac_or_null(Some(widen(alloc, a)?))),
        _ => Ok(Value::Null),
    }
}

/// A tint as a tfrac; other values unchanged.
pub fn as_line<'a>(alloc: Global, value: &'a Value) -> Result<Held<'a>, AllocError>
    ensures value { IfOk result (λ h. held h ≡ as_line value.now) }
{
    match value {
        Value::MovingInt(a) => match widen(alloc, a) {
            Ok(line) => Ok(Held::Made(frac_or_null(Some(line)))),
            Err(fault) => Err(fault),
        },
        _ => Ok(Held::Stored(value)),
    }
}

// Two values, if the second one exists. Dropping the first is one call at a type parameter.
fn both<T: Drop>(first: T, second: Result<T, AllocError>) -> Result<(T, T), AllocError>
    ensures pair { MatchResult second (λ s. result ≡ Ok (first, s)) (λ _. IsErr result) }
{
    match second {
        Ok(second) => Ok((first, second)),
        Err(fault) => Err(fault),
    }
}

/// Two values, where a tint becomes a tfrac.
pub fn as_lines<'a>(
    alloc: Global,
    left: &'a Value,
    right: &'a Value,
) -> Result<(Held<'a>, Held<'a>), AllocError>
    ensures left { IfOk result (λ p. held p.0 ≡ as_line left.now) }
    ensures right { IfOk result (λ p. held p.1 ≡ as_line right.now) }
{
    match as_line(alloc, left) {
        Ok(first) => both(first, as_line(alloc, right)),
        Err(fault) => Err(fault),
    }
}
