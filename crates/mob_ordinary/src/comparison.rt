//! The six plain comparisons.
ghost use Rattle.std.specs.Prelude.{◌≡◌, ◌↔◌, IsTrue, ◌&&◌, [], ◌∷◌, map};
ghost use Rattle.mob_span.specs.Flags.{same_bool};
ghost use Rattle.mob_value.specs.Lines.{level_line};
ghost use Rattle.mob_slice.specs.Slices.{value_at};
ghost use Rattle.mob_value.specs.declared.value.Value.TheVariants.{Bool as Truth};
ghost use Rattle.mob_value.specs.Moving.{step_function, line_function};
ghost use Rattle.mob_ordinary.specs.Ordinary.{AreOneFunction, HaveSameInstants, IsEquality, ordered, IsTest};

use mob_ast::Cmp;
use mob_frac::Frac;
use mob_list::text::Text;
use mob_plane::Point;
use mob_slice::{BaseValue, Course, Line, Moving, Ranked, Rel, Slice, Steady};
use mob_span::{Span, SpanSet};
use mob_stbox::StBox;
use mob_value::Value;
use mob_value::relation::rel_of;

fn same_truth(left: bool, right: bool) -> bool
    ensures exact { IsTrue result ↔ (left ≡ right) }
{
    left == right
}

#[tactic(auto, using(mob_ratio::proofs::Order::same_exact))]
fn same_number(left: &Frac, right: &Frac) -> bool
    ensures exact { IsTrue result ↔ (left.now ≡ right.now) }
{
    left.is_same(right)
}

#[tactic(auto, using(mob_slice::specs::Sameness::same_bytes_exact))]
fn same_text(left: &Text, right: &Text) -> bool
    ensures exact { IsTrue result ↔ (left.now ≡ right.now) }
{
    left.same(right)
}

fn same_span(left: &Span, right: &Span) -> bool
    ensures exact { IsTrue result ↔ (left.now ≡ right.now) }
{
    same_number(left.lower(), right.lower())
        && same_number(left.upper(), right.upper())
        && same_truth(left.lower_inc(), right.lower_inc())
        && same_truth(left.upper_inc(), right.upper_inc())
}

fn same_point(left: &Point, right: &Point) -> bool
    ensures exact { IsTrue result ↔ (left.now ≡ right.now) }
{
    left.is_same(right)
}

fn same_box(left: &StBox, right: &StBox) -> bool
    ensures exact { IsTrue result ↔ (left.now ≡ right.now) }
{
    left.same(right)
}

// Whether two spans have the same instants.
fn same_instants(left: &Span, right: &Span) -> bool
    ensures exact { IsTrue result ↔ HaveSameInstants (left.now ∷ []) (right.now ∷ []) }
{
    // The clause of `lower` says that each span has an instant.
    let _ = left.lower();
    let _ = right.lower();
    same_span(left, right)
}

fn same_spans(left: &[Span], right: &[Span]) -> bool
    ensures exact { IsTrue result ↔ (left.now ≡ right.now) }
{
    if left.len() != right.len() {
        return false;
    }
    for (i, span) in left.iter().enumerate() {
        if !same_span(span, &right[i]) {
            return false;
        }
    }
    true
}

// Whether two span sets have the same instants.
fn same_set(left: &SpanSet, right: &SpanSet) -> bool
    ensures exact { IsTrue result ↔ HaveSameInstants left.now right.now }
{
    same_spans(left.spans(), right.spans())
}

fn same_slice<C: Course>(left: &Slice<C>, right: &Slice<C>) -> bool
    ensures exact { IsTrue result ↔ (left.now ≡ right.now) }
{
    same_span(&left.span, &right.span)
        && C::same(left.course.start(), right.course.start())
        && C::same(left.course.end(), right.course.end())
}

fn same_slices<C: Course>(left: &[Slice<C>], right: &[Slice<C>]) -> bool
    ensures exact { IsTrue result ↔ (left.now ≡ right.now) }
{
    if left.len() != right.len() {
        return false;
    }
    for (i, slice) in left.iter().enumerate() {
        if !same_slice(slice, &right[i]) {
            return false;
        }
    }
    true
}

// Whether two temporal values have the same value at every instant.
fn same_function<C: Course>(left: &Moving<C>, right: &Moving<C>) -> bool
    ensures exact { IsTrue result ↔ AreOneFunction (value_at C.value_of left.now) (value_at C.value_of right.now) }
{
    same_slices(left.slices(), right.slices())
}

// Whether a line is level at the value of a step, on its span.
fn is_level(step: &Slice<Steady<Frac>>, line: &Slice<Line>) -> bool
    ensures exact { IsTrue result ↔ (level_line step.now ≡ line.now) }
{
    same_span(&step.span, &line.span)
        && same_number(&step.course.value, &line.course.from)
        && same_number(&step.course.value, &line.course.to)
}

fn are_level(steps: &[Slice<Steady<Frac>>], lines: &[Slice<Line>]) -> bool
    ensures exact { IsTrue result ↔ (map level_line steps.now ≡ lines.now) }
{
    if steps.len() != lines.len() {
        return false;
    }
    for (i, step) in steps.iter().enumerate() {
        if !is_level(step, &lines[i]) {
            return false;
        }
    }
    true
}

// Whether a tint and a tfrac have the same value at every instant.
fn same_number_function(steps: &Moving<Steady<Frac>>, lines: &Moving<Line>) -> bool
    ensures exact { IsTrue result ↔ AreOneFunction (step_function steps.now) (line_function lines.now) }
{
    are_level(steps.slices(), lines.slices())
}

fn says(wanted: bool, truth: bool) -> Value
    ensures value { result ≡ Truth (same_bool wanted truth) }
{
    Value::Bool(if wanted { truth } else { !truth })
}

// `=` if `wanted` is true, `<>` if it is false.
fn equality(wanted: bool, left: &Value, right: &Value) -> Value
    ensures value { IsEquality wanted left.now right.now result }
{
    match (left, right) {
        (Value::Bool(a), Value::Bool(b)) => says(wanted, same_truth(*a, *b)),
        (Value::Number(a), Value::Number(b)) => says(wanted, same_number(a, b)),
        (Value::Text(a), Value::Text(b)) => says(wanted, same_text(a, b)),
        (Value::Moment(a), Value::Moment(b)) => says(wanted, same_number(a, b)),
        (Value::Point(a), Value::Point(b)) => says(wanted, same_point(a, b)),
        (Value::Span(a), Value::Span(b)) => says(wanted, same_instants(a.get(), b.get())),
        (Value::SpanSet(a), Value::SpanSet(b)) => says(wanted, same_set(a, b)),
        (Value::Box(a), Value::Box(b)) => says(wanted, same_box(a.get(), b.get())),
        (Value::MovingBool(a), Value::MovingBool(b)) => says(wanted, same_function(a, b)),
        (Value::MovingInt(a), Value::MovingInt(b)) => says(wanted, same_function(a, b)),
        (Value::MovingInt(a), Value::MovingFrac(b)) => says(wanted, same_number_function(a, b)),
        (Value::MovingFrac(a), Value::MovingInt(b)) => says(wanted, same_number_function(b, a)),
        (Value::MovingFrac(a), Value::MovingFrac(b)) => says(wanted, same_function(a, b)),
        (Value::MovingText(a), Value::MovingText(b)) => says(wanted, same_function(a, b)),
        (Value::MovingPoint(a), Value::MovingPoint(b)) => says(wanted, same_function(a, b)),
        _ => Value::Null,
    }
}

fn ordered(rel: Rel, left: &Value, right: &Value) -> Value
    ensures value { result ≡ ordered rel left.now right.now }
{
    match (left, right) {
        (Value::Number(a), Value::Number(b)) => Value::Bool(rel.holds(Ranked::compare(a, b))),
        (Value::Text(a), Value::Text(b)) => Value::Bool(rel.holds(Ranked::compare(a, b))),
        (Value::Moment(a), Value::Moment(b)) => Value::Bool(rel.holds(Ranked::compare(a, b))),
        _ => Value::Null,
    }
}

/// A plain comparison of two values; NULL if one is NULL, or if two such values cannot be compared.
pub fn test(sign: Cmp, left: &Value, right: &Value) -> Value
    ensures value { IsTest sign left.now right.now result }
{
    match sign {
        Cmp::Eq => equality(true, left, right),
        Cmp::Ne => equality(false, left, right),
        _ => ordered(rel_of(sign), left, right),
    }
}
