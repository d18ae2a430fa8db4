//! Values that change linearly, from one limit to the other, as the unit functions of the sliced
//! representation.

ghost use Rattle.std.specs.Prelude.{◌≡◌, true, false, ⊤};
ghost use Rattle.mob_ratio.specs.Order.{same, up_to};
ghost use Rattle.mob_ratio.specs.Line.{line_at, line_continues};
ghost use Rattle.mob_frac.specs.Formula.{line_parts};
ghost use Rattle.mob_span.specs.Span.{has};
ghost use Rattle.mob_span.specs.Neighbours.{Meets};
ghost use Rattle.mob_slice.specs.Look.{IsLooked};
ghost use Rattle.mob_slice.specs.Lines.{line_value_of, line_continued, line_parts_of, plane_value_of, plane_continued, plane_parts_of};
ghost use Rattle.mob_slice.specs.LineLaws.{line_laws};
ghost use Rattle.mob_slice.specs.PlaneLaws.{plane_laws};

mod comparison;

use crate::course::Course;
use crate::formula::Formula;
use mob_frac::{Frac, Wide, interpolated, same_ratio};
use mob_list::fault::Fault;
use mob_plane::Point;
use mob_span::Span;
use std::alloc::{AllocError, Global};

// Whether the line from `x0` at `l` to `y` at `u` passes through `x1` at `m`. No step of the test
// can overflow.
fn is_straight(x0: &Frac, x1: &Frac, y: &Frac, l: &Frac, m: &Frac, u: &Frac) -> bool
    requires first { up_to l.now m.now ≡ true }
    requires second { up_to m.now u.now ≡ true }
    ensures value { result ≡ same (line_at x0.now y.now l.now u.now m.now) x1.now }
{
    if !l.is_before(m) {
        return x0.is_same(x1);
    }
    if !m.is_before(u) {
        return y.is_same(x1);
    }
    same_ratio(
        &Wide::difference(x1, x0),
        &Wide::difference(m, l),
        &Wide::difference(y, x1),
        &Wide::difference(u, m),
    )
}

// Whether the line from `x0` to `x1` on a span and the one from `y0` to `y1` on the next are one
// line.
fn is_one_line(x0: &Frac, x1: &Frac, y0: &Frac, y1: &Frac, span: &Span, next: &Span) -> bool
    requires meets { Meets span.now next.now }
    ensures value { result ≡ line_continues x0.now x1.now y0.now y1.now span.now.lower span.now.upper next.now.upper }
{
    x1.is_same(y0) && is_straight(x0, x1, y1, span.lower(), next.lower(), next.upper())
}

// The number at an instant of the span.
fn value_in(x0: &Frac, x1: &Frac, span: &Span, t: &Frac) -> Result<Frac, Fault<Formula>>
    requires inside { has span.now t.now ≡ true }
    ensures value { IsLooked false (line_parts x0.now x1.now span.now.lower span.now.upper t.now) (line_at x0.now x1.now span.now.lower span.now.upper t.now) result }
{
    match interpolated(x0, x1, span.lower(), span.upper(), t) {
        Ok(value) => Ok(value),
        Err(_) => Err(Fault::Because(Formula::F1)),
    }
}

/// A number that changes linearly. On a span of one instant both limits are equal.
#[derive(Clone, Copy, Debug, Drop)]
pub struct Line {
    /// The number at the lower end of the span.
    pub from: Frac,
    /// The number at the upper end.
    pub to: Frac,
}

impl Course for Line {
    type Base = Frac;

    const STEADY: bool = false;

    ghost STEADY = { false };

    ghost copy_allocates = { false };

    ghost start_of = { λ c. c.from };

    ghost end_of = { λ c. c.to };

    ghost value_of = { line_value_of };

    ghost can_make = { λ a b. ⊤ };

    ghost make = { λ a b. record { from = a; to = b } };

    ghost is_continued = { line_continued };

    ghost parts_of = { line_parts_of };

    fn start(&self) -> &Frac {
        &self.from
    }

    fn end(&self) -> &Frac {
        &self.to
    }

    fn at(&self, alloc: Global, span: &Span, t: &Frac) -> Result<Frac, Fault<Formula>> {
        value_in(&self.from, &self.to, span, t)
    }

    fn continues(&self, span: &Span, next: &Self, next_span: &Span) -> bool {
        is_one_line(&self.from, &self.to, &next.from, &next.to, span, next_span)
    }

    #[tactic(auto, using(mob_ratio::proofs::Order::same_exact))]
    fn same(a: &Frac, b: &Frac) -> bool {
        a.is_same(b)
    }

    fn copy_base(alloc: Global, base: &Frac) -> Result<Frac, AllocError> {
        Ok(*base)
    }

    fn of(from: Frac, to: Frac) -> Self {
        Line { from, to }
    }

    ghost laws = { line_laws };
}

/// A point that moves linearly: each coordinate changes linearly. On a span of one instant both
/// limits are equal.
#[derive(Clone, Copy, Debug, Drop)]
pub struct PlaneLine {
    /// The point at the lower end of the span.
    pub from: Point,
    /// The point at the upper end.
    pub to: Point,
}

impl Course for PlaneLine {
    type Base = Point;

    const STEADY: bool = false;

    ghost STEADY = { false };

    ghost copy_allocates = { false };

    ghost start_of = { λ c. c.from };

    ghost end_of = { λ c. c.to };

    ghost value_of = { plane_value_of };

    ghost can_make = { λ a b. ⊤ };

    ghost make = { λ a b. record { from = a; to = b } };

    ghost is_continued = { plane_continued };

    ghost parts_of = { plane_parts_of };

    fn start(&self) -> &Point {
        &self.from
    }

    fn end(&self) -> &Point {
        &self.to
    }

    fn at(&self, alloc: Global, span: &Span, t: &Frac) -> Result<Point, Fault<Formula>> {
        let x = value_in(&self.from.x, &self.to.x, span, t)?;
        let y = value_in(&self.from.y, &self.to.y, span, t)?;
        Ok(Point { x, y })
    }

    fn continues(&self, span: &Span, next: &Self, next_span: &Span) -> bool {
        is_one_line(
            &self.from.x,
            &self.to.x,
            &next.from.x,
            &next.to.x,
            span,
            next_span,
        ) && is_one_line(
            &self.from.y,
            &self.to.y,
            &next.from.y,
            &next.to.y,
            span,
            next_span,
        )
    }

    fn same(a: &Point, b: &Point) -> bool {
        a.is_same(b)
    }

    fn copy_base(alloc: Global, base: &Point) -> Result<Point, AllocError> {
        Ok(*base)
    }

    fn of(from: Point, to: Point) -> Self {
        PlaneLine { from, to }
    }

    ghost laws = { plane_laws };
}
